//! How a node opens: how it reads the entries of its journal, and which part of a run the answers to its first calls are. Each law is the
//! contract of a function with an empty body.
#![tactic(auto)]

ghost use Rattle.opening_laws.specs.Opening.{OpensInOrder};
ghost use Rattle.opening_laws.specs.Reading.{EachReadsOn, OneMoreCounts};

/// The opening of a node goes on with each answer.
pub fn opens_in_order()
    ensures { OpensInOrder }
{}

/// A node that has not stopped at the first entries of its journal goes on with the others.
pub fn each_reads_on()
    ensures { EachReadsOn }
{}

/// With one entry more, its process has one more.
pub fn one_more_counts()
    ensures { OneMoreCounts }
{}
