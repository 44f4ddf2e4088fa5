//! Rows of the store in words, computed by the definitions: each is the contract of a function with an empty body.
#![tactic(auto)]

ghost use Rattle.store_text_rows.specs.Rows.{EachAnswer, EachState, NoRequests, TwoRequestsInWords};

/// Two requests of a process that is alone in its view: in words, as they are submitted, delivered and answered, and in words again.
pub fn two_requests_in_words()
    ensures { TwoRequestsInWords }
{}

/// Lines that ask for a request and are none.
pub fn no_requests()
    ensures { NoRequests }
{}

/// What is written of each answer, and of bytes that are none.
pub fn each_answer()
    ensures { EachAnswer }
{}

/// What is written where a state is given, taken or refused, and where there is no reply or no answer.
pub fn each_state()
    ensures { EachState }
{}
