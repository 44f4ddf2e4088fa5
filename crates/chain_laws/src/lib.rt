//! Laws of chains of views, over the definitions alone: a chain gives the views of the group, and two chains never fork.
#![tactic(auto)]

ghost use Rattle.chain_laws.specs.Chains.{ChainIsInstalled, ChainIsOfAll, ChainsDoNotFork, GenesisIsInstalled, GenesisIsOfAll};
ghost use Rattle.chain_laws.specs.Commits.{CommitShows};
ghost use Rattle.chain_laws.specs.Reported.{AnswersReportViews};

/// A chain may begin with the genesis.
pub fn genesis_is_of_all()
    ensures { GenesisIsOfAll }
{}

/// It is installed, where some process is correct.
pub fn genesis_is_installed()
    ensures { GenesisIsInstalled }
{}

/// Each view of a chain is the view that every correct process with its number has.
pub fn chain_is_of_all()
    ensures { ChainIsOfAll }
{}

/// A correct process has installed each view of a chain but the last one.
pub fn chain_is_installed()
    ensures { ChainIsInstalled }
{}

/// Of two chains the shorter one is the front of the longer one.
pub fn chains_do_not_fork()
    ensures { ChainsDoNotFork }
{}

/// The commit certificate of a view that a process left shows the view that it installed next.
pub fn commit_shows()
    ensures { CommitShows }
{}

/// The answer to bytes that begin with a kit is the lines of the views of a chain, and at most one line more; these views are the group's.
pub fn answers_report_views()
    ensures { AnswersReportViews }
{}
