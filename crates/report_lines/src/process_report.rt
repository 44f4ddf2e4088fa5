use accounts::Account;
use rp_base::PidSet;
use view_phases::PhaseWord;

/// What a report says of a process. `IsAsReported` of the specs relates it to a process of the definitions.
#[derive(Clone, Copy)]
pub struct ProcessReport<'a> {
    /// What the process reports of itself.
    pub account: &'a Account,

    /// The phase of the process in its current view.
    pub phase: PhaseWord,

    /// How many statements the process signed.
    pub signed: u32,

    /// The signers of whom the process keeps two claims that conflict.
    pub liars: PidSet,

    /// Where the process halted: how many places it delivered, and the cut.
    pub halted: Option<(u16, u16)>,
}
