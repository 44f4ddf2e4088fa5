use rp_base::Pid;
use stmt_codec::Claim;

/// Two valid claims of one process that conflict.
#[derive(Clone, Copy)]
pub struct Conviction<'a> {
    /// Who signed both.
    pub process: Pid,

    /// The earliest claim on their slot.
    pub first: Claim<'a>,

    /// The first claim of the process that conflicts with one before it.
    pub second: Claim<'a>,
}
