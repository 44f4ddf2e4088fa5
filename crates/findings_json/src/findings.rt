use accounts::Account;
use rp_base::Pid;
use std::mem;
use stmt_codec::OwnClaim;

/// Two valid claims of one process that conflict.
pub struct Conviction {
    pub process: Pid,

    /// The kind of the two statements: 3 to 5 of an Order, a Place or a Keep of several messages too.
    pub kind: u8,

    /// The earliest claim on their slot.
    pub first: OwnClaim,

    /// The first claim of the process that conflicts with one before it.
    pub second: OwnClaim,
}

// Written out, so that whoever drops a value makes one call (docs/CONTRIBUTING.md).
impl Drop for Conviction {
    fn drop(self) {
        let Conviction {
            process: _,
            kind: _,
            first,
            second,
        } = self;
        mem::drop(first);
        mem::drop(second);
    }
}

/// What an audit found.
pub struct Findings {
    pub agree: bool,
    pub bounded: bool,

    /// By process number.
    pub convicted: Vec<Conviction>,
    pub honest: bool,

    /// Those of the listed processes, rising.
    pub accounts: Vec<Account>,
    pub sound: bool,
}

// Written out, as above.
impl Drop for Findings {
    fn drop(self) {
        let Findings {
            agree: _,
            bounded: _,
            convicted,
            honest: _,
            accounts,
            sound: _,
        } = self;
        mem::drop(convicted);
        mem::drop(accounts);
    }
}
