use crate::payload::Payload;
use statements::Pid;

/// A claim that a process made or keeps: its statement is the statement's bytes (docs/FORMATS.md, «Statements»).
#[derive(Debug, Drop)]
pub struct OwnClaim {
    /// Who signed.
    pub signer: Pid,

    /// The statement's bytes.
    pub statement: Payload,

    /// At most 16,384 bytes.
    pub signature: Payload,
}
