//! Chains of views on plain data: what a proof shows of the view that follows, and what the program says of a chain.
#![tactic(auto)]

use message_defs::FrameFault;

/// Why a proof shows no view. Whoever made it is to blame, or it is of another view.
#[derive(Clone, Copy, Debug, PartialEq, Eq)]
pub enum ChainFault {
    /// The bytes are no frame of claims.
    Frame(FrameFault),

    /// They are a Bundle or a Want.
    NotProof,

    /// At no rank do Q members say one Ready whose update is possible. This is the most that say one.
    Few(u8),
}
