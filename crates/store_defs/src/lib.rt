//! A replicated store on plain data: what its commands do and answer, what the members of a group say of it, and what f + 1 of them make
//! sure.
#![tactic(auto)]

/// What a client makes of a reply: the first of these that holds.
#[derive(Clone, Copy, Debug, PartialEq, Eq)]
pub enum Offer {
    /// It answers another payload, or in a view of another number; nothing has changed.
    OtherRequest,

    /// Its signer is no member of the view; nothing has changed.
    Stranger,

    /// Its signature is not valid under its signer's reply key, or the client has no such key; nothing has changed.
    Unsigned,

    /// Its signer gave this place, position and answer before; nothing has changed.
    Known,

    /// It counts.
    Counted,
}

/// What a joiner makes of a state: the first of these that holds.
#[derive(Clone, Copy, Debug, PartialEq, Eq)]
pub enum Taken {
    /// It is of a view of another number; nothing has changed.
    OtherView,

    /// Its signer is no member of the view; nothing has changed.
    Stranger,

    /// Its signature is not valid under its signer's state key, or the joiner was handed no such key; nothing has changed.
    Unsigned,

    /// Its signer was counted before; nothing has changed.
    Known,

    /// It counts, and more than f members have now given this state.
    Ready,

    /// It counts; this many members have now given this state, and that is not enough.
    Counted(u8),
}
