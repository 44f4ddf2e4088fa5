//! Datagrams between the processes of a group, and the tags that show who speaks.
#![tactic(auto)]

ghost use Rattle.link_defs.specs.Datagrams.{OpenedCame, ComingIsOpened};

/// Why a datagram is not opened: the first of these that holds. Whoever sent it is to blame; nothing has changed.
#[derive(Clone, Copy, Debug, PartialEq, Eq)]
pub enum LinkFault {
    /// It has fewer than 54 bytes.
    Short,

    /// It doesn't begin with the letters `RPD1`.
    Magic,

    /// It names another group.
    OtherGroup,

    /// It is for another process.
    NotForMe,

    /// There is no key for the process that it names as its sender.
    UnknownPeer,

    /// Its tag isn't the one that the pair's key gives.
    BadTag,
}

/// What is opened came in these bytes, tagged by its sender.
pub fn opened_came()
    ensures { OpenedCame }
{}

/// What comes is opened, as who sent it and the frame.
pub fn coming_is_opened()
    ensures { ComingIsOpened }
{}
