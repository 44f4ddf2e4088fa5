ghost use Rattle.std.specs.Prelude.{◌≡◌, ℕ};

use rp_base::PidSet;
use std::marker::PhantomData;
use stmt_codec::Statement;

/// A kind of statements that certificates are made of: `Message`, `Place`, `Keep`, `Ack` and `Commit`.
pub trait CertKind {
    /// The number of the kind.
    ghost kind: { ℕ };

    /// The number of the kind, as slots have it.
    fn number() -> u8
        ensures { result ≡ kind };
}

/// Echoes of a message.
#[derive(Clone, Copy)]
pub struct Message;

/// Places of a place.
#[derive(Clone, Copy)]
pub struct Place;

/// Keeps of a place.
#[derive(Clone, Copy)]
pub struct Keep;

/// Acks of a rank.
#[derive(Clone, Copy)]
pub struct Ack;

/// Readies of a rank, which decide the view.
#[derive(Clone, Copy)]
pub struct Commit;

impl CertKind for Message {
    ghost kind = { 2 };

    fn number() -> u8 {
        2
    }
}

impl CertKind for Place {
    ghost kind = { 4 };

    fn number() -> u8 {
        4
    }
}

impl CertKind for Keep {
    ghost kind = { 5 };

    fn number() -> u8 {
        5
    }
}

impl CertKind for Ack {
    ghost kind = { 10 };

    fn number() -> u8 {
        10
    }
}

impl CertKind for Commit {
    ghost kind = { 11 };

    fn number() -> u8 {
        11
    }
}

/// A content that a quorum of a view's members says, and those who say it. `Pool::certificate` alone makes one.
#[derive(Drop)]
pub struct Certificate<'a, K> {
    pub(crate) content: Statement<'a>,
    pub(crate) signers: PidSet,
    pub(crate) kind: PhantomData<K>,
}

impl<'a, K> Certificate<'a, K> {
    ghost use Rattle.std.specs.Prelude.{◌≡◌, ℕ};
    ghost use Rattle.stmt_codec.specs.Views.{stmt};
    ghost use Rattle.claim_pool.specs.Certificates.{content_of, signers_of};

    /// What is certified.
    pub fn content(&self) -> &Statement<'a>
        ensures { stmt result.now ≡ content_of self.now }
    {
        &self.content
    }

    /// The members that say it, at least a quorum.
    pub fn signers(&self) -> PidSet
        ensures { result ≡ signers_of self.now }
    {
        self.signers
    }
}
