//! Claims as a table keeps them: borrowed from what was handed over, or with bytes of their own.
ghost use Rattle.std.specs.Prelude.{◌≡◌};
ghost use Rattle.byte_defs.specs.Equality.{same_bytes};
ghost use Rattle.stmt_codec.specs.Views.{stmt, claim as claim_of};
ghost use Rattle.conviction_defs.specs.Convictions as defs;
ghost use Rattle.claim_firsts.specs.Entries.{kept_claim};
ghost use Rattle.claim_firsts.specs.First.{is_again};

use crate::word::Word;
use rp_base::Pid;
use stmt_codec::{Claim, Statement, conflicts};

/// A claim of the table.
#[derive(Drop)]
pub enum Kept<'a> {
    /// It is borrowed from what was handed over.
    Lent(Claim<'a>),

    /// A process signed it itself.
    Own(Word),
}

// The statement, once more. Written out, since what lends bytes is not copied from a reference (docs/CONTRIBUTING.md).
fn statement_again<'a>(statement: &Statement<'a>) -> Statement<'a>
    ensures { stmt result ≡ stmt statement.now }
{
    match *statement {
        Statement::Init {
            view,
            number,
            payload,
        } => Statement::Init {
            view,
            number,
            payload,
        },
        Statement::Echo {
            view,
            sender,
            number,
            payload,
        } => Statement::Echo {
            view,
            sender,
            number,
            payload,
        },
        Statement::Order { view, place, batch } => Statement::Order { view, place, batch },
        Statement::Place { view, place, batch } => Statement::Place { view, place, batch },
        Statement::Keep { view, place, batch } => Statement::Keep { view, place, batch },
        Statement::Notify { view, update } => Statement::Notify { view, update },
        Statement::End { view, length } => Statement::End { view, length },
        Statement::Last { view, rank, ready } => Statement::Last { view, rank, ready },
        Statement::Suggest { view, rank, value } => Statement::Suggest { view, rank, value },
        Statement::Ack { view, rank, value } => Statement::Ack { view, rank, value },
        Statement::Ready { view, rank, value } => Statement::Ready { view, rank, value },
    }
}

/// The claim, once more.
pub fn claim_again<'a>(claim: &Claim<'a>) -> Claim<'a>
    ensures { claim_of result ≡ claim_of claim.now }
{
    Claim {
        signer: claim.signer,
        statement: statement_again(&claim.statement),
        signature: claim.signature,
    }
}

impl<'a> Kept<'a> {
    /// The claim, borrowed.
    pub fn claim(&self) -> Claim<'_>
        ensures { claim_of result ≡ kept_claim self.now }
    {
        match self {
            Kept::Lent(claim) => claim_again(claim),
            Kept::Own(word) => word.claim(),
        }
    }

    /// Who signed it.
    pub fn signer(&self) -> Pid
        ensures { result ≡ (kept_claim self.now).signer }
    {
        match self {
            Kept::Lent(claim) => claim.signer,
            Kept::Own(word) => word.own.signer,
        }
    }
}

/// Whether the claim is on the slot of the other and says something else.
pub fn is_conflict(claim: &Claim<'_>, other: &Claim<'_>) -> bool
    ensures { result ≡ defs.is_conflict (claim_of other.now) (claim_of claim.now) }
{
    conflicts(&claim.statement, &other.statement)
}

// Whether they are the same bytes. Both at one lifetime, the only form of the comparison that the borrow checker covers.
fn are_same<'b>(a: &'b [u8], b: &'b [u8]) -> bool
    ensures { result ≡ same_bytes a.now b.now }
{
    a == b
}

/// Whether the claim does not conflict with the other, and has its signature.
pub fn is_same(claim: &Claim<'_>, other: &Claim<'_>) -> bool
    ensures { result ≡ is_again (claim_of other.now) (claim_of claim.now) }
{
    !is_conflict(claim, other) && are_same(claim.signature, other.signature)
}
