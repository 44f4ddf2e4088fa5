//! A claim whose bytes are kept.
ghost use Rattle.std.specs.Prelude.{◌≡◌, true, false, IfNone, IfSome};
ghost use Rattle.message_defs.specs.Spelling.{IsStatement};
ghost use Rattle.stmt_codec.specs.Views.{claim as claim_of};
ghost use Rattle.claim_firsts.specs.Own.{IsReadable, claim_in, said_in};

use stmt_codec::{Claim, OwnClaim, read_statement};

/// A claim that a process signed itself.
#[derive(Drop)]
pub struct Word {
    pub own: OwnClaim,
    pub ghost readable: { IsReadable own.statement },
}

// Whether the bytes spell a statement in its ranges.
fn is_statement(bytes: &[u8]) -> bool
    ensures read { result ≡ true → IsReadable bytes.now }
    ensures range { result ≡ true → IsStatement (said_in bytes.now) }
    ensures unread { result ≡ false → IsReadable bytes.now → ⊥ }
{
    match read_statement(bytes) {
        Ok(_) => true,
        Err(_) => false,
    }
}

impl Word {
    /// The claim of these bytes; None exactly where they spell no statement in its ranges.
    pub fn new(own: OwnClaim) -> Option<Word>
        ensures same { IfSome result (λ w. w.own ≡ own) }
        ensures range { IfSome result (λ w. IsStatement (claim_in w.own).statement) }
        ensures none { IfNone result (IsReadable own.statement → ⊥) }
    {
        if is_statement(own.statement.bytes()) {
            Some(Word { own })
        } else {
            None
        }
    }

    /// The claim, borrowed.
    pub fn claim(&self) -> Claim<'_>
        ensures { claim_of result ≡ claim_in self.now.own }
    {
        let bytes = self.own.statement.bytes();
        let Ok(statement) = read_statement(bytes) else {
            unreachable!()
        };
        let signature = self.own.signature.bytes();
        Claim {
            signer: self.own.signer,
            statement,
            signature,
        }
    }
}
