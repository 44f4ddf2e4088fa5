use crate::bundle::bundle;
use member_events::{
    BODY_BYTES, Payload, SIGNATURE_BYTES, STATEMENT_BYTES, Statement, body_into, spell_into,
};
use rp_base::{GroupId, NoMemory, Pid, Signer, Tally};
use sig_scheme::AnySigner;
use std::alloc::Global;

/// The room of a signature.
const SIGNATURE_ROOM: usize = SIGNATURE_BYTES as usize;

/// A corrupt process, with its key.
#[derive(Drop)]
pub struct Liar {
    pub process: Pid,
    pub signer: AnySigner,
}

impl Liar {
    ghost use Rattle.std.specs.Prelude.{◌≡◌, IfOk, IfSome, IfNone, OnOk};
    ghost use Rattle.message_defs.specs.Spelling.{IsStatement};
    ghost use Rattle.sig_scheme.specs.Signers.{total, signature};
    ghost use Rattle.member_events.specs.Below.{stmt};
    ghost use Rattle.replay_cast.specs.Liars.{Reported, Silent, lie_of};

    /// The process signs a statement, and the answer is the Bundle of this one claim. None comes exactly where its key is spent, and
    /// changes nothing.
    pub fn lie(
        &mut self,
        alloc: Global,
        group: &GroupId,
        statement: &Statement<'_>,
    ) -> Result<Option<Payload>, NoMemory>
        requires { IsStatement (stmt statement.now) }
        ensures reported { IfOk result (λ lie. IfSome lie (Reported group.now (stmt statement.now) self.old self.new)) }
        ensures silent { IfOk result (λ lie. IfNone lie (Silent self.old self.new)) }
        ensures process { self.new.process ≡ self.old.process }
        ensures total { total self.new.signer ≡ total self.old.signer }
        ensures secret { signature self.new.signer ≡ signature self.old.signer }
    {
        if self.signer.used() == self.signer.total() {
            return Ok(None);
        }
        let mut body = [0; BODY_BYTES];
        let len = body_into(group, self.process, statement, &mut body);
        let mut room = [0; SIGNATURE_ROOM];
        let signature = &mut room[..self.signer.sig_len()];
        let Ok(size) = self.signer.sign(&body[..len], signature) else {
            unreachable!();
        };
        let mut spelled = [0; STATEMENT_BYTES];
        let end = spell_into(statement, &mut spelled);
        Ok(Some(bundle(alloc, &spelled[..end], self.process, &signature[..size])?))
    }
}
