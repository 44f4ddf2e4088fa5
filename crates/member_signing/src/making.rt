//! The own claim on a statement: its bytes, and the signature that comes next.
ghost use Rattle.std.specs.Prelude.{◌≡◌, ◌+◌, ◌≤◌, ◌<◌, length, IfOk, OnOk};
ghost use Rattle.message_defs.specs.Spelling.{IsStatement, spelling, body};
ghost use Rattle.message_defs.specs.Packing.{signed as signed_by};
ghost use Rattle.stmt_codec.specs.Views.{stmt, signed};

use rp_base::{GroupId, NoMemory, Pid, Signer, Tally};
use std::alloc::Global;
use stmt_codec::{
    BODY_BYTES, OwnClaim, Payload, STATEMENT_BYTES, Statement, body_into, spell_into,
};

// The bytes, as bytes of one's own: as much memory as they take.
fn owned(alloc: Global, bytes: &[u8]) -> Result<Payload, NoMemory>
    ensures { IfOk result (λ own. own ≡ bytes.now) }
{
    Ok(Payload::from_vec(Vec::from_slice(alloc, bytes)?))
}

// The statement's bytes.
fn spelled(alloc: Global, statement: &Statement<'_>) -> Result<Payload, NoMemory>
    requires { IsStatement (stmt statement.now) }
    ensures { IfOk result (λ own. own ≡ spelling (stmt statement.now)) }
{
    let mut room = [0; STATEMENT_BYTES];
    let len = spell_into(statement, &mut room);
    owned(alloc, &room[..len])
}

// The next signature on the body, where one is left.
fn sign_body<G: Signer>(alloc: Global, body: &[u8], signer: &mut G) -> Result<Payload, NoMemory>
    requires { G.Tally.used signer.old < G.Tally.total signer.old }
    ensures made { IfOk result (λ own. own ≡ G.signature signer.old (G.Tally.used signer.old) body.now) }
    ensures short { IfOk result (λ own. length own ≤ 16384) }
    ensures used { OnOk result (G.Tally.used signer.new ≡ G.Tally.used signer.old + 1) }
    ensures rises { G.Tally.used signer.old ≤ G.Tally.used signer.new }
    ensures total { G.Tally.total signer.new ≡ G.Tally.total signer.old }
    ensures secret { G.signature signer.new ≡ G.signature signer.old }
    ensures key { G.public signer.new ≡ G.public signer.old }
{
    let most = signer.sig_len();
    let mut signature = Vec::new(alloc);
    signature.resize(most, 0)?;
    let Ok(len) = signer.sign(body, &mut signature) else {
        unreachable!()
    };
    signature.truncate(len);
    Ok(Payload::from_vec(signature))
}

// The next signature on the statement's body, where one is left.
fn sign_statement<G: Signer>(
    alloc: Global,
    group: &GroupId,
    me: Pid,
    statement: &Statement<'_>,
    signer: &mut G,
) -> Result<Payload, NoMemory>
    requires range { IsStatement (stmt statement.now) }
    requires left { G.Tally.used signer.old < G.Tally.total signer.old }
    ensures made { IfOk result (λ own. own ≡ G.signature signer.old (G.Tally.used signer.old) (body group.now me (stmt statement.now))) }
    ensures short { IfOk result (λ own. length own ≤ 16384) }
    ensures used { OnOk result (G.Tally.used signer.new ≡ G.Tally.used signer.old + 1) }
    ensures rises { G.Tally.used signer.old ≤ G.Tally.used signer.new }
    ensures total { G.Tally.total signer.new ≡ G.Tally.total signer.old }
    ensures secret { G.signature signer.new ≡ G.signature signer.old }
    ensures key { G.public signer.new ≡ G.public signer.old }
{
    let mut room = [0; BODY_BYTES];
    let len = body_into(group, me, statement, &mut room);
    sign_body(alloc, &room[..len], signer)
}

/// The own claim of `me` on the statement, with the signature that comes next, where one is left.
pub fn make<G: Signer>(
    alloc: Global,
    group: &GroupId,
    me: Pid,
    statement: &Statement<'_>,
    signer: &mut G,
) -> Result<OwnClaim, NoMemory>
    requires range { IsStatement (stmt statement.now) }
    requires left { G.Tally.used signer.old < G.Tally.total signer.old }
    ensures made { IfOk result (λ own. signed own
        ≡ signed_by (spelling (stmt statement.now)) me
        (G.signature signer.old (G.Tally.used signer.old) (body group.now me (stmt statement.now)))) }
    ensures short { IfOk result (λ own. length own.signature ≤ 16384) }
    ensures used { IfOk result (λ _. G.Tally.used signer.new ≡ G.Tally.used signer.old + 1) }
    ensures rises { G.Tally.used signer.old ≤ G.Tally.used signer.new }
    ensures total { G.Tally.total signer.new ≡ G.Tally.total signer.old }
    ensures secret { G.signature signer.new ≡ G.signature signer.old }
    ensures key { G.public signer.new ≡ G.public signer.old }
{
    let bytes = spelled(alloc, statement)?;
    let signature = sign_statement(alloc, group, me, statement, signer)?;
    Ok(OwnClaim {
        signer: me,
        statement: bytes,
        signature,
    })
}
