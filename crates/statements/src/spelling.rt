//! Statements spelled in bytes, and the body that is signed. The layout is that of `read_statement`; a body is
//!
//! | Field | Bytes |
//! |---|---|
//! | the letters `RPB1` | 4 |
//! | group | 16 |
//! | signer | 1 |
//! | statement | 5 to 1,032 |
ghost use Rattle.std.specs.Prelude.{◌≡◌, ◌+◌, ◌*◌, ◌++◌, ◌∷◌, ◌≤◌, [], codes, flat_map, length, map, take};
ghost use Rattle.byte_defs.specs.Fields.{two_bytes};
ghost use Rattle.message_defs.specs.Spelling.{IsStatement, IsClaim, spelling, body, batch_bytes, place_kind, value_bytes};
ghost use Rattle.message_defs.specs.Spelling.{message_bytes as plain_bytes};
ghost use Rattle.message_defs.specs.Updates.{update_numbers};
ghost use Rattle.message_defs.specs.Statements as plain;
ghost use Rattle.rp_base.specs.Views as base;
ghost use Rattle.statements.specs.Batches.{message, message_of};
ghost use Rattle.statements.specs.Views.{stmt, report, claim as claim_of};

use crate::batch::Batch;
use crate::statement::{Claim, Statement};
use rp_base::{GroupId, Pid, Update, Value};

// The bytes at the front of `out`, and how many they are.
fn put(out: &mut [u8], bytes: &[u8]) -> usize
    requires { length bytes.now ≤ length out.old }
    ensures front { take result out.new ≡ bytes.now }
    ensures count { result ≡ length bytes.now }
{
    out[..bytes.len()].copy_from_slice(bytes);
    bytes.len()
}

fn put_both(out: &mut [u8], head: &[u8], payload: &[u8]) -> usize
    requires { length head.now + length payload.now ≤ length out.old }
    ensures front { take result out.new ≡ head.now ++ payload.now }
    ensures count { result ≡ length head.now + length payload.now }
{
    let end = head.len() + payload.len();
    out[..head.len()].copy_from_slice(head);
    out[head.len()..end].copy_from_slice(payload);
    end
}

fn update_bytes(update: Update) -> [u8; 2]
    ensures { result ≡ update_numbers (base.update update) }
{
    match update {
        Update::Remove(p) => [1, p.get()],
        Update::Add(p) => [2, p.get()],
        Update::Renew => [3, 0],
    }
}

fn spell_init(view: u16, number: u16, payload: &[u8], out: &mut [u8]) -> usize
    requires room { 1032 ≤ length out.old }
    requires short { length payload.now ≤ 1024 }
    ensures spelled { take result out.new ≡ spelling (plain.Init view number payload.now) }
    ensures within { result ≤ 1032 }
{
    let [a, b] = view.to_be_bytes();
    let [c, d] = number.to_be_bytes();
    let [m, n] = (payload.len() as u16).to_be_bytes();
    put_both(out, &[1, a, b, c, d, m, n], payload)
}

fn spell_echo(view: u16, sender: Pid, number: u16, payload: &[u8], out: &mut [u8]) -> usize
    requires room { 1032 ≤ length out.old }
    requires short { length payload.now ≤ 1024 }
    ensures spelled { take result out.new ≡ spelling (plain.Echo view (message sender number) payload.now) }
    ensures within { result ≤ 1032 }
{
    let [a, b] = view.to_be_bytes();
    let [c, d] = number.to_be_bytes();
    let [m, n] = (payload.len() as u16).to_be_bytes();
    put_both(out, &[2, a, b, sender.get(), c, d, m, n], payload)
}

fn message_bytes(sender: Pid, number: u16) -> [u8; 3]
    ensures { result ≡ plain_bytes (message sender number) }
{
    let [a, b] = number.to_be_bytes();
    [sender.get(), a, b]
}

// The messages at the front of `out`, and how many bytes they have.
fn put_messages(messages: &[(Pid, u16)], out: &mut [u8]) -> usize
    requires few { length messages.now ≤ 16 }
    requires room { 48 ≤ length out.old }
    ensures front { take result out.new ≡ flat_map plain_bytes (map message_of messages.now) }
    ensures count { result ≡ 3 * length messages.now }
{
    let mut end = 0;
    'messages: for (sender, number) in messages {
        out[end..end + 3].copy_from_slice(&message_bytes(*sender, *number));
        end += 3;
    }
    end
}

// One message follows the place at once; several follow their number, after a kind byte that is nine more.
fn spell_placed(kind: u8, view: u16, place: u16, batch: &Batch, out: &mut [u8]) -> usize
    requires room { 1032 ≤ length out.old }
    requires small { kind ≤ 5 }
    ensures spelled { take result out.new ≡ place_kind kind batch.now ∷ (two_bytes view ++ two_bytes place ++ batch_bytes batch.now) }
    ensures within { result ≤ 54 }
{
    let [a, b] = view.to_be_bytes();
    let [c, d] = place.to_be_bytes();
    let messages = batch.messages();
    if messages.len() == 1 {
        put(out, &[kind, a, b, c, d]);
        return 5 + put_messages(messages, &mut out[5..]);
    }
    put(out, &[kind + 9, a, b, c, d, messages.len() as u8]);
    6 + put_messages(messages, &mut out[6..])
}

fn notify_bytes(view: u16, update: Update) -> [u8; 5]
    ensures { result ≡ spelling (plain.Notify view (base.update update)) }
{
    let [a, b] = view.to_be_bytes();
    let [tag, process] = update_bytes(update);
    [6, a, b, tag, process]
}

fn end_bytes(view: u16, length: u16) -> [u8; 5]
    ensures { result ≡ spelling (plain.End view length) }
{
    let [a, b] = view.to_be_bytes();
    let [c, d] = length.to_be_bytes();
    [7, a, b, c, d]
}

fn ranked_bytes(kind: u8, view: u16, rank: u8, value: Value) -> [u8; 8]
    ensures { result ≡ kind ∷ (two_bytes view ++ rank ∷ value_bytes (base.value value)) }
{
    let [a, b] = view.to_be_bytes();
    let [tag, process] = update_bytes(value.update);
    let [c, d] = value.cut.to_be_bytes();
    [kind, a, b, rank, tag, process, c, d]
}

fn spell_last(view: u16, rank: u8, ready: Option<(u8, Value)>, out: &mut [u8]) -> usize
    requires { 1032 ≤ length out.old }
    ensures spelled { take result out.new ≡ spelling (plain.Last view rank (report ready)) }
    ensures within { result ≤ 1032 }
{
    let [a, b] = view.to_be_bytes();
    let Some((ready_rank, value)) = ready else {
        return put(out, &[8, a, b, rank, 0]);
    };
    let [tag, process] = update_bytes(value.update);
    let [c, d] = value.cut.to_be_bytes();
    put(out, &[8, a, b, rank, 1, ready_rank, tag, process, c, d])
}

#[tactic(auto, using(crate::proofs::Spelled::one_length, crate::proofs::Spelled::several_length))]
fn placed_len(batch: &Batch) -> usize
    ensures count { result ≡ 5 + length (batch_bytes batch.now) }
    ensures within { result ≤ 54 }
{
    let messages = batch.len();
    if messages == 1 { 8 } else { 6 + 3 * messages }
}

/// How many bytes the statement has, 5 to 1,032.
pub fn spelled_len(statement: &Statement<'_>) -> usize
    requires { IsStatement (stmt statement.now) }
    ensures count { result ≡ length (spelling (stmt statement.now)) }
    ensures within { result ≤ 1032 }
{
    match *statement {
        Statement::Init { payload, .. } => 7 + payload.len(),
        Statement::Echo { payload, .. } => 8 + payload.len(),
        Statement::Order { batch, .. }
        | Statement::Place { batch, .. }
        | Statement::Keep { batch, .. } => placed_len(&batch),
        Statement::Notify { .. } | Statement::End { .. } => 5,
        Statement::Last { ready: None, .. } => 5,
        Statement::Last { ready: Some(_), .. } => 10,
        Statement::Suggest { .. } | Statement::Ack { .. } | Statement::Ready { .. } => 8,
    }
}

/// How many bytes the claim's statement and signature have.
pub fn claim_len(claim: &Claim<'_>) -> usize
    requires { IsClaim (claim_of claim.now) }
    ensures { result ≡ length (spelling (stmt claim.now.statement)) + length claim.now.signature.now }
{
    spelled_len(&claim.statement) + claim.signature.len()
}

/// Writes the statement's bytes at the front of `out`, and answers how many they are, 5 to 1,032.
pub fn spell_into(statement: &Statement<'_>, out: &mut [u8]) -> usize
    requires room { 1032 ≤ length out.old }
    requires range { IsStatement (stmt statement.now) }
    ensures spelled { take result out.new ≡ spelling (stmt statement.now) }
    ensures within { result ≤ 1032 }
{
    match *statement {
        Statement::Init {
            view,
            number,
            payload,
        } => spell_init(view, number, payload, out),
        Statement::Echo {
            view,
            sender,
            number,
            payload,
        } => spell_echo(view, sender, number, payload, out),
        Statement::Order { view, place, batch }
        | Statement::Place { view, place, batch }
        | Statement::Keep { view, place, batch } => {
            spell_placed(statement.kind(), view, place, &batch, out)
        }
        Statement::Notify { view, update } => put(out, &notify_bytes(view, update)),
        Statement::End { view, length } => put(out, &end_bytes(view, length)),
        Statement::Last { view, rank, ready } => spell_last(view, rank, ready, out),
        Statement::Suggest { view, rank, value }
        | Statement::Ack { view, rank, value }
        | Statement::Ready { view, rank, value } => {
            put(out, &ranked_bytes(statement.kind(), view, rank, value))
        }
    }
}

fn head_into(group: &GroupId, signer: Pid, out: &mut [u8])
    requires { length out.old ≡ 21 }
    ensures { out.new ≡ codes "RPB1" ++ group.now ++ signer ∷ [] }
{
    let (letters, rest) = out.split_at_mut(4);
    letters.copy_from_slice(b"RPB1");
    let (name, rest) = rest.split_at_mut(16);
    name.copy_from_slice(group.bytes());
    rest[0] = signer.get();
}

/// Writes the body that is signed at the front of `out`, and answers how many bytes it has, at most 1,053.
pub fn body_into(group: &GroupId, signer: Pid, statement: &Statement<'_>, out: &mut [u8]) -> usize
    requires room { 1100 ≤ length out.old }
    requires range { IsStatement (stmt statement.now) }
    ensures body { take result out.new ≡ body group.now signer (stmt statement.now) }
    ensures within { result ≤ 1053 }
{
    let (head, rest) = out.split_at_mut(21);
    head_into(group, signer, head);
    21 + spell_into(statement, rest)
}
