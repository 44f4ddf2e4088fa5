//! An entry as a journal takes it in: its length, the entry, and the next gate, closed.
ghost use Rattle.std.specs.Prelude.{◌≡◌, ◌+◌, ◌-◌, ◌^◌, ◌<◌, ◌≤◌, ◌++◌, ◌∷◌, [], length, drop, IfOk, OnOk};
ghost use Rattle.std.specs.List.{flat_map};
ghost use Rattle.byte_defs.specs.Fields.{four_bytes, text};
ghost use Rattle.journal_defs.specs.Entries as plain;
ghost use Rattle.journal_defs.specs.Entries.{IsEntry, AreSignatures, IsEvent, entry_bytes, event_bytes, signatures_bytes};
ghost use Rattle.journal_defs.specs.Crashes.{staged};
ghost use Rattle.journal_entries.specs.Views.{event as event_of, turn_entry, signatures_of};

use member_events::{Event, Outcome, OwnClaim};
use rp_base::{NoMemory, Pid};
use std::alloc::Global;

const SUBMIT: u8 = 1;

const FRAME: u8 = 2;

const SUSPECT: u8 = 6;

const JOIN: u8 = 7;

const RENEW: u8 = 8;

const TICK: u8 = 9;

const CLOSED: u8 = 0;

const LENGTH_BYTES: usize = 4;

// Two bytes of length, and the bytes.
fn push_text(out: &mut Vec<u8>, bytes: &[u8]) -> Result<(), NoMemory>
    requires { length bytes.now < 2 ^ 16 }
    ensures { OnOk result (out.new.items ≡ out.old.items ++ text bytes.now) }
{
    out.extend_from_slice(&(bytes.len() as u16).to_be_bytes())?;
    out.extend_from_slice(bytes)?;
    Ok(())
}

// A byte, and another.
fn push_two(out: &mut Vec<u8>, first: u8, second: u8) -> Result<(), NoMemory>
    ensures { OnOk result (out.new.items ≡ out.old.items ++ first ∷ second ∷ []) }
{
    out.extend_from_slice(&[first, second])?;
    Ok(())
}

fn push_submit(out: &mut Vec<u8>, payload: &[u8]) -> Result<(), NoMemory>
    requires { length payload.now < 2 ^ 16 }
    ensures { OnOk result (out.new.items ≡ out.old.items ++ event_bytes (plain.Submit payload.now)) }
{
    out.push(SUBMIT)?;
    push_text(out, payload)
}

fn push_frame(out: &mut Vec<u8>, from: Pid, bytes: &[u8]) -> Result<(), NoMemory>
    requires { length bytes.now < 2 ^ 16 }
    ensures { OnOk result (out.new.items ≡ out.old.items ++ event_bytes (plain.Frame from bytes.now)) }
{
    push_two(out, FRAME, from.get())?;
    push_text(out, bytes)
}

fn push_byte(out: &mut Vec<u8>, byte: u8) -> Result<(), NoMemory>
    ensures { OnOk result (out.new.items ≡ out.old.items ++ byte ∷ []) }
{
    out.push(byte)?;
    Ok(())
}

fn push_event(out: &mut Vec<u8>, event: &Event<'_>) -> Result<(), NoMemory>
    requires { IsEvent (event_of event.now) }
    ensures { OnOk result (out.new.items ≡ out.old.items ++ event_bytes (event_of event.now)) }
{
    match *event {
        Event::Submit(payload) => push_submit(out, payload),
        Event::Frame { from, bytes } => push_frame(out, from, bytes),
        Event::Suspect(process) => push_two(out, SUSPECT, process.get()),
        Event::Join(process) => push_two(out, JOIN, process.get()),
        Event::Renew => push_byte(out, RENEW),
        Event::Tick => push_byte(out, TICK),
    }
}

// The signatures of claims, each after its length.
fn push_each(out: &mut Vec<u8>, claims: &[OwnClaim]) -> Result<(), NoMemory>
    requires { AreSignatures (signatures_of claims.now) }
    ensures { OnOk result (out.new.items ≡ out.old.items ++ flat_map text (signatures_of claims.now)) }
{
    'claims: for claim in claims {
        push_text(out, claim.signature.bytes())?;
    }
    Ok(())
}

fn push_signatures(out: &mut Vec<u8>, claims: &[OwnClaim]) -> Result<(), NoMemory>
    requires count { length (signatures_of claims.now) < 2 ^ 16 }
    requires each { AreSignatures (signatures_of claims.now) }
    ensures { OnOk result (out.new.items ≡ out.old.items ++ signatures_bytes (signatures_of claims.now)) }
{
    out.extend_from_slice(&(claims.len() as u16).to_be_bytes())?;
    push_each(out, claims)
}

fn push_entry(
    out: &mut Vec<u8>,
    me: Pid,
    event: &Event<'_>,
    outcome: &Outcome,
) -> Result<(), NoMemory>
    requires { IsEntry (turn_entry me (event_of event.now) outcome.now) }
    ensures { OnOk result (out.new.items ≡ out.old.items ++ entry_bytes (turn_entry me (event_of event.now) outcome.now)) }
{
    out.push(me.get())?;
    push_event(out, event)?;
    out.push(u8::from(outcome.spent))?;
    push_signatures(out, &outcome.signed)
}

// These bytes over the first ones.
fn put_front(out: &mut [u8], bytes: &[u8])
    requires { length bytes.now ≤ length out.old }
    ensures { out.new ≡ bytes.now ++ drop (length bytes.now) out.old }
{
    out[..bytes.len()].copy_from_slice(bytes);
}

// The length of what follows the first four bytes, in them.
fn put_length(out: &mut [u8])
    requires room { 4 ≤ length out.old }
    requires fits { length out.old < 4 + 2 ^ 32 }
    ensures { out.new ≡ four_bytes (length out.old - 4) ++ drop 4 out.old }
{
    let len = (out.len() - LENGTH_BYTES) as u32;
    put_front(out, &len.to_be_bytes());
}

/// What a journal takes in of a turn, in which a process took the event with this outcome: the entry's length, the entry,
/// and the next gate, closed.
#[tactic(auto, unfolding(journal_defs::specs::Journals::behind_gate), using(journal_defs::proofs::Entering::entry_len))]
pub fn staged_entry(
    alloc: Global,
    me: Pid,
    event: &Event<'_>,
    outcome: &Outcome,
) -> Result<Vec<u8>, NoMemory>
    requires { IsEntry (turn_entry me (event_of event.now) outcome.now) }
    ensures { IfOk result (λ bytes. bytes.items ≡ staged (turn_entry me (event_of event.now) outcome.now)) }
{
    let mut out = vec![in alloc; 0u8; LENGTH_BYTES]?;
    push_entry(&mut out, me, event, outcome)?;
    put_length(out.as_mut_slice());
    out.push(CLOSED)?;
    Ok(out)
}
