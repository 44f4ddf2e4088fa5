//! The notes of a turn.
ghost use Rattle.std.specs.Prelude.{◌≡◌, ◌∷◌, [], ℕ, List, OnOk, OnErr};
ghost use Rattle.group_defs.specs.Process.{Process};
ghost use Rattle.node_defs.specs.Casts.{Cast};
ghost use Rattle.node_service.specs.Words.{IsHosted};
ghost use Rattle.node_service.specs.Lines.{GoesOn};
ghost use Rattle.node_traces.specs.Outside.{LinkSeen};
ghost use Rattle.node_traces.specs.Service.{Asked, HeardBy};
ghost use Rattle.letting_laws.specs.Letting.{edge, HasBegun, LetOut};
ghost use Rattle.node_turns.specs.Letters.{ReportsNotes, tells_of};

use member_events::Note;
use node_service::{AnySigner, Hosted, Service, push_note};
use rp_base::{NoMemory, Pid};

// The line of a note, and after it what the service says of it.
fn tell_note<V: Service>(
    process: &Hosted<AnySigner>,
    me: Pid,
    note: &Note,
    text: &mut Vec<u8>,
    service: &mut V,
) -> Result<(), NoMemory>
    ensures reported { (c : Cast) (at : ℕ → Process) (link : LinkSeen) (h : List Asked) → V.heard service.old h → IsHosted c me (at me) process.now
        → OnOk result (HeardBy V.heard service.new (λ i. LetOut c at (tells_of me (note.now ∷ []))
        (edge link text.old.items [] h) (edge link text.new.items [] i))) }
    ensures begun { (c : Cast) (at : ℕ → Process) (link : LinkSeen) (h : List Asked) → V.heard service.old h → IsHosted c me (at me) process.now
        → OnErr result (HeardBy V.heard service.new (λ i. HasBegun c at (tells_of me (note.now ∷ [])) link h link i)) }
    ensures grows { GoesOn text.old.items text.new.items }
{
    push_note(text, me, note)?;
    service.noted(process, note, text)
}

// The same of each of the notes, as far as memory lasts.
fn tell_each<V: Service>(
    process: &Hosted<AnySigner>,
    me: Pid,
    notes: &[Note],
    text: &mut Vec<u8>,
    service: &mut V,
) -> Result<(), NoMemory>
    ensures reported { (c : Cast) (at : ℕ → Process) (link : LinkSeen) (h : List Asked) → V.heard service.old h → IsHosted c me (at me) process.now
        → OnOk result (HeardBy V.heard service.new (λ i. LetOut c at (tells_of me notes.now)
        (edge link text.old.items [] h) (edge link text.new.items [] i))) }
    ensures begun { (c : Cast) (at : ℕ → Process) (link : LinkSeen) (h : List Asked) → V.heard service.old h → IsHosted c me (at me) process.now
        → OnErr result (HeardBy V.heard service.new (λ i. HasBegun c at (tells_of me notes.now) link h link i)) }
    ensures grows { GoesOn text.old.items text.new.items }
{
    'notes: for note in notes {
        tell_note(process, me, note, text, service)?;
    }
    Ok(())
}

// The same, and after them these lines, as far as memory lasts.
fn tell_all<V: Service>(
    process: &Hosted<AnySigner>,
    me: Pid,
    notes: &[Note],
    late: &[u8],
    text: &mut Vec<u8>,
    service: &mut V,
) -> Result<(), NoMemory>
    ensures reported { (c : Cast) (at : ℕ → Process) (h : List Asked) → V.heard service.old h → IsHosted c me (at me) process.now
        → OnOk result (HeardBy V.heard service.new (λ i. ReportsNotes c at me notes.now h i text.old.items late.now text.new.items)) }
    ensures begun { (c : Cast) (at : ℕ → Process) (link : LinkSeen) (h : List Asked) → V.heard service.old h → IsHosted c me (at me) process.now
        → OnErr result (HeardBy V.heard service.new (λ i. HasBegun c at (tells_of me notes.now) link h link i)) }
    ensures grows { GoesOn text.old.items text.new.items }
{
    tell_each(process, me, notes, text, service)?;
    text.extend_from_slice(late)?;
    Ok(())
}

/// Appends the line of each note of this process, in order and each followed by what the service says of it, and after them these lines. The
/// process has taken the turn that let the notes out.
///
/// # Errors
/// `NoMemory`; nothing is appended then.
pub(crate) fn tell_notes<V: Service>(
    process: &Hosted<AnySigner>,
    me: Pid,
    notes: &[Note],
    late: &[u8],
    text: &mut Vec<u8>,
    service: &mut V,
) -> Result<(), NoMemory>
    ensures reported { (c : Cast) (at : ℕ → Process) (h : List Asked) → V.heard service.old h → IsHosted c me (at me) process.now
        → OnOk result (HeardBy V.heard service.new (λ i. ReportsNotes c at me notes.now h i text.old.items late.now text.new.items)) }
    ensures begun { (c : Cast) (at : ℕ → Process) (link : LinkSeen) (h : List Asked) → V.heard service.old h → IsHosted c me (at me) process.now
        → OnErr result (HeardBy V.heard service.new (λ i. HasBegun c at (tells_of me notes.now) link h link i)) }
    ensures unchanged { OnErr result (text.new.items ≡ text.old.items) }
{
    let start = text.as_slice().len();
    match tell_all(process, me, notes, late, text, service) {
        Ok(()) => Ok(()),
        Err(refused) => {
            text.truncate(start);
            Err(refused)
        }
    }
}
