ghost use Rattle.std.specs.Prelude.{◌≡◌};
ghost use Rattle.std.specs.Option.{option_map};
ghost use Rattle.message_defs.specs.Statements as plain;
ghost use Rattle.stmt_codec.specs.Views.{stmt, slot};
ghost use Rattle.rp_base.specs.Views.{update};
ghost use Rattle.claim_index.specs.Keys as keys;

use rp_base::{Pid, Update};
use stmt_codec::{Slot, Statement};

/// A kind and a slot of that kind, by their numbers: a Message has its sender first, an Update its tag, others 0.
#[derive(Clone, Copy, PartialEq, Eq, Hash)]
pub struct SlotKey {
    view: u16,
    first: u8,
    kind: u8,
    second: u16,
}

/// What a claim is found by: its signer and its slot.
#[derive(Clone, Copy, PartialEq, Eq, Hash)]
pub struct Key {
    slot: SlotKey,
    signer: Pid,
}

impl Key {
    /// The key of what the signer says on this slot.
    pub fn new(signer: Pid, slot: SlotKey) -> Key
        ensures { result ≡ record { signer = signer; slot = slot } }
    {
        Key { signer, slot }
    }

    /// Who signed.
    pub fn signer(&self) -> Pid
        ensures { result ≡ self.now.signer }
    {
        self.signer
    }
}

fn update_key(view: u16, of: Update) -> SlotKey
    ensures { result ≡ keys.update_key view (update of) }
{
    let (first, second) = match of {
        Update::Remove(p) => (1, p.get() as u16),
        Update::Add(p) => (2, p.get() as u16),
        Update::Renew => (3, 0),
    };
    SlotKey {
        kind: 6,
        first,
        view,
        second,
    }
}

// The key of a slot that has one number besides its view.
fn numbered(kind: u8, view: u16, second: u16) -> SlotKey
    ensures { result ≡ keys.numbers kind view 0 second }
{
    SlotKey {
        kind,
        first: 0,
        view,
        second,
    }
}

/// The key of this slot of this kind; None exactly where the kind has no such slots.
pub fn slot_key_at(kind: u8, about: &Slot) -> Option<SlotKey>
    ensures { result ≡ option_map keys.slot_key (slot kind about.now) }
{
    match *about {
        Slot::Number { view, number } if kind == 1 => Some(numbered(1, view, number)),
        Slot::Message {
            view,
            sender,
            number,
        } if kind == 2 => Some(SlotKey {
            kind: 2,
            first: sender.get(),
            view,
            second: number,
        }),
        Slot::Place { view, place } if kind >= 3 && kind <= 5 => Some(numbered(kind, view, place)),
        Slot::Update { view, update } if kind == 6 => Some(update_key(view, update)),
        Slot::View { view } if kind == 7 => Some(numbered(7, view, 0)),
        Slot::Rank { view, rank } if kind >= 8 && kind <= 11 => {
            Some(numbered(kind, view, rank as u16))
        }
        _ => None,
    }
}

/// The key of the statement's slot.
pub fn slot_key_of(statement: &Statement<'_>) -> SlotKey
    ensures { result ≡ keys.slot_key (plain.slot_of (stmt statement.now)) }
{
    match *statement {
        Statement::Init { view, number, .. } => numbered(1, view, number),
        Statement::Echo {
            view,
            sender,
            number,
            ..
        } => SlotKey {
            kind: 2,
            first: sender.get(),
            view,
            second: number,
        },
        Statement::Order { view, place, .. } => numbered(3, view, place),
        Statement::Place { view, place, .. } => numbered(4, view, place),
        Statement::Keep { view, place, .. } => numbered(5, view, place),
        Statement::Notify { view, update } => update_key(view, update),
        Statement::End { view, .. } => numbered(7, view, 0),
        Statement::Last { view, rank, .. } => numbered(8, view, rank as u16),
        Statement::Suggest { view, rank, .. } => numbered(9, view, rank as u16),
        Statement::Ack { view, rank, .. } => numbered(10, view, rank as u16),
        Statement::Ready { view, rank, .. } => numbered(11, view, rank as u16),
    }
}
