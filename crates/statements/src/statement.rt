ghost use Rattle.std.specs.Prelude.{◌≡◌, ◌≢◌, ◌↔◌, IsTrue, Some};
ghost use Rattle.message_defs.specs.Statements.{kind_number};
ghost use Rattle.message_defs.specs.Statements as plain;
ghost use Rattle.statements.specs.Views.{stmt, slot};

use crate::batch::Batch;
use rp_base::{Pid, Update, Value};

/// What a process says: one of eleven kinds. A payload lies in the frame or in the bytes that the statement was read
/// from.
///
/// In range (docs/FORMATS.md, «Statements») are view numbers, message numbers and the places of Order, Place and Keep
/// up to 1,023, the length of End and a value's cut up to 1,024, ranks up to 15, payloads of at most 1,024 bytes, and
/// in a Last a rank of the Ready below the Last's own.
#[derive(Clone, Copy, PartialEq, Eq)]
pub enum Statement<'a> {
    /// The sender's own message of this number.
    Init {
        view: u16,
        number: u16,
        payload: &'a [u8],
    },

    /// The sender's message of this number was heard with this payload.
    Echo {
        view: u16,
        sender: Pid,
        number: u16,
        payload: &'a [u8],
    },

    /// The manager gives the place to the batch.
    Order {
        view: u16,
        place: u16,
        batch: Batch,
    },

    /// The place was ordered so.
    Place {
        view: u16,
        place: u16,
        batch: Batch,
    },

    /// The place is certified so, with all before it.
    Keep {
        view: u16,
        place: u16,
        batch: Batch,
    },

    /// The update was perceived.
    Notify {
        view: u16,
        update: Update,
    },

    /// `length` places are certified, and no more are placed in this view.
    End {
        view: u16,
        length: u16,
    },

    /// The last Ready that was signed below this rank, with its rank, or none.
    Last {
        view: u16,
        rank: u8,
        ready: Option<(u8, Value)>,
    },

    /// The member of this rank proposes the value.
    Suggest {
        view: u16,
        rank: u8,
        value: Value,
    },

    /// The value that was suggested at this rank is justified.
    Ack {
        view: u16,
        rank: u8,
        value: Value,
    },

    /// The value is certified by Acks of this rank.
    Ready {
        view: u16,
        rank: u8,
        value: Value,
    },
}

/// What a statement of a kind is about. Of each kind and slot a correct process signs one statement at most.
#[derive(Clone, Copy, PartialEq, Eq)]
pub enum Slot {
    /// Of an Init.
    Number { view: u16, number: u16 },

    /// Of an Echo.
    Message { view: u16, sender: Pid, number: u16 },

    /// Of an Order, a Place or a Keep.
    Place { view: u16, place: u16 },

    /// Of a Notify.
    Update { view: u16, update: Update },

    /// Of an End.
    View { view: u16 },

    /// Of a Last, a Suggest, an Ack or a Ready.
    Rank { view: u16, rank: u8 },
}

/// A statement that a process signed.
#[derive(Clone, Copy)]
pub struct Claim<'a> {
    /// Who signed.
    pub signer: Pid,

    /// What was signed.
    pub statement: Statement<'a>,

    /// At most 16,384 bytes, valid or not.
    pub signature: &'a [u8],
}

impl Statement<'_> {
    /// The kind's number, from 1 for Init to 11 for Ready (docs/FORMATS.md, «Statements»).
    pub fn kind(&self) -> u8
        ensures { result ≡ kind_number (stmt self.now) }
    {
        match self {
            Statement::Init { .. } => 1,
            Statement::Echo { .. } => 2,
            Statement::Order { .. } => 3,
            Statement::Place { .. } => 4,
            Statement::Keep { .. } => 5,
            Statement::Notify { .. } => 6,
            Statement::End { .. } => 7,
            Statement::Last { .. } => 8,
            Statement::Suggest { .. } => 9,
            Statement::Ack { .. } => 10,
            Statement::Ready { .. } => 11,
        }
    }

    /// The number of the view that the statement belongs to.
    pub fn view(&self) -> u16
        ensures { result ≡ plain.view_of (stmt self.now) }
    {
        match *self {
            Statement::Init { view, .. }
            | Statement::Echo { view, .. }
            | Statement::Order { view, .. }
            | Statement::Place { view, .. }
            | Statement::Keep { view, .. }
            | Statement::Notify { view, .. }
            | Statement::End { view, .. }
            | Statement::Last { view, .. }
            | Statement::Suggest { view, .. }
            | Statement::Ack { view, .. }
            | Statement::Ready { view, .. } => view,
        }
    }
}

/// The statement's slot. With the kind it says what a correct process signs once.
pub fn slot_of(statement: &Statement<'_>) -> Slot
    ensures { slot (kind_number (stmt statement.now)) result ≡ Some (plain.slot_of (stmt statement.now)) }
{
    match *statement {
        Statement::Init { view, number, .. } => Slot::Number { view, number },
        Statement::Echo {
            view,
            sender,
            number,
            ..
        } => Slot::Message {
            view,
            sender,
            number,
        },
        Statement::Order { view, place, .. }
        | Statement::Place { view, place, .. }
        | Statement::Keep { view, place, .. } => Slot::Place { view, place },
        Statement::Notify { view, update } => Slot::Update { view, update },
        Statement::End { view, .. } => Slot::View { view },
        Statement::Last { view, rank, .. }
        | Statement::Suggest { view, rank, .. }
        | Statement::Ack { view, rank, .. }
        | Statement::Ready { view, rank, .. } => Slot::Rank { view, rank },
    }
}

/// Whether kind and slot are equal.
pub fn is_same_slot(a: &Statement<'_>, b: &Statement<'_>) -> bool
    ensures { IsTrue result ↔ (plain.slot_of (stmt a.now) ≡ plain.slot_of (stmt b.now)) }
{
    a.kind() == b.kind() && slot_of(a) == slot_of(b)
}

fn is_same(a: &Statement<'_>, b: &Statement<'_>) -> bool
    ensures { IsTrue result ↔ (stmt a.now ≡ stmt b.now) }
{
    a == b
}

/// Whether a correct process makes only one of them: kind and slot are equal and contents differ.
pub fn conflicts(a: &Statement<'_>, b: &Statement<'_>) -> bool
    ensures { IsTrue result ↔ (plain.slot_of (stmt a.now) ≡ plain.slot_of (stmt b.now)) × (stmt a.now ≢ stmt b.now) }
{
    is_same_slot(a, b) && !is_same(a, b)
}
