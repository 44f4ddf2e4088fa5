use crate::limits::MOST_MESSAGES;
use rp_base::Pid;
use std::fmt;
use std::fmt::{Debug, Formatter, Write};
use std::marker::Model;

/// What a place holds: 1 to 16 messages, in the order in which they are delivered, each as its sender and its number
/// among the sender's messages of the view. Contracts see the list of them.
#[derive(Clone, Copy)]
pub struct Batch {
    len: u8,
    // those after the first `len` are of process 0 and number 0, so that equal batches have equal fields
    messages: [(Pid, u16); 16],
}

impl Model for Batch {
    ghost use Rattle.std.specs.Prelude.{map, take, length};
    ghost use Rattle.message_defs.specs.Statements as plain;
    ghost use Rattle.statements.specs.Batches.{IsKept, filled, filled_again, message_of, pair_of};

    ghost Value = { plain.Batch };

    ghost view = { λ b. map message_of (take b.len b.messages) };

    ghost invariant = { λ b. IsKept b.len b.messages };

    ghost inverse = { λ ms. record { messages = filled (map pair_of ms); len = length ms } };

    ghost inverse_ok = { λ b kept. λ i. record {
      messages = (filled_again b.len b.messages kept).0 i;
      len = (filled_again b.len b.messages kept).1 i;
    } };
}

/// Two batches are equal where they have the same messages in the same order.
impl PartialEq for Batch {
    ghost use Rattle.std.specs.Cmp.{partial_equiv_from_equiv};
    ghost use Rattle.statements.specs.Batches.{same_batch, batch_equiv};

    ghost eq = { same_batch };

    ghost laws = { partial_equiv_from_equiv batch_equiv };

    fn eq(&self, other: &Batch) -> bool {
        self.messages() == other.messages()
    }
}

impl Eq for Batch {
    ghost use Rattle.statements.specs.Batches.{batch_equiv};

    ghost laws = { batch_equiv };
}

impl Debug for Batch {
    fn fmt<W: Write>(&self, f: &mut Formatter<W>) -> fmt::Result {
        self.messages().fmt(f)
    }
}

impl Batch {
    ghost use Rattle.std.specs.Prelude.{◌≡◌, ◌++◌, ◌∷◌, [], ◌≤◌, ◌<◌, ◌==◌, length, map};
    ghost use Rattle.statements.specs.Batches.{message, message_of};

    /// The batch of this one message.
    pub fn of(sender: Pid, number: u16) -> Batch
        ensures { result ≡ message sender number ∷ [] }
    {
        let mut messages = [(Pid::default(), 0); 16];
        messages[0] = (sender, number);
        Batch { messages, len: 1 }
    }

    /// How many messages it has, 1 to 16.
    pub fn len(&self) -> usize
        ensures count { result ≡ length self.now }
        ensures some { 1 ≤ result }
        ensures few { result ≤ 16 }
    {
        self.len as usize
    }

    /// Whether it has 16 messages.
    pub fn is_full(&self) -> bool
        ensures { result ≡ (length self.now == 16) }
    {
        self.len == MOST_MESSAGES
    }

    /// Puts the message after the others.
    pub fn push(&mut self, sender: Pid, number: u16)
        requires { length self.old < 16 }
        ensures { self.new ≡ self.old ++ message sender number ∷ [] }
    {
        self.messages[self.len as usize] = (sender, number);
        self.len += 1;
    }

    /// The 1 to 16 messages, each as its sender and its number.
    pub fn messages(&self) -> &[(Pid, u16)]
        ensures list { map message_of result.now ≡ self.now }
        ensures some { 1 ≤ length result.now }
        ensures few { length result.now ≤ 16 }
    {
        &self.messages[..self.len as usize]
    }
}
