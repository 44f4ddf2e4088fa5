//! Notes of the process.
ghost use Rattle.std.specs.Prelude.{◌≡◌, ◌⊎◌, ◌↔◌, ◌++◌, IsTrue, OnOk, OnErr};
ghost use Rattle.group_defs.specs.Events.{Installs};
ghost use Rattle.store_defs.specs.Serving as plain;
ghost use Rattle.store_defs.specs.Serving.{Place, after_note};
ghost use Rattle.store_defs.specs.Services.{noted_text};
ghost use Rattle.store_server.specs.Notes.{CanInstall, CanTake, note_of};
ghost use Rattle.store_server.specs.Serving.{IsServer};
ghost use Rattle.view_table.specs.Views.{as_view};

use crate::server::Server;
use member_events::Note;
use std::alloc::Global;
use store_giving::View;
use store_replies::{NoMemory, Pid};

impl Server {
    // Whether the view of this number with these members is one, and comes after the one before it.
    fn can_install(&self, number: u16, members: &[Pid]) -> bool
        ensures { IsTrue result ↔ CanInstall self.now number members.now }
    {
        View::new(number, members).is_some() && self.giving.view_number() < number
    }

    /// Whether the server can take a note: a message that is delivered has its fields in the ranges of a reply, view and place to 1,023,
    /// position at its place to 15, payload to 1,024 bytes; a view that is installed is one, and has a greater number than the one before.
    pub fn can_take(&self, note: &Note) -> bool
        ensures { IsTrue result ↔ CanTake self.now note.now }
    {
        match note {
            Note::Delivered {
                view,
                place,
                sender: _,
                number: _,
                payload,
            } => self.replies.fits(*view, *place, payload.bytes()),
            Note::Installed { view, members } => self.can_install(*view, members),
            Note::Liar(_) | Note::Spent | Note::Halted { .. } => true,
        }
    }

    // The process is in the view of this number now, with these members.
    #[tactic(auto, unfolding(store_defs::specs::Serving::after_note))]
    fn install(&mut self, alloc: Global, number: u16, members: &[Pid]) -> Result<(), NoMemory>
        requires { CanInstall self.old number members.now }
        ensures after { (q : Place) (s : plain.Server) → IsServer q s self.old
            → OnOk result (IsServer q (after_note q s (Installs (as_view number members.now))) self.new) }
        ensures unchanged { (q : Place) (s : plain.Server) → IsServer q s self.old → OnErr result (IsServer q s self.new) }
    {
        let Some(view) = View::new(number, members) else {
            unreachable!();
        };
        let is_member = view.is_member(self.replies.me());
        let store = self.replies.kept(is_member);
        self.giving.begin_view(alloc, view, store)?;
        self.replies.begin_view(is_member);
        Ok(())
    }

    /// Takes a note of the process, and appends the line of the reply where it is of a message that was delivered; of other notes nothing
    /// is written.
    ///
    /// # Errors
    /// [`NoMemory`] where room for the store, for what is signed or for the line is refused. Nothing is appended then; either nothing has
    /// changed, or the message is taken, its reply is lost, and nothing else is signed with its leaf.
    #[tactic(auto, unfolding(store_defs::specs::Serving::after_note, store_defs::specs::Serving::reported_of, store_defs::specs::Words::reported_text,))]
    pub fn note(&mut self, alloc: Global, note: &Note, out: &mut Vec<u8>) -> Result<(), NoMemory>
        requires takes { CanTake self.old note.now }
        ensures after { (q : Place) (s : plain.Server) → IsServer q s self.old
            → OnOk result (IsServer q (after_note q s (note_of note.now)) self.new) }
        ensures reported { (q : Place) (s : plain.Server) → IsServer q s self.old
            → OnOk result (out.new.items ≡ out.old.items ++ noted_text q s (note_of note.now)) }
        ensures untold { OnErr result (out.new.items ≡ out.old.items) }
        ensures lost { (q : Place) (s : plain.Server) → IsServer q s self.old
            → OnErr result (IsServer q s self.new ⊎ IsServer q (after_note q s (note_of note.now)) self.new) }
    {
        match note {
            Note::Delivered {
                view,
                place,
                sender: _,
                number: _,
                payload,
            } => self
                .replies
                .deliver(alloc, *view, *place, payload.bytes(), out),
            Note::Installed { view, members } => self.install(alloc, *view, members),
            Note::Liar(_) | Note::Spent | Note::Halted { .. } => Ok(()),
        }
    }
}
