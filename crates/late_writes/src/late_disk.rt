ghost use Rattle.std.specs.Prelude.{◌≡◌, IsErr};
ghost use Rattle.rp_base.specs.Causes.{HasCause};

use file_disk::FileDisk;
use rp_base::{Disk, Failed};
use std::alloc::Global;
use std::rt::Files;

// A piece that is to be written at a place.
#[derive(Drop)]
struct Held {
    at: u64,
    piece: Vec<u8>,
}

/// A file of the system's, to which a write goes only when the next call but a sync comes. What it holds back is lost where the program is
/// killed, though a sync has said that it is kept. It doesn't say what it holds, so no clause of a disk forbids that.
#[derive(Drop)]
pub(crate) struct LateDisk<'a, R: Files> {
    alloc: Global,
    file: FileDisk<'a, R>,
    held: Option<Held>,
    faults: u64,
}

impl<'a, R: Files> LateDisk<'a, R> {
    /// Nothing is opened yet, and nothing held back.
    pub(crate) fn new(alloc: Global, rt: &'a R, path: &'a str) -> LateDisk<'a, R>
        ensures { result.faults ≡ 0 }
    {
        LateDisk {
            alloc,
            file: FileDisk::new(rt, path),
            held: None,
            faults: 0,
        }
    }

    // What the file answered.
    fn answered<T: Drop>(&mut self, answer: Result<T, Failed>) -> Result<T, Failed>
        ensures same { result ≡ answer }
        ensures cause { HasCause self.old.faults self.new.faults result }
    {
        if answer.is_err() {
            self.faults = self.faults.saturating_add(1);
        }
        answer
    }

    // Writes what is held back.
    fn let_go(&mut self) -> Result<(), Failed>
        ensures { HasCause self.old.faults self.new.faults result }
    {
        match self.held.take() {
            Some(Held { at, piece }) => {
                let answer = self.file.write_at(at, &piece);
                self.answered(answer)
            }
            None => Ok(()),
        }
    }

    // Holds a piece back.
    fn hold(&mut self, at: u64, piece: &[u8]) -> Result<(), Failed>
        ensures { HasCause self.old.faults self.new.faults result }
    {
        match piece.to_vec(self.alloc) {
            Ok(piece) => {
                self.held = Some(Held { at, piece });
                Ok(())
            }
            Err(_) => self.answered(Err(Failed)),
        }
    }
}

impl<'a, R: Files> Disk for LateDisk<'a, R> {
    ghost use Rattle.file_disk.specs.Disks.{untold, any_bytes, any_since};

    ghost seen = { λ d. untold };

    ghost may_leave = { λ d. any_bytes };

    ghost moment = { λ d. 0 };

    ghost left_since = { λ d. any_since };

    ghost faults = { λ d. d.faults };

    ghost reads_image = { λ d. tt };

    ghost counts_now = { λ d t c le now. now };

    ghost only_now = { λ d c left. left };

    #[tactic(auto, using(file_disk::proofs::Untold::same_images, file_disk::proofs::Untold::elapses))]
    fn len(&mut self) -> Result<u64, Failed> {
        self.let_go()?;
        let answer = self.file.len();
        self.answered(answer)
    }

    #[tactic(auto, using(file_disk::proofs::Untold::same_images, file_disk::proofs::Untold::elapses))]
    fn read_at(&mut self, at: u64, into: &mut [u8]) -> Result<(), Failed> {
        self.let_go()?;
        let answer = self.file.read_at(at, into);
        self.answered(answer)
    }

    #[tactic(auto, using(file_disk::proofs::Untold::torn_from_any, file_disk::proofs::Untold::elapses))]
    fn write_at(&mut self, at: u64, piece: &[u8]) -> Result<(), Failed> {
        self.let_go()?;
        self.hold(at, piece)
    }

    #[tactic(auto, using(file_disk::proofs::Untold::no_new_image, file_disk::proofs::Untold::elapses))]
    fn sync(&mut self) -> Result<(), Failed> {
        Ok(())
    }
}
