//! The bytes of an input that wait, in room of a fixed size.
ghost use Rattle.std.specs.Prelude.{◌≡◌, ◌+◌, ◌-◌, ◌≤◌, ◌++◌, [], length, drop, vec_capacity, IfOk};
ghost use Rattle.replay_defs.specs.Pieces.{most_waiting};

use std::alloc::{AllocError, Global};
use std::marker::Model;
use std::mem;

/// How many bytes wait at most.
pub const WINDOW_BYTES: usize = 196_608;

/// Bytes that wait. Contracts see them as a list. Nothing but `new` takes memory.
pub struct Window {
    bytes: Vec<u8>,

    /// The bytes before this one wait no longer.
    start: usize,
}

// Written out, so that whoever drops a value makes one call (docs/CONTRIBUTING.md).
impl Drop for Window {
    fn drop(self) {
        let Window { bytes, start: _ } = self;
        mem::drop(bytes);
    }
}

impl Model for Window {
    ghost use Rattle.std.specs.Prelude.{ℕ, List, ◌≤◌, length, drop, vec_capacity};
    ghost use Rattle.replay_defs.specs.Pieces.{most_waiting};

    ghost Value = { List ℕ };

    ghost view = { λ w. drop w.start w.bytes.items };

    ghost invariant = { λ w. (w.start ≤ length w.bytes.items) × (length w.bytes.items ≤ most_waiting)
        × (most_waiting ≤ vec_capacity w.bytes) };
}

impl Window {
    /// No bytes, and the room for all that may wait.
    #[tactic(auto, unfolding(replay_defs::specs::Pieces::most_waiting))]
    pub fn new(alloc: Global) -> Result<Window, AllocError>
        ensures { IfOk result (λ w. w ≡ []) }
    {
        let bytes = Vec::with_capacity(alloc, WINDOW_BYTES)?;
        Ok(Window { bytes, start: 0 })
    }

    /// How many wait.
    pub fn len(&self) -> usize
        ensures { result ≡ length self.now }
    {
        self.bytes.len() - self.start
    }

    /// They all.
    pub fn bytes(&self) -> &[u8]
        ensures { result.now ≡ self.now }
    {
        let (_, waiting) = self.bytes.split_at(self.start);
        waiting
    }

    /// Lets a piece wait after them.
    pub fn push(&mut self, piece: &[u8])
        requires { length self.old + length piece.now ≤ most_waiting }
        ensures { self.new ≡ self.old ++ piece.now }
    {
        self.start = make_room(&mut self.bytes, self.start, piece.len());
        append(&mut self.bytes, piece);
    }

    /// Lets the first `count` wait no longer.
    pub fn skip(&mut self, count: usize)
        requires { count ≤ length self.old }
        ensures { self.new ≡ drop count self.old }
    {
        self.start += count;
    }

    /// Lets none wait.
    pub fn clear(&mut self)
        ensures { self.new ≡ [] }
    {
        self.start = self.bytes.len();
    }
}

// Moves the bytes from `start` on to the front where `more` have no room after them, and answers where they are then.
#[tactic(auto, unfolding(replay_defs::specs::Pieces::most_waiting))]
fn make_room(bytes: &mut Vec<u8>, start: usize, more: usize) -> usize
    requires within { start ≤ length bytes.old.items }
    requires full { length bytes.old.items ≤ most_waiting }
    requires fits { length bytes.old.items - start + more ≤ most_waiting }
    ensures kept { drop result bytes.new.items ≡ drop start bytes.old.items }
    ensures within { result ≤ length bytes.new.items }
    ensures room { length bytes.new.items + more ≤ most_waiting }
    ensures capacity { vec_capacity bytes.new ≡ vec_capacity bytes.old }
{
    if bytes.len() + more <= WINDOW_BYTES {
        return start;
    }
    remove_front(bytes, start);
    0
}

// Moves the bytes after the first `count` to the front.
fn remove_front(bytes: &mut Vec<u8>, count: usize)
    requires { count ≤ length bytes.old.items }
    ensures items { bytes.new.items ≡ drop count bytes.old.items }
    ensures capacity { vec_capacity bytes.new ≡ vec_capacity bytes.old }
{
    let len = bytes.len();
    bytes.as_mut_slice().copy_within(count..len, 0);
    bytes.truncate(len - count);
}

// Bytes for which there is room.
fn append(bytes: &mut Vec<u8>, piece: &[u8])
    requires { length bytes.old.items + length piece.now ≤ vec_capacity bytes.old }
    ensures items { bytes.new.items ≡ bytes.old.items ++ piece.now }
    ensures capacity { vec_capacity bytes.old ≤ vec_capacity bytes.new }
{
    let Ok(()) = bytes.extend_from_slice(piece) else {
        unreachable!();
    };
}
