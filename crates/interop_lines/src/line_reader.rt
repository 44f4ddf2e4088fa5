ghost use Rattle.std.specs.Prelude.{◌≡◌, ◌==◌, ◌<◌, ◌≤◌, ◌⊎◌, ◌++◌, ◌+◌, [], length, take, drop, IfErr, OnErr, OnOk, IsErrOf, IsNone, IfSome, List, ℕ};
ghost use Rattle.std.specs.List.{position};
ghost use Rattle.std.specs.Io.KnownBytes.{Consumes, IsAtEnd};
ghost use Rattle.rp_base.specs.Causes.{Rose};
ghost use Rattle.interop_lines.specs.Serving.{HasNoLine, IsLine, ended};
ghost use Rattle.interop_lines.specs.Reading.{HasFeed, ReadOn};

use crate::stops::Stop;
use rp_base::Source;
use std::alloc::{AllocError, Global};
use std::marker::Model;

/// The most bytes that a line may have before its line feed.
const LIMIT: usize = 1_000_000;

/// How many bytes are asked of a source at a time.
const PIECE: usize = 16_384;

/// The bytes that were read and not yet served. Contracts see them as their list.
#[derive(Drop)]
pub(crate) struct Ahead {
    read: Vec<u8>,

    // how many of those at the front were served
    served: usize,
}

impl Model for Ahead {
    ghost use Rattle.std.specs.Prelude.{◌≤◌, List, ℕ, drop, length};

    ghost Value = { List ℕ };

    ghost view = { λ a. drop a.served a.read.items };

    ghost invariant = { λ a. a.served ≤ length a.read.items };
}

impl Ahead {
    /// Nothing is read yet.
    pub(crate) fn new(alloc: Global) -> Ahead
        ensures { result ≡ [] }
    {
        Ahead {
            read: Vec::new(alloc),
            served: 0,
        }
    }

    /// The bytes.
    pub(crate) fn bytes(&self) -> &[u8]
        ensures { result.now ≡ self.now }
    {
        &self.read[self.served..]
    }

    /// Puts more bytes at the end. What was served goes first: the rest is moved for each piece that is read, and not for each line.
    fn push(&mut self, alloc: Global, more: &[u8]) -> Result<(), AllocError>
        ensures pushed { OnOk result (self.new ≡ self.old ++ more.now) }
    {
        if self.served > 0 {
            self.read = Vec::from_slice(alloc, self.bytes())?;
            self.served = 0;
        }
        self.read.extend_from_slice(more)
    }

    /// How many bytes the first line has before its line feed. None exactly where there is no line.
    pub(crate) fn line(&self) -> Option<usize>
        ensures line { IfSome result (λ end. IsLine (take end self.now)
            × (self.now ≡ ended (take end self.now) ++ drop (end + 1) self.now)) }
        ensures within { IfSome result (λ end. end < length self.now) }
        ensures none { IsNone result → HasNoLine self.now }
    {
        match first_feed(self.bytes()) {
            Some(end) if end <= LIMIT => Some(end),
            _ => None,
        }
    }

    /// Goes on after `count` bytes.
    pub(crate) fn skip(&mut self, count: usize)
        requires { count ≤ length self.old }
        ensures { self.new ≡ drop count self.old }
    {
        self.served += count;
    }
}

/// The place of the first line feed.
fn first_feed(bytes: &[u8]) -> Option<usize>
    ensures { result ≡ position (λ b. b == 10) bytes.now }
{
    bytes.iter().position(|b| *b == b'\n')
}

/// Reads on until a line feed is ahead, or more bytes than a line may have, or the input ends.
pub(crate) fn read_on<S: Source>(
    alloc: Global,
    input: &mut S,
    ahead: &mut Ahead,
) -> Result<(), Stop>
    ensures read { OnOk result (ReadOn (S.left input.old) (S.left input.new) ahead.old ahead.new) }
    ensures taken { OnErr result ((more : List ℕ) × Consumes (S.left input.old) (S.left input.new) more) }
    ensures enough { OnOk result (HasFeed ahead.new ⊎ (1000000 < length ahead.new) ⊎ IsAtEnd (S.left input.new)) }
    ensures steady { OnOk result (S.faults input.new ≡ S.faults input.old) }
    ensures failed { IsErrOf result Stop.Read → Rose (S.faults input.old) (S.faults input.new) }
    ensures only { IfErr result (λ stop. (stop ≡ Stop.Read) ⊎ (stop ≡ Stop.NoMemory)) }
{
    let mut piece = [0u8; PIECE];
    'pieces: while !ahead.bytes().contains(&b'\n') && ahead.bytes().len() <= LIMIT {
        let n = input.read(&mut piece)?;
        if n == 0 {
            return Ok(());
        }
        ahead.push(alloc, &piece[..n])?;
    }
    Ok(())
}
