ghost use Rattle.std.specs.Prelude.{◌≡◌, ◌==◌, ◌⊎◌, ◌<◌, ◌≤◌, ◌++◌, ℕ, List, true, false, [], length, drop, option_map, take, IfErr, IfOk, IsErrOf, OnErr, OnOk};
ghost use Rattle.std.specs.List.{position};
ghost use Rattle.std.specs.Io.KnownBytes.{IsAtEnd, Keeps};
ghost use Rattle.rp_base.specs.Causes.{Rose};
ghost use Rattle.line_input.specs.Taking.{Answered, HasFeed, ReadOn, Takes, TakesBytes};

use crate::faults::InputFault;
use rp_base::Source;
use std::alloc::Global;
use std::marker::Model;

/// How many bytes are asked of a source at a time.
const PIECE: usize = 16_384;

/// What is there in place of a further line, or that one is.
#[derive(Clone, Copy, Debug, PartialEq, Eq)]
pub enum Next {
    /// A line was taken: [`Lines::line`] lends it.
    Line,

    /// The bytes that come next are no line: there are more of them than a line may have before the first line feed, or the input ends in
    /// them. They are not taken.
    Broken,

    /// The input has ended.
    End,
}

/// The lines of an input, which are taken one after another. It reads ahead in pieces, so one value is to serve an input from its first
/// line to its last. Contracts see the line that was taken last, and the bytes that were read and not yet taken.
#[derive(Drop)]
pub struct Lines {
    read: Vec<u8>,

    // the line that was taken last is here among the bytes read
    begin: usize,
    end: usize,

    // the first byte that was not yet taken
    next: usize,
}

impl Model for Lines {
    ghost use Rattle.std.specs.Prelude.{◌≤◌, drop, length, slice_range};
    ghost use Rattle.line_input.specs.Taking.{Taken};

    ghost Value = { Taken };

    ghost view = { λ l. record { line = slice_range l.read.items l.begin l.end; ahead = drop l.next l.read.items } };

    ghost invariant = { λ l. (l.begin ≤ l.end) × (l.end ≤ l.next) × (l.next ≤ length l.read.items) };
}

// The place of the first line feed.
fn first_feed(bytes: &[u8]) -> Option<usize>
    ensures { result ≡ position (λ b. b == 10) bytes.now }
{
    bytes.iter().position(|b| *b == b'\n')
}

impl Lines {
    /// The lines of an input that was not read yet. It takes no memory before the first read.
    pub fn new(alloc: Global) -> Lines
        ensures { result ≡ record { line = []; ahead = [] } }
    {
        Lines {
            read: Vec::new(alloc),
            begin: 0,
            end: 0,
            next: 0,
        }
    }

    /// The line that was taken last, without its line feed.
    pub fn line(&self) -> &[u8]
        ensures { result.now ≡ self.now.line }
    {
        &self.read[self.begin..self.end]
    }

    // The bytes that were read and not yet taken.
    fn ahead(&self) -> &[u8]
        ensures { result.now ≡ self.now.ahead }
    {
        &self.read[self.next..]
    }

    // Moves what is ahead to the front, for each piece that is read and not for each line. Where nothing was taken it is there: so the pieces
    // of a long line are not moved again and again.
    fn drop_taken(&mut self)
        ensures { self.new.ahead ≡ self.old.ahead }
    {
        if self.next == 0 {
            return;
        }
        let left = self.read.len() - self.next;
        self.read.copy_within(self.next.., 0);
        self.read.truncate(left);
        self.begin = 0;
        self.end = 0;
        self.next = 0;
    }

    // Reads a piece, and answers whether there was one. Nothing is lost by a fault.
    fn read_piece<S: Source>(&mut self, input: &mut S) -> Result<bool, InputFault>
        ensures read { ReadOn (S.left input.old) (S.left input.new) self.old.ahead self.new.ahead }
        ensures more { IfOk result (λ some. (some ≡ true → length self.old.ahead < length self.new.ahead)
            × (some ≡ false → (self.new.ahead ≡ self.old.ahead) × IsAtEnd (S.left input.new))) }
        ensures failed { IsErrOf result InputFault.Read → Rose (S.faults input.old) (S.faults input.new) }
        ensures steady { IsErrOf result InputFault.Read ⊎ (S.faults input.new ≡ S.faults input.old) }
    {
        self.drop_taken();
        self.read.reserve(PIECE)?;
        let mut piece = [0u8; PIECE];
        let n = input.read(&mut piece)?;
        let Ok(()) = self.read.extend_from_slice(&piece[..n]) else {
            unreachable!();
        };
        Ok(n > 0)
    }

    // Whether a line feed is ahead from this place on, or more bytes than a line may have.
    fn is_enough(&self, most: usize, from: usize) -> bool
        requires { from ≤ length self.now.ahead }
        ensures enough { result ≡ true → HasFeed self.now.ahead ⊎ (most < length self.now.ahead) }
        ensures little { result ≡ false → length self.now.ahead ≤ most }
    {
        let ahead = self.ahead();
        ahead.len() > most || ahead[from..].contains(&b'\n')
    }

    // Reads on until a line feed is ahead, or more bytes than a line may have, or the input ends.
    fn read_on<S: Source>(&mut self, input: &mut S, most: usize) -> Result<(), InputFault>
        ensures read { ReadOn (S.left input.old) (S.left input.new) self.old.ahead self.new.ahead }
        ensures enough { OnOk result (HasFeed self.new.ahead ⊎ (most < length self.new.ahead) ⊎ IsAtEnd (S.left input.new)) }
        ensures failed { IsErrOf result InputFault.Read → Rose (S.faults input.old) (S.faults input.new) }
        ensures steady { IsErrOf result InputFault.Read ⊎ (S.faults input.new ≡ S.faults input.old) }
    {
        // Up to here no line feed is ahead: each byte is looked at once.
        let mut looked = 0;
        'pieces: while !self.is_enough(most, looked) {
            looked = self.ahead().len();
            if !self.read_piece(input)? {
                return Ok(());
            }
        }
        Ok(())
    }

    // Takes the line that is ahead.
    fn take(&mut self, most: usize) -> Next
        ensures { Takes most self.old.ahead self.new result }
    {
        let ahead = self.ahead();
        match first_feed(ahead) {
            Some(end) if end <= most => {
                self.begin = self.next;
                self.end = self.next + end;
                self.next = self.end + 1;
                Next::Line
            }
            None if ahead.is_empty() => Next::End,
            _ => Next::Broken,
        }
    }

    /// Takes the next line of the input, which has at most `most` bytes before its line feed. It is to be called with the same source each
    /// time.
    ///
    /// # Errors
    /// [`InputFault::Read`] only where a read failed; [`InputFault::NoMemory`]. What was read is kept ahead.
    pub fn read<S: Source>(&mut self, input: &mut S, most: usize) -> Result<Next, InputFault>
        ensures answers { IfOk result (Answered most (S.left input.old) (S.left input.new) self.old.ahead self.new) }
        ensures kept { OnErr result (ReadOn (S.left input.old) (S.left input.new) self.old.ahead self.new.ahead) }
        ensures failed { IsErrOf result InputFault.Read → Rose (S.faults input.old) (S.faults input.new) }
        ensures steady { IsErrOf result InputFault.Read ⊎ (S.faults input.new ≡ S.faults input.old) }
    {
        self.read_on(input, most)?;
        Ok(self.take(most))
    }

    // Whether bytes are ahead, where need be after a further piece was read: else the input has ended.
    fn has_more<S: Source>(&mut self, input: &mut S) -> Result<bool, InputFault>
        ensures read { ReadOn (S.left input.old) (S.left input.new) self.old.ahead self.new.ahead }
        ensures more { IfOk result (λ some. (some ≡ true → 0 < length self.new.ahead)
            × (some ≡ false → (self.new.ahead ≡ []) × IsAtEnd (S.left input.new))) }
        ensures failed { IsErrOf result InputFault.Read → Rose (S.faults input.old) (S.faults input.new) }
        ensures steady { IsErrOf result InputFault.Read ⊎ (S.faults input.new ≡ S.faults input.old) }
    {
        if self.ahead().is_empty() {
            self.read_piece(input)
        } else {
            Ok(true)
        }
    }

    // Takes what is ahead, but at most `most` bytes, and appends it.
    fn take_into(&mut self, most: usize, bytes: &mut Vec<u8>) -> Result<(), InputFault>
        ensures took { OnOk result ((bytes.new.items ≡ bytes.old.items ++ take most self.old.ahead)
            × (self.new.ahead ≡ drop most self.old.ahead)) }
        ensures kept { OnErr result (self.new.ahead ≡ self.old.ahead) }
        ensures only { IfErr result (λ fault. fault ≡ InputFault.NoMemory) }
    {
        let ahead = self.ahead();
        let count = ahead.len().min(most);
        bytes.extend_from_slice(&ahead[..count])?;
        self.next += count;
        Ok(())
    }

    /// Takes the next `count` bytes of the input, which may be any: where the input ends before, None, and all that came is taken. The
    /// vector grows with what comes, and not with `count`. It is to be called with the same source as [`Lines::read`].
    ///
    /// # Errors
    /// [`InputFault::Read`] only where a read failed; [`InputFault::NoMemory`]. Some of the bytes are taken then.
    pub fn read_bytes<S: Source>(
        &mut self,
        alloc: Global,
        input: &mut S,
        count: usize,
    ) -> Result<Option<Vec<u8>>, InputFault>
        ensures takes { IfOk result (λ found. TakesBytes count (S.left input.old) (S.left input.new) self.old.ahead self.new.ahead
            (option_map (λ bytes. bytes.items) found)) }
        ensures some { OnErr result ((taken : List ℕ) × ReadOn (S.left input.old) (S.left input.new) self.old.ahead (taken ++ self.new.ahead)) }
        ensures failed { IsErrOf result InputFault.Read → Rose (S.faults input.old) (S.faults input.new) }
        ensures steady { IsErrOf result InputFault.Read ⊎ (S.faults input.new ≡ S.faults input.old) }
    {
        let mut bytes = Vec::new(alloc);
        'pieces: while bytes.len() < count {
            if !self.has_more(input)? {
                return Ok(None);
            }
            self.take_into(count - bytes.len(), &mut bytes)?;
        }
        Ok(Some(bytes))
    }
}
