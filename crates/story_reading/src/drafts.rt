//! Lines, one after another.
ghost use Rattle.std.specs.Prelude.{◌≡◌, ◌++◌, ◌∷◌, [], length, OnOk, IfOk};
ghost use Rattle.byte_defs.specs.Reads.{Makes};
ghost use Rattle.story_defs.specs.Stories as plain;
ghost use Rattle.story_lines.specs.Cursors.{left};
ghost use Rattle.story_lines.specs.Faults.{expected_of};
ghost use Rattle.story_reading.specs.Views.{addition, draft};

use replay_defs::Scheme;
use rp_base::NoMemory;
use std::alloc::{AllocError, Global};
use story_defs::{Mark, Stage};
use story_events::{event, kind_of_word};
use story_headers::{genesis, group, listed};
use story_lines::{Expected, LineFault, Words, plain_line};

/// The most processes of a schedule.
const PROCESSES: u8 = 64;

/// What a line adds to those so far.
#[derive(Drop)]
pub enum Addition {
    /// The line is blank.
    Nothing,

    /// The scheme, and the bytes up to the group's name.
    Group(Scheme, Vec<u8>),

    /// The bytes of a process.
    Process(Vec<u8>),

    /// The bytes of the members of the first view.
    Genesis(Vec<u8>),

    /// The bytes of an event of this kind.
    Event(Expected, Vec<u8>),
}

/// What was read of a story so far.
#[derive(Drop)]
pub struct Draft {
    /// Which lines may follow.
    pub stage: Stage,
    pub scheme: Scheme,

    /// The bytes up to the group's name.
    pub front: Vec<u8>,

    /// How many processes are listed.
    pub count: u8,

    /// The bytes after that number.
    pub behind: Vec<u8>,

    /// The lines that these bytes are of.
    pub marks: Vec<Mark>,
}

// What may follow, where there is no such line.
pub fn wanted(stage: Stage) -> Expected
    ensures { result ≡ plain.wanted stage }
{
    match stage {
        Stage::Opening => Expected::Group,
        Stage::Listing => Expected::Genesis,
        Stage::Running => Expected::Event,
    }
}

fn event_of_word(alloc: Global, word: &[u8], words: &mut Words<'_>) -> Result<Addition, LineFault>
    ensures { Makes expected_of addition result (plain.event_of_word word.now (left words.old)) }
{
    let kind = kind_of_word(word).ok_or(LineFault::Expected(Expected::Event))?;
    Ok(Addition::Event(kind, event(alloc, kind, words)?))
}

fn group_of_word(alloc: Global, word: &[u8], words: &mut Words<'_>) -> Result<Addition, LineFault>
    ensures { Makes expected_of addition result (plain.group_of_word word.now (left words.old)) }
{
    if word != b"group".as_slice() {
        return Err(LineFault::Expected(Expected::Group));
    }
    let (scheme, bytes) = group(alloc, words)?;
    Ok(Addition::Group(scheme, bytes))
}

impl Draft {
    /// Nothing was read yet.
    pub fn new(alloc: Global) -> Draft
        ensures { draft result ≡ plain.no_lines }
    {
        Draft {
            stage: Stage::Opening,
            scheme: Scheme::Plain,
            front: Vec::new(alloc),
            count: 0,
            behind: Vec::new(alloc),
            marks: Vec::new(alloc),
        }
    }

    // A process; there are at most 64.
    fn listed(&self, alloc: Global, words: &mut Words<'_>) -> Result<Addition, LineFault>
        ensures { Makes expected_of addition result (plain.listed_by (draft self.now) (left words.old)) }
    {
        if self.count >= PROCESSES {
            return Err(LineFault::Expected(Expected::Genesis));
        }
        Ok(Addition::Process(listed(alloc, self.scheme, words)?))
    }

    // The first view, after at least one process.
    fn genesis(&self, alloc: Global, words: &mut Words<'_>) -> Result<Addition, LineFault>
        ensures { Makes expected_of addition result (plain.genesis_by (draft self.now) (left words.old)) }
    {
        if self.count == 0 {
            return Err(LineFault::Expected(Expected::Process));
        }
        Ok(Addition::Genesis(genesis(alloc, words)?))
    }

    // A process or the first view, by the first word of a line.
    fn listing(
        &self,
        alloc: Global,
        word: &[u8],
        words: &mut Words<'_>,
    ) -> Result<Addition, LineFault>
        ensures { Makes expected_of addition result (plain.listing_of_word (draft self.now) word.now (left words.old)) }
    {
        if word == b"process".as_slice() {
            self.listed(alloc, words)
        } else if word == b"genesis".as_slice() {
            self.genesis(alloc, words)
        } else {
            Err(LineFault::Expected(Expected::Genesis))
        }
    }

    // By the first word of a line.
    fn said_by_word(
        &self,
        alloc: Global,
        word: &[u8],
        words: &mut Words<'_>,
    ) -> Result<Addition, LineFault>
        ensures { Makes expected_of addition result (plain.said_by_word (draft self.now) word.now (left words.old) self.now.stage) }
    {
        match self.stage {
            Stage::Opening => group_of_word(alloc, word, words),
            Stage::Listing => self.listing(alloc, word, words),
            Stage::Running => event_of_word(alloc, word, words),
        }
    }

    // What a plain line adds.
    #[tactic(auto, unfolding(story_defs::specs::Stories::said_by_plain))]
    fn said_by_plain(&self, alloc: Global, line: &[u8]) -> Result<Addition, LineFault>
        ensures { Makes expected_of addition result (plain.said_by_plain (draft self.now) line.now) }
    {
        if line.is_empty() {
            return Ok(Addition::Nothing);
        }
        let mut words = Words::new(line);
        let word = words.next_word(wanted(self.stage))?;
        self.said_by_word(alloc, word, &mut words)
    }

    /// What a line adds, which is given without its line feed.
    #[tactic(auto, unfolding(story_defs::specs::Stories::said_by))]
    pub fn said_by(&self, alloc: Global, line: &[u8]) -> Result<Addition, LineFault>
        ensures { Makes expected_of addition result (plain.said_by (draft self.now) line.now) }
    {
        let reported = plain_line(alloc, line)?;
        self.said_by_plain(alloc, &reported)
    }

    // Bytes after those so far, of the line of this number.
    fn push(
        &mut self,
        line: usize,
        expected: Expected,
        size: usize,
        bytes: &[u8],
    ) -> Result<(), NoMemory>
        ensures { OnOk result (draft self.new ≡ plain.pushed line (draft self.old) expected size bytes.now) }
    {
        self.marks.push(Mark {
            line,
            expected,
            size,
        })?;
        self.behind.extend_from_slice(bytes)?;
        Ok(())
    }

    // How many bytes the line of a process gives: the number of processes belongs to the first of them.
    fn listed_size(&self, bytes: &Vec<u8>) -> usize
        ensures { result ≡ plain.listed_size (draft self.now) bytes.now.items }
    {
        if self.count == 0 {
            bytes.len() + 1
        } else {
            bytes.len()
        }
    }

    /// Puts what the line of this number adds after the lines so far.
    pub fn add(&mut self, line: usize, added: Addition) -> Result<(), NoMemory>
        requires { plain.CanAdd (draft self.old) (addition added) }
        ensures { OnOk result (draft self.new ≡ plain.added line (draft self.old) (addition added)) }
    {
        match added {
            Addition::Nothing => Ok(()),
            Addition::Group(scheme, bytes) => {
                self.stage = Stage::Listing;
                self.scheme = scheme;
                self.marks.push(Mark {
                    line,
                    expected: Expected::Group,
                    size: bytes.len(),
                })?;
                self.front = bytes;
                self.count = 0;
                self.behind.clear();
                Ok(())
            }
            Addition::Process(bytes) => {
                let size = self.listed_size(&bytes);
                self.push(line, Expected::Process, size, &bytes)?;
                self.count += 1;
                Ok(())
            }
            Addition::Genesis(bytes) => {
                self.stage = Stage::Running;
                self.push(line, Expected::Genesis, bytes.len(), &bytes)
            }
            Addition::Event(kind, bytes) => self.push(line, kind, bytes.len(), &bytes),
        }
    }

    /// The bytes of the lines.
    pub fn bytes(&self, alloc: Global) -> Result<Vec<u8>, AllocError>
        ensures { IfOk result (λ bytes. bytes.items ≡ plain.draft_bytes (draft self.now)) }
    {
        let mut bytes = self.front.as_slice().to_vec(alloc)?;
        bytes.push(self.count)?;
        bytes.extend_from_slice(&self.behind)?;
        Ok(bytes)
    }
}
