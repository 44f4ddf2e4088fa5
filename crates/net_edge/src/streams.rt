ghost use Rattle.std.specs.Prelude.{◌≡◌, ◌≤◌, IsErr, IfOk};
ghost use Rattle.rp_base.specs.Causes.{Rose};
ghost use Rattle.net_edge.specs.Streams.{faults_read, faults_written};

use rp_base::{Failed, Sink, Source};
use std::io::{ErrorKind, Read, Stderr, Stdin, Stdout, Write};

/// Counts one fault more.
fn fail(faults: &mut u64) -> Result<usize, Failed>
    ensures err { IsErr result }
    ensures rose { Rose faults.old faults.new }
    ensures later { faults.old ≤ faults.new }
{
    *faults = faults.saturating_add(1);
    Err(Failed)
}

/// A reader of the system's as a source: what it reads is passed on as it comes. A call that a signal interrupts is made
/// again, since it took nothing; each other error counts as one fault.
#[derive(Drop)]
pub struct Reading<R> {
    reader: R,
    faults: u64,
}

/// Standard input.
pub type StdSource = Reading<Stdin>;

impl Reading<Stdin> {
    /// Nothing is read yet.
    pub fn new(rt: &HostRuntime) -> StdSource
        ensures { faults_read result ≡ 0 }
    {
        Reading {
            reader: rt.stdin(),
            faults: 0,
        }
    }
}

impl<R: Read> Source for Reading<R> {
    ghost left = { λ s. R.remaining s.reader };

    ghost faults = { λ s. s.faults };

    fn read(&mut self, into: &mut [u8]) -> Result<usize, Failed> {
        for _ in 0..u64::MAX {
            match self.reader.read(into) {
                Ok(given) => return Ok(given),
                Err(e) if e.kind() == ErrorKind::Interrupted => {}
                Err(_) => break,
            }
        }
        fail(&mut self.faults)
    }
}

/// A writer of the system's as a sink: what it takes is written. A call that a signal interrupts is made again, since
/// it took nothing; each other error counts as one fault, and so does a writer that takes nothing of a piece.
#[derive(Drop)]
pub struct Writing<W> {
    writer: W,
    faults: u64,
}

/// Standard output, with no buffer before it.
pub type StdSink = Writing<Stdout>;

impl Writing<Stdout> {
    /// Nothing is written yet.
    pub fn new(rt: &HostRuntime) -> StdSink
        ensures { faults_written result ≡ 0 }
    {
        Writing {
            writer: rt.stdout(),
            faults: 0,
        }
    }
}

/// Standard error.
pub type StdErrors = Writing<Stderr>;

impl Writing<Stderr> {
    /// Nothing is written yet.
    pub fn new(rt: &HostRuntime) -> StdErrors
        ensures { faults_written result ≡ 0 }
    {
        Writing {
            writer: rt.stderr(),
            faults: 0,
        }
    }
}

impl<W: Write> Sink for Writing<W> {
    ghost written = { λ s. W.contents s.writer };

    ghost faults = { λ s. s.faults };

    fn write(&mut self, piece: &[u8]) -> Result<usize, Failed> {
        for _ in 0..u64::MAX {
            match self.writer.write(piece) {
                Ok(0) if !piece.is_empty() => break,
                Ok(taken) => return Ok(taken),
                Err(e) if e.kind() == ErrorKind::Interrupted => {}
                Err(_) => break,
            }
        }
        fail(&mut self.faults)
    }
}

#[cfg(test)]
mod tests {
    use super::*;
    use std::io;

    /// Interrupted, then ready for one byte, then failing, again and again.
    #[derive(Drop)]
    struct Line {
        turn: u8,
    }

    impl Line {
        fn turn(&mut self, room: usize) -> io::Result<usize>
            ensures { IfOk result (λ n. n ≤ room) }
        {
            self.turn = (self.turn % 3) + 1;
            match self.turn {
                1 => Err(io::Error::from(ErrorKind::Interrupted)),
                2 => Ok(room.min(1)),
                _ => Err(io::Error::from(ErrorKind::BrokenPipe)),
            }
        }
    }

    impl Read for Line {
        fn read(&mut self, buf: &mut [u8]) -> io::Result<usize> {
            self.turn(buf.len())
        }
    }

    impl Write for Line {
        fn write(&mut self, buf: &[u8]) -> io::Result<usize> {
            self.turn(buf.len())
        }

        fn flush(&mut self) -> io::Result<()> {
            Ok(())
        }
    }

    #[test]
    fn an_interrupted_call_is_made_again(rt: HostRuntime) {
        let mut source = Reading {
            reader: Line { turn: 0 },
            faults: 0,
        };
        for (read, faults) in [(Ok(1), 0), (Err(Failed), 1)] {
            assert_eq!(rt; source.read(&mut [0; 8]), read);
            assert_eq!(rt; source.faults, faults);
        }
        let mut sink = Writing {
            writer: Line { turn: 0 },
            faults: 0,
        };
        assert_eq!(rt; sink.write(b"ab"), Ok(1));
        assert_eq!(rt; sink.write(b"b"), Err(Failed));
        assert_eq!(rt; sink.faults, 1);
    }

    #[test]
    fn a_writer_that_takes_nothing_fails(rt: HostRuntime) {
        let mut room = [0u8; 1];
        let mut full = Writing {
            writer: room.as_mut_slice(),
            faults: 0,
        };
        assert_eq!(rt; full.write(b"ab"), Ok(1));
        assert_eq!(rt; full.write(b"b"), Err(Failed));
        assert_eq!(rt; full.faults, 1);
    }
}
