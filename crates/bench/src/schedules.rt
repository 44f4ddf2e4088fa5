//! Reads schedules in pieces again and again, to be timed from outside. The words are what the pieces are full of, and how many pieces
//! there are: `submits` of 1,024 bytes each, `ticks`, or `copy`, which reads nothing and copies the pieces of `submits` twice, as far as
//! the reader does.
ghost use Rattle.replay_defs.specs.Pieces.{most_waiting};

use anyhow::{Error, anyhow};
use schedule_pieces::{ScheduleFault, ScheduleReader, WINDOW_BYTES};
use std::alloc::{AllocError, Global};

/// The pieces after which a new schedule begins, so that neither its bytes nor its steps pass their limits.
const PIECES: u32 = 30;

// Process 0 alone, with a plain key.
fn header(alloc: Global) -> Result<Vec<u8>, AllocError> {
    let mut bytes = Vec::new(alloc);
    bytes.extend_from_slice(b"RPS1\x00")?;
    bytes.extend_from_slice(&[0; 16])?;
    bytes.extend_from_slice(&[1, 0, 0])?;
    bytes.extend_from_slice(&[0; 32])?;
    bytes.extend_from_slice(&[0, 1, 0x86, 0xa0, 1, 0])?;
    Ok(bytes)
}

// `count` events of these bytes, one after the other.
fn piece(alloc: Global, event: &[u8], count: u32) -> Result<Vec<u8>, AllocError> {
    let mut bytes = Vec::new(alloc);
    for _ in 0..count {
        bytes.extend_from_slice(event)?;
    }
    Ok(bytes)
}

// A Submit of 1,024 bytes.
fn submit(alloc: Global) -> Result<Vec<u8>, AllocError> {
    let mut bytes = Vec::new(alloc);
    bytes.extend_from_slice(&[1, 0, 4, 0])?;
    bytes.extend_from_slice(&[7; 1024])?;
    Ok(bytes)
}

// Feeds a piece, where it has room.
#[tactic(auto, unfolding(replay_defs::specs::Pieces::most_waiting))]
fn feed(reader: &mut ScheduleReader, piece: &[u8]) {
    if piece.len() <= WINDOW_BYTES && reader.waiting() + piece.len() <= WINDOW_BYTES {
        reader.feed(piece);
    }
}

// How many events are whole; each of them is dropped.
fn read_events(reader: &mut ScheduleReader) -> Result<u32, ScheduleFault> {
    for read in 0..WINDOW_BYTES as u32 {
        if reader.next()?.is_none() {
            return Ok(read);
        }
    }
    Ok(0)
}

fn reader(alloc: Global) -> Result<ScheduleReader, Error> {
    match ScheduleReader::new(alloc) {
        Ok(reader) => Ok(reader),
        Err(_) => Err(anyhow!("no room for a reader")),
    }
}

// How many events `pieces` pieces have.
fn read_pieces(alloc: Global, piece: &[u8], pieces: u32) -> Result<u32, Error> {
    let mut read = 0u32;
    let mut input = reader(alloc)?;
    for number in 0..pieces {
        if number % PIECES == 0 {
            input = reader(alloc)?;
            feed(&mut input, &header(alloc)?);
        }
        feed(&mut input, piece);
        read = read.wrapping_add(read_events(&mut input)?);
    }
    Ok(read)
}

// Copies a piece, and then in parts of this size, as often as that; how many parts there are.
fn copy_pieces(alloc: Global, piece: &[u8], part: usize, pieces: u32) -> Result<u32, Error> {
    let mut copied = 0u32;
    let mut window = Vec::with_capacity(alloc, WINDOW_BYTES)?;
    for _ in 0..pieces {
        window.clear();
        window.extend_from_slice(piece)?;
        for bytes in window.chunks(part.max(1)) {
            let own = bytes.to_vec(alloc)?;
            if own.first() == piece.first() {
                copied = copied.wrapping_add(1);
            }
        }
    }
    Ok(copied)
}

fn tell(rt: &(impl Print + AllocGlobal), what: &str, pieces: u32) -> Result<(), Error> {
    let alloc = rt.alloc();
    let submits = piece(alloc, &submit(alloc)?, 63)?;
    let events = match what {
        "submits" => read_pieces(alloc, &submits, pieces)?,
        "ticks" => read_pieces(alloc, &piece(alloc, &[9, 0], 32_768)?, pieces)?,
        "copy" => copy_pieces(alloc, &submits, 1028, pieces)?,
        _ => return Err(anyhow!("the pieces are full of submits, ticks or copy")),
    };
    println!(rt; "{events} events in {pieces} pieces")?;
    Ok(())
}

/// Reads 30 pieces of Submits.
pub(crate) fn once(rt: &(impl Print + AllocGlobal)) -> Result<(), Error> {
    tell(rt, "submits", 30)
}

/// Reads or copies pieces as the words say.
pub(crate) fn read(rt: &(impl Print + AllocGlobal), words: &[String]) -> Result<(), Error> {
    let pieces = words.get(1).and_then(|word| word.parse().ok());
    match (words.first(), pieces) {
        (Some(what), Some(pieces)) => tell(rt, what.as_str(), pieces),
        _ => Err(anyhow!("the words are what the pieces are full of, and their number")),
    }
}
