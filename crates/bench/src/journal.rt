//! The time of a journal in a real file: of a turn that is taken in, beside two bare writes of the same sizes that are synced,
//! and of reading 100,000 entries, beside reading their bytes. The files lie where the program runs.
use anyhow::{Result, anyhow};
use file_disk::FileDisk;
use journal_rp::{Header, Journal, Journalled, Reading, Turn, Unsynced, Writing};
use member_events::{Event, EventVerdict, Outcome};
use rp_base::{GroupId, Pid, PidSet};
use sha2::{Digest, Sha256};
use std::alloc::Global;
use std::fs::OpenFile;
use std::io::{Seek, SeekFrom, Write};
use std::rt::{Clock, Files};
use std::time::{Duration, Instant};
use std::{fs, io};

const PAYLOAD: [u8; 1024] = [5; 1024];

// The entry of such a Submit that signed nothing, after its length, and the next gate.
const STAGED_BYTES: usize = 1036;

const JOURNAL: &str = "bench_journal_file";

const BARE: &str = "bench_journal_bare";

fn header() -> Header {
    Header {
        group: GroupId([7; 16]),
        hosted: PidSet::from_mask(1),
        digest: [9; 32],
    }
}

// Process 0, which is said to have taken whatever has a spelling.
#[derive(Drop)]
struct Anyone;

impl Journalled for Anyone {
    ghost use Rattle.journal_defs.specs.Entries.{IsEntry};
    ghost use Rattle.journal_entries.specs.Views.{event as event_of, turn_entry};

    ghost number = { λ p. 0 };

    ghost took = { λ p e o. IsEntry (turn_entry 0 (event_of e) o) };

    fn number(&self) -> Pid {
        Pid::default()
    }

    ghost spells = { λ p e o took. took };
}

fn turn(alloc: Global) -> Result<Turn<Unsynced, Anyone>> {
    let outcome = Outcome {
        verdict: EventVerdict::Taken,
        heard: 0,
        signed: Vec::new(alloc),
        spent: false,
        sends: Vec::new(alloc),
        notes: Vec::new(alloc),
    };
    match Turn::new(alloc, Anyone, &Event::Submit(&PAYLOAD), outcome) {
        Ok(turn) => Ok(turn),
        Err(_) => Err(anyhow!("no memory")),
    }
}

fn micros(time: Duration) -> u64 {
    time.as_secs()
        .wrapping_mul(1_000_000)
        .wrapping_add(u64::from(time.subsec_micros()))
}

// A piece after a byte, and the byte, both synced.
fn bare<F: OpenFile + Seek + Write>(file: &mut F, at: u64, piece: &[u8]) -> io::Result<()> {
    file.seek(SeekFrom::Start(at.saturating_add(1)))?;
    file.write_all(piece)?;
    file.sync_data()?;
    file.seek(SeekFrom::Start(at))?;
    file.write_all(&[1])?;
    file.sync_data()
}

// How many entries there are.
fn read_all<R: Files>(
    alloc: Global,
    disk: &mut FileDisk<'_, R>,
    journal: &mut Journal<Reading>,
) -> Result<u64> {
    for n in 0..u64::MAX {
        match journal.read(alloc, disk) {
            Ok(Some(_)) => {}
            Ok(None) => return Ok(n),
            Err(_) => return Err(anyhow!("no entry")),
        }
    }
    Err(anyhow!("no end"))
}

fn started<R: Files>(disk: &mut FileDisk<'_, R>) -> Result<Journal<Reading>> {
    match Journal::<Reading>::start(disk, &header()) {
        Ok(journal) => Ok(journal),
        Err(_) => Err(anyhow!("no journal")),
    }
}

fn append<R: Files>(
    alloc: Global,
    disk: &mut FileDisk<'_, R>,
    journal: Journal<Writing>,
) -> Result<Journal<Writing>> {
    match journal.append(disk, turn(alloc)?) {
        Ok((next, _)) => Ok(next),
        Err(_) => Err(anyhow!("no turn")),
    }
}

// The microseconds of `turns` turns, and of as many pairs of bare writes between them.
fn time_turns(rt: &(impl Files + Clock), alloc: Global, turns: u32) -> Result<(u64, u64)> {
    let _ = fs::remove_file(rt, JOURNAL);
    let mut disk = FileDisk::new(rt, JOURNAL);
    let mut reading = started(&mut disk)?;
    read_all(alloc, &mut disk, &mut reading)?;
    let Ok(mut journal) = reading.finish(&mut disk) else {
        return Err(anyhow!("no end"));
    };
    let mut file = fs::create(rt, BARE)?;
    let mut at = 0u64;
    let mut ours = 0u64;
    let mut theirs = 0u64;
    for _ in 0..turns {
        let begun = Instant::now(rt)?;
        journal = append(alloc, &mut disk, journal)?;
        ours = ours.wrapping_add(micros(begun.elapsed(rt)?));
        let begun = Instant::now(rt)?;
        bare(&mut file, at, &[5; STAGED_BYTES])?;
        theirs = theirs.wrapping_add(micros(begun.elapsed(rt)?));
        at = at.wrapping_add(STAGED_BYTES as u64);
    }
    let _ = fs::remove_file(rt, JOURNAL);
    let _ = fs::remove_file(rt, BARE);
    Ok((ours, theirs))
}

// The bytes of a journal with `entries` entries, each a Frame of 100 bytes with a signature of 32.
fn journal_of(alloc: Global, entries: u32) -> Result<Vec<u8>> {
    let mut bytes = b"RPJ2".to_vec(alloc)?;
    bytes.extend_from_slice(&[7; 16])?;
    bytes.extend_from_slice(&1u64.to_be_bytes())?;
    bytes.extend_from_slice(&[9; 32])?;
    for _ in 0..entries {
        bytes.extend_from_slice(&[1, 0, 0, 0, 142, 0, 2, 1, 0, 100])?;
        bytes.extend_from_slice(&[3; 100])?;
        bytes.extend_from_slice(&[0, 0, 1, 0, 32])?;
        bytes.extend_from_slice(&[4; 32])?;
    }
    bytes.push(0)?;
    Ok(bytes)
}

// How many entries are read of so many, in how many microseconds, and in how many their bytes.
fn time_reading(
    rt: &(impl Files + Clock + AllocGlobal),
    alloc: Global,
    entries: u32,
) -> Result<(u64, u64, u64)> {
    fs::write(rt, JOURNAL, journal_of(alloc, entries)?.as_slice())?;
    let begun = Instant::now(rt)?;
    let mut disk = FileDisk::new(rt, JOURNAL);
    let mut journal = started(&mut disk)?;
    let read = read_all(alloc, &mut disk, &mut journal)?;
    let ours = micros(begun.elapsed(rt)?);
    let begun = Instant::now(rt)?;
    let whole = fs::read(rt, JOURNAL)?;
    let theirs = micros(begun.elapsed(rt)?);
    drop(whole);
    let _ = fs::remove_file(rt, JOURNAL);
    Ok((read, ours, theirs))
}

// The microseconds of `times` pairs of bare writes, each of a piece and of a byte.
fn time_bare(rt: &(impl Files + Clock), alloc: Global, bytes: usize, times: u32) -> Result<u64> {
    let piece = vec![in alloc; 5u8; bytes]?;
    let mut file = fs::create(rt, BARE)?;
    let mut at = 0u64;
    let begun = Instant::now(rt)?;
    for _ in 0..times {
        bare(&mut file, at, &piece)?;
        at = at.wrapping_add(bytes as u64);
    }
    let time = micros(begun.elapsed(rt)?);
    let _ = fs::remove_file(rt, BARE);
    Ok(time)
}

/// Makes two pairs of bare writes.
pub(crate) fn bare_once(rt: &(impl Print + Files + Clock + AllocGlobal)) -> Result<()> {
    time_bare(rt, rt.alloc(), 100, 2)?;
    println!(rt; "2 pairs of bare writes of 100 bytes")?;
    Ok(())
}

/// Prints the microseconds of a number of pairs of bare writes, and of their bytes, as the words say.
pub(crate) fn bare_times(
    rt: &(impl Print + Files + Clock + AllocGlobal),
    words: &[String],
) -> Result<()> {
    let bytes: Option<u16> = words.first().and_then(|word| word.parse().ok());
    let times = words.get(1).and_then(|word| word.parse().ok());
    let (Some(bytes), Some(times)) = (bytes, times) else {
        return Err(anyhow!("the words are a number of bytes and of times"));
    };
    let micros = time_bare(rt, rt.alloc(), bytes.into(), times)?;
    println!(rt; "{times} pairs of bare writes of {bytes} bytes: {micros} us")?;
    Ok(())
}

/// Prints the microseconds of SHA-256 of a file, which was read before, and its bytes.
pub(crate) fn hash_times(
    rt: &(impl Print + Files + Clock + AllocGlobal),
    words: &[String],
) -> Result<()> {
    let Some(name) = words.first() else {
        return Err(anyhow!("the word is a file's name"));
    };
    let bytes = fs::read(rt, name.as_str())?;
    let begun = Instant::now(rt)?;
    let digest = Sha256::digest(bytes.as_slice());
    let micros = micros(begun.elapsed(rt)?);
    let count = bytes.len();
    let first = digest[0];
    println!(rt; "{count} bytes: {micros} us, a digest that begins with {first}")?;
    Ok(())
}

/// Hashes a file.
pub(crate) fn hash_once(rt: &(impl Print + Files + Clock + AllocGlobal)) -> Result<()> {
    fs::write(rt, BARE, [5; 100].as_slice())?;
    let digest = Sha256::digest(fs::read(rt, BARE)?.as_slice());
    let _ = fs::remove_file(rt, BARE);
    println!(rt; "a file with a digest of {} bytes", digest.len())?;
    Ok(())
}

/// Takes in two turns and reads three entries.
pub(crate) fn once(rt: &(impl Print + Files + Clock + AllocGlobal)) -> Result<()> {
    time_turns(rt, rt.alloc(), 2)?;
    let (read, _, _) = time_reading(rt, rt.alloc(), 3)?;
    println!(rt; "2 turns taken in, {read} entries read")?;
    Ok(())
}

/// Prints how many turns and entries there were, and the microseconds of them and of the bare writes and bytes.
pub(crate) fn times(rt: &(impl Print + Files + Clock + AllocGlobal)) -> Result<()> {
    let turns = 500;
    let (ours, theirs) = time_turns(rt, rt.alloc(), turns)?;
    let (read, reading, bytes) = time_reading(rt, rt.alloc(), 100_000)?;
    println!(rt; "{turns} turns taken in, {read} entries read")?;
    println!(rt; "turns {ours} bare {theirs} reading {reading} bytes {bytes}")?;
    Ok(())
}
