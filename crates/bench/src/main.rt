//! What the dear calls of the layers cost: `bench WORD`, and after the word what it wants, measures one of them and prints its times.
//! With no word each of them is called in small, and no time is printed.
#![tactic(auto)]

mod frames;
mod journal;
mod link;
mod lms;
mod schedules;

use anyhow::{Error, Result};
use group_measures::{cores, replay};
use net_edge::StdSource;
use std::env;
use std::process::ExitCode;

/// The status where the word names nothing that is measured.
const OTHER_WORD: u8 = 2;

const WORDS: &str =
    "lms, link, journal, bare BYTES TIMES, hash FILE, frames GROUPS TIMES, schedules submits|ticks|copy PIECES, pool CLAIMS, core MEMBERS HUNDREDS, \
     replay FILE [times], store [get|set|remove|exchange TIMES], chain, or audit [alone] over the input of `rampart audit`";

/// What is measured.
#[derive(Clone, Copy)]
enum Measure {
    Lms,
    Frames,
    Schedules,
    Link,
    Journal,
    Bare,
    Hash,
    Pool,
    Core,
    Replay,
    Audit,
    Store,
    Chain,
}

impl Measure {
    // What the word names, if anything.
    fn of(word: &str) -> Option<Measure> {
        match word {
            "lms" => Some(Measure::Lms),
            "frames" => Some(Measure::Frames),
            "schedules" => Some(Measure::Schedules),
            "link" => Some(Measure::Link),
            "journal" => Some(Measure::Journal),
            "bare" => Some(Measure::Bare),
            "hash" => Some(Measure::Hash),
            "pool" => Some(Measure::Pool),
            "core" => Some(Measure::Core),
            "replay" => Some(Measure::Replay),
            "audit" => Some(Measure::Audit),
            "store" => Some(Measure::Store),
            "chain" => Some(Measure::Chain),
            _ => None,
        }
    }

    // Measures it, by the words after its own.
    fn run(self, rt: &HostRuntime, words: &[String]) -> Result<()> {
        match self {
            Measure::Lms => lms::print_times(rt),
            Measure::Frames => frames::split(rt, words),
            Measure::Schedules => schedules::read(rt, words),
            Measure::Link => link::times(rt),
            Measure::Journal => journal::times(rt),
            Measure::Bare => journal::bare_times(rt, words),
            Measure::Hash => journal::hash_times(rt, words),
            Measure::Pool => pool_measures::times_of(rt, words),
            Measure::Core => cores::times_of(rt, words),
            Measure::Replay => replay::count_in(rt, words),
            Measure::Audit => audit_measures::times_of(rt, &mut StdSource::new(rt), words),
            Measure::Store => store_measures::times_of(rt, words),
            Measure::Chain => chain_measures::print_times(rt),
        }
    }
}

// Each once, in small. Standard input is that of an audit.
fn once(rt: &HostRuntime) -> Result<()> {
    lms::once(rt)?;
    frames::once(rt)?;
    schedules::once(rt)?;
    link::once(rt)?;
    journal::once(rt)?;
    journal::bare_once(rt)?;
    journal::hash_once(rt)?;
    pool_measures::once(rt)?;
    cores::once(rt)?;
    replay::once(rt)?;
    store_measures::once(rt)?;
    chain_measures::once(rt)?;
    audit_measures::once(rt, &mut StdSource::new(rt))
}

// The words after the program's name.
fn words(rt: &HostRuntime) -> Result<Vec<String>> {
    let mut words = Vec::new(rt.alloc());
    for word in env::args(rt)?.skip(1) {
        words.push(word)?;
    }
    Ok(words)
}

fn main(rt: HostRuntime) -> Result<ExitCode, Error> {
    let words = words(&rt)?;
    let Some((first, behind)) = words.split_first() else {
        once(&rt)?;
        return Ok(ExitCode::SUCCESS);
    };
    let Some(measure) = Measure::of(first.as_str()) else {
        eprintln!(rt; "bench: {WORDS}")?;
        return Ok(ExitCode::from(OTHER_WORD));
    };
    measure.run(&rt, behind)?;
    Ok(ExitCode::SUCCESS)
}
