//! The entries of journals, taken alone.
use audit_core::{Core, Entry, Outcome};
use audit_input::{Input, Kit};
use bench_parts::Work;
use journal_steps::{Source, Steps};
use kit_file::roster_of;
use rp_base::{Count, Pid};
use sig_scheme::AnyScheme;
use std::alloc::Global;
use view_table::View;

/// What journals have: entries, the claims that were heard in them, and those that were signed.
#[derive(Clone, Copy)]
pub(crate) struct Counts {
    pub(crate) entries: u64,
    pub(crate) heard: u64,
    pub(crate) signed: Work,
}

// The process as it starts, without a key.
fn core_of(alloc: Global, kit: &Kit, me: Pid) -> Option<Core<Count>> {
    let genesis = View::new(0, kit.genesis())?;
    let Ok(roster) = roster_of(alloc, kit) else {
        return None;
    };
    let signer = Count::new(u32::MAX);
    match Core::new(alloc, kit.group(), roster, genesis, me, 16, signer) {
        Ok(core) => Some(core),
        Err(_) => None,
    }
}

// And an entry with this outcome.
fn and_entry(counts: Counts, outcome: &Outcome) -> Counts {
    let mut signed = counts.signed;
    for claim in &outcome.signed {
        signed = signed.and_signed(claim.statement.bytes());
    }
    Counts {
        entries: counts.entries.wrapping_add(1),
        heard: counts.heard.wrapping_add(u64::from(outcome.heard)),
        signed,
    }
}

// The process takes an entry.
fn absorb(
    core: &mut Core<Count>,
    scheme: &AnyScheme,
    entry: &Entry<'_>,
    counts: Counts,
) -> Option<Counts> {
    if entry.process != core.me() {
        return None;
    }
    match core.absorb(scheme, entry) {
        Ok(outcome) => Some(and_entry(counts, &outcome)),
        Err(_) => None,
    }
}

// The process takes the entries that are left.
fn absorb_steps(
    core: &mut Core<Count>,
    scheme: &AnyScheme,
    steps: &mut Steps<'_>,
    counts: Counts,
) -> Option<Counts> {
    let mut counts = counts;
    for _ in 0..u64::MAX {
        match steps.next() {
            Ok(Some((_, entry))) => counts = absorb(core, scheme, &entry, counts)?,
            Ok(None) => return Some(counts),
            Err(_) => return None,
        }
    }
    None
}

// The process takes the entries of its journal.
fn absorb_journal(
    alloc: Global,
    kit: &Kit,
    me: Pid,
    journal: &[u8],
    counts: Counts,
) -> Option<Counts> {
    let Some(source) = Source::read(kit, journal) else {
        return None;
    };
    let mut steps = source.steps();
    let scheme = kit.scheme();
    let mut core = core_of(alloc, kit, me)?;
    absorb_steps(&mut core, &scheme, &mut steps, counts)
}

/// Each member takes the entries of its journal. None where one can't, or there is no memory.
pub(crate) fn absorb_all(alloc: Global, input: &Input) -> Option<Counts> {
    let mut counts = Counts {
        entries: 0,
        heard: 0,
        signed: Work::none(),
    };
    for (me, journal) in input.kit.genesis().iter().zip(&input.journals) {
        counts = absorb_journal(alloc, &input.kit, *me, journal.bytes(), counts)?;
    }
    Some(counts)
}
