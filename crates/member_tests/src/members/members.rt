//! Process 0 alone in its view, with a key of its own or known by its journal.
ghost use Rattle.std.specs.Prelude.{◌≡◌};

use member_image::{Core, Event, Outcome, RestoreFault, restore};
use rp_base::{Count, GroupId, NoMemory, Pid, PlainScheme, PlainSigner, Roster, Tally};
use snapshot_rp::{Version, read_snapshot};
use std::alloc::Global;
use std::process::Abort;
use view_table::View;

const KEY: [u8; 32] = [1; 32];

const GROUP: GroupId = GroupId([7; 16]);

// The roster of process 0 alone.
fn roster(alloc: Global) -> Result<Roster, NoMemory> {
    let mut roster = Roster::new(alloc)?;
    roster.add(Pid::new(0).unwrap(), &KEY)?;
    Ok(roster)
}

// Process 0 alone, with this signer, which has signed nothing.
fn alone<G: Tally + Drop>(alloc: Global, signer: G) -> Result<Core<G>, NoMemory>
    requires { G.used signer ≡ 0 }
{
    let me = Pid::new(0).unwrap();
    let Some(genesis) = View::new(0, &[me]) else {
        return Err(NoMemory);
    };
    Core::new(alloc, GROUP, roster(alloc)?, genesis, me, 1, signer)
}

/// Process 0 alone, whose key signs `total` statements.
pub fn try_one_member(alloc: Global, total: u32) -> Result<Core<PlainSigner>, NoMemory> {
    alone(alloc, key(total))
}

/// The same, in a test that has the memory.
pub fn one_member(rt: &(impl AllocGlobal + Abort), total: u32) -> Core<PlainSigner> {
    try_one_member(rt.alloc(), total).expect(rt, "memory")
}

/// Process 0 alone, for someone who has its journal and not its key.
pub fn one_by_journal(rt: &(impl AllocGlobal + Abort), total: u32) -> Core<Count> {
    alone(rt.alloc(), Count::new(total)).expect(rt, "memory")
}

/// Its key, which signs `total` statements.
pub fn key(total: u32) -> PlainSigner
    ensures used { result.used ≡ 0 }
    ensures total { result.total ≡ total }
{
    PlainSigner::new(KEY, total)
}

/// Process 0 alone as it begins again, with this key, from the image that the bytes spell.
pub fn one_again(
    alloc: Global,
    bytes: &[u8],
    signer: PlainSigner,
) -> Result<Core<PlainSigner>, RestoreFault> {
    let me = Pid::new(0).unwrap();
    let (Some(genesis), Ok(roster)) = (View::new(0, &[me]), roster(alloc)) else {
        return Err(RestoreFault::NoMemory);
    };
    match read_snapshot(alloc, Version::Two, bytes) {
        Ok(image) => restore(
            alloc,
            &PlainScheme,
            GROUP,
            roster,
            genesis,
            image,
            signer,
            1,
        ),
        Err(_) => Err(RestoreFault::NoMemory),
    }
}

/// What came of the event, which the process has taken.
pub fn after(rt: &impl Abort, core: &mut Core<PlainSigner>, event: &Event<'_>) -> Outcome {
    core.step(&PlainScheme, event).expect(rt, "memory")
}
