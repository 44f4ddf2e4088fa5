ghost use Rattle.std.specs.Prelude.{◌≡◌, ◌≤◌};
ghost use Rattle.rp_base.specs.Calls.{is_to_fail, called, faulted};

/// The calls of a device in memory: how many were made, which are to fail (the first call is number 0), and how many
/// have failed.
#[derive(Drop)]
pub(crate) struct Calls {
    made: u64,
    failing: Vec<u64>,
    faults: u64,
}

/// No call yet.
pub(crate) fn no_calls(failing: Vec<u64>) -> Calls
    ensures { result ≡ record { made = 0; failing = failing; faults = 0 } }
{
    Calls {
        made: 0,
        failing,
        faults: 0,
    }
}

/// Counts a call, and says whether it is to fail. If it is, that is a fault.
pub(crate) fn next_fails(calls: &mut Calls) -> bool
    ensures value { result ≡ is_to_fail calls.old }
    ensures after { calls.new ≡ called calls.old }
    ensures later { calls.old.faults ≤ calls.new.faults }
{
    let fails = calls.failing.contains(&calls.made);
    calls.made = calls.made.saturating_add(1);
    if fails {
        fault(calls);
    }
    fails
}

/// Counts a fault.
pub(crate) fn fault(calls: &mut Calls)
    ensures after { calls.new ≡ faulted calls.old }
    ensures later { calls.old.faults ≤ calls.new.faults }
{
    calls.faults = calls.faults.saturating_add(1);
}
