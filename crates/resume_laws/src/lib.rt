//! Laws of a node that begins by a snapshot, and of one whose journal has an entry that does not fit. Each is the contract of a function with an
//! empty body.
#![tactic(auto)]

ghost use Rattle.resume_laws.specs.Refusing.{OpensExactly};
ghost use Rattle.resume_laws.specs.Resuming.{ResumesAsNode, ResumesAsNodeBy, SnapsAreAlike};
ghost use Rattle.resume_laws.specs.Said.{SnapsAreRead, SnapsGiveBack};
ghost use Rattle.resume_laws.specs.Snapping.{SnapsAreAfter, SnapshotsAreTaken};
ghost use Rattle.resume_laws.specs.Spelled.{ImagesAreSpelled};
ghost use Rattle.resume_laws.specs.Traces.{ResumesTraceAlike, ResumesTraceAlikeBy};

/// A node opens exactly where each entry of its journal fits; else it stops at the place of the first that does not.
pub fn opens_exactly()
    ensures { OpensExactly }
{}

/// A node that begins by a snapshot which `snap` wrote makes the calls of one that reads the whole journal.
pub fn resumes_as_node()
    ensures { ResumesAsNode }
{}

/// So does one that makes its lines of `snap` in another way than the definitions, where the other makes them so too.
pub fn resumes_as_node_by()
    ensures { ResumesAsNodeBy }
{}

/// As the definitions make them, both make the same lines.
pub fn snaps_are_alike()
    ensures { SnapsAreAlike }
{}

/// What it did to link, output and input the other may do, and what a stop of it leaves reads as what a stop of the other leaves.
pub fn resumes_trace_alike()
    ensures { ResumesTraceAlike }
{}

/// So does one whose lines of `snap` are made in another way.
pub fn resumes_trace_alike_by()
    ensures { ResumesTraceAlikeBy }
{}

/// What `snap` writes at any moment of a run is a snapshot after the entries that the journal holds for good.
pub fn snaps_are_after()
    ensures { SnapsAreAfter }
{}

/// A snapshot after entries that fit is one by which the node may begin.
pub fn snapshots_are_taken()
    ensures { SnapshotsAreTaken }
{}

/// What `snap` writes is a line that says the snapshot.
pub fn snaps_are_read()
    ensures { SnapsAreRead }
{}

/// The line of a node's snapshot gives the node back: its processes, but for the order of their conflicts, their counts of entries, and its
/// place.
pub fn snaps_give_back()
    ensures { SnapsGiveBack }
{}

/// The image of a process that a run made has a spelling where its parts are in range: its conflicts rise.
pub fn images_are_spelled()
    ensures { ImagesAreSpelled }
{}
