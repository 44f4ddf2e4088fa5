ghost use Rattle.std.specs.Prelude.{◌≡◌, ◌<◌, ◌≤◌, ◌+◌, length, take, slice_index, slice_set};
ghost use Rattle.group_defs.specs.Certified.{messages as messages_in, placed};
ghost use Rattle.rule_laws.specs.Placing.{counts_in};

use arrayvec::ArrayVec;
use pool_questions::Pool;

/// For each member, in rank order, how many of its messages are named.
pub(crate) type Counts = ArrayVec<u16, 16>;

/// The same counts.
pub(crate) fn copied(counts: &[u16]) -> Counts
    requires { length counts.now ≤ 16 }
    ensures { result.items ≡ counts.now }
{
    ArrayVec::try_from(counts).unwrap()
}

/// One message more of the member of this rank.
pub(crate) fn count_one(counts: &mut [u16], rank: usize)
    requires { rank < length counts.old }
    ensures { slice_index counts.old rank < u16.MAX → counts.new ≡ slice_set counts.old rank (slice_index counts.old rank + 1) }
{
    counts[rank] = counts[rank].saturating_add(1);
}

/// For each member, in rank order, how many of its messages the batches of the places below this one name.
pub(crate) fn names_before(pool: &Pool, place: u16) -> Counts
    requires { place ≤ length (placed pool.now.pool) }
    ensures { result.items ≡ counts_in pool.now.pool.view (messages_in (take place (placed pool.now.pool))) }
{
    let _members = pool.view().members();
    copied(pool.names_before(place))
}
