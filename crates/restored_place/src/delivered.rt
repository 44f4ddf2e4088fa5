//! How many messages were delivered, by their senders.
ghost use Rattle.std.specs.Prelude.{◌≡◌, ◌≤◌, length, map, All};
ghost use Rattle.std.specs.List.{sum_by};
ghost use Rattle.group_defs.specs.Process.{delivered_from};
ghost use Rattle.snapshot_rp.specs.Views.{delivered as plain};

use arrayvec::ArrayVec;
use member_events::Delivered;
use rp_base::Pid;
use view_table::View;

// How many of the sender's messages are among these.
fn count(delivered: &[Delivered], sender: Pid) -> usize
    ensures value { result ≡ delivered_from sender (map plain delivered.now) }
    ensures few { result ≤ length delivered.now }
{
    delivered.iter().filter(|d| d.sender == sender).count()
}

// The same of a view, in which no more than 16,384 messages are delivered.
fn count_from(delivered: &[Delivered], sender: Pid) -> u16
    requires { length delivered.now ≤ 16384 }
    ensures value { result ≡ delivered_from sender (map plain delivered.now) }
    ensures few { result ≤ 16384 }
{
    count(delivered, sender) as u16
}

/// For each member of the view, in rank order, how many of its messages are among these, which are at most 16,384.
pub(crate) fn counts_of(view: &View, delivered: &[Delivered]) -> ArrayVec<u16, 16>
    requires { length delivered.now ≤ 16384 }
    ensures { result.items ≡ map (λ m. delivered_from m (map plain delivered.now)) view.now.members }
{
    let mut counts = ArrayVec::new();
    for member in view.members() {
        counts.push(count_from(delivered, *member));
    }
    counts
}

/// How many messages of this process were delivered in views of which these lists are: at most 1,023 views, with at most 16,384 messages
/// in each.
pub fn own_delivered(me: Pid, lists: &[Vec<Delivered>]) -> u32
    requires views { length lists.now ≤ 1023 }
    requires few { All (λ ds. length ds.items ≤ 16384) lists.now }
    ensures { result ≡ sum_by (λ ds. delivered_from me (map plain ds.items)) lists.now }
{
    let mut sum = 0u32;
    for delivered in lists {
        sum += u32::from(count_from(delivered, me));
    }
    sum
}
