ghost use Rattle.std.specs.Prelude.{◌≡◌, ◌+◌, ◌≤◌, List, [], ◌++◌, length, All};
ghost use Rattle.message_defs.specs.Statements.{Message};
ghost use Rattle.group_defs.specs.Process.{Delivered};
ghost use Rattle.rule_laws.specs.Placing.{counts_in};
ghost use Rattle.member_laws.specs.Telling.{Begins, OnePlaceMore};

use arrayvec::ArrayVec;
use member_laws::{Own, SignedSlots};
use std::alloc::Global;
use std::mem;
use stmt_codec::Batch;
use view_table::View;

/// For each member of the view a count of 0.
pub fn no_counts(view: &View) -> ArrayVec<u16, 16>
    ensures { result.items ≡ counts_in view.now [] }
{
    let mut counts = ArrayVec::from([0; 16]);
    counts.truncate(view.members().len());
    counts
}

/// Begins the view: nothing is signed or delivered there, and `mine` own messages more are of views before it. The slots that were
/// signed in the view before are handed out.
pub fn begin_view(own: &mut Own, view: &View, mine: u16, alloc: Global) -> SignedSlots
    requires { own.old.earlier + mine ≤ 4294967295 }
    ensures begins { Begins view.now own.old own.new mine }
    ensures signed { result ≡ own.old.signed }
{
    let signed = mem::replace(&mut own.signed, SignedSlots::new(alloc));
    own.position = view.rank_of(own.me);
    own.ended = false;
    own.rank = 0;
    own.ready = None;
    own.ordered = 0;
    own.orders = no_counts(view);
    own.delivered = 0;
    own.counts = no_counts(view);
    own.earlier += mine as u32;
    signed
}

// Counts the messages of the batch after those that are counted, each at its sender's rank.
fn count_batch(view: &View, batch: &Batch, counts: &mut [u16])
    requires members { length counts.old ≡ length view.now.members }
    requires room { All (λ c. c + 16 ≤ 65535) counts.old }
    ensures { (before : List Message) → counts.old ≡ counts_in view.now before → counts.new ≡ counts_in view.now (before ++ batch.now) }
{
    let _members = view.members();
    'messages: for message in batch.messages() {
        if let Some(rank) = view.rank_of(message.0) {
            counts[rank as usize] += 1;
        }
    }
}

/// Counts the batch of the next place as delivered: one place more, and of each member one more for each of its messages.
/// `own` has an entry for each member, and each is at most 65,519.
pub fn deliver_batch(own: &mut Own, view: &View, batch: &Batch)
    requires members { length own.old.counts.items ≡ length view.now.members }
    requires place { own.old.delivered + 1 ≤ 65535 }
    requires counts { All (λ c. c + 16 ≤ 65535) own.old.counts.items }
    ensures { (delivered : List Delivered) → OnePlaceMore view.now batch.now delivered own.old own.new }
{
    count_batch(view, batch, &mut own.counts);
    own.delivered += 1;
}
