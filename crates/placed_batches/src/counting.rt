//! How many messages of each member are named.
ghost use Rattle.std.specs.Prelude.{◌≡◌, ◌≤◌, ℕ, ◌++◌, List, slice_index};
ghost use Rattle.message_defs.specs.Statements.{Message};
ghost use Rattle.placed_batches.specs.Rows.{IsRow};

use stmt_codec::Batch;
use view_table::View;

// Counts the messages of the batch, each at its sender's rank.
pub(crate) fn count_batch(view: &View, batch: &Batch, row: &mut [u16; 16])
    requires { (r : ℕ) → slice_index row.old r ≤ 16384 }
    ensures { (before : List Message) → IsRow view.now before row.old → IsRow view.now (before ++ batch.now) row.new }
{
    let _members = view.members();
    'messages: for message in batch.messages() {
        if let Some(rank) = view.rank_of(message.0) {
            row[rank as usize] += 1;
        }
    }
}
