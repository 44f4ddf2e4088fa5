ghost use Rattle.std.specs.Prelude.{◌≡◌, ◌<◌, ℕ, true};
ghost use Rattle.std.specs.Option.{option_map};
ghost use Rattle.message_defs.specs.Statements as plain;
ghost use Rattle.message_defs.specs.Statements.{KeepAt};
ghost use Rattle.group_defs.specs.Process.{Setting, Process, Keeps};
ghost use Rattle.group_defs.specs.Due.{least_due};
ghost use Rattle.own_place.specs.Owns.{IsOwnOf};
ghost use Rattle.own_place.specs.Signed.{has_slot};

use pool_questions::{Own, Pool};
use stmt_codec::Batch;

// A place below which each own Keep is signed.
fn keeps_below(pool: &Pool, own: &Own) -> u16
    ensures { (k : ℕ) → k < result → has_slot own.now.signed (KeepAt pool.now.pool.view.number k) ≡ true }
{
    own.signed.keeps_below(pool.view().number())
}

/// The place whose Keep is due, with its batch; None exactly where none is.
pub fn keep_due(pool: &Pool, own: &Own) -> Option<(u16, Batch)>
    // For each process whose own place and pool these are: its least due Keep.
    ensures { (s : Setting) (p : Process) → IsOwnOf s p pool.now.pool own.now
        → least_due s p Keeps ≡ option_map (λ e. plain.Keep pool.now.pool.view.number e.0 e.1) result }
{
    own.position?;
    if own.ended {
        return None;
    }
    let reached = keeps_below(pool, own);
    let placed = pool.placed_len();
    if placed <= reached {
        return None;
    }
    let place = own.signed.first_unsigned_keep(pool.view().number())?;
    let batch = pool.batch_at(place)?;
    Some((place, batch))
}
