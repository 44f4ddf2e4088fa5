ghost use Rattle.std.specs.Prelude.{◌≡◌, ◌+◌, ◌<◌, ◌&&◌, ℕ, true, not, nat_lt, length, IfSome};
ghost use Rattle.std.specs.Option.{option_map};
ghost use Rattle.message_defs.specs.Statements.{InitAt};
ghost use Rattle.group_defs.specs.Process.{Setting, Process, Inits};
ghost use Rattle.group_defs.specs.Certified.{number_of_members};
ghost use Rattle.group_defs.specs.Due.{window, least_due};
ghost use Rattle.own_place.specs.Owns.{IsOwnOf};
ghost use Rattle.own_place.specs.Signed.{has_slot};
ghost use Rattle.rule_laws.specs.Messages.{own_init};

use crate::deliveries::counts_of;
use pool_questions::{Own, Pool, WINDOW};

// Whether the number is in the window after `delivered` messages, and a payload was accepted for it.
fn has_payload(number: u16, delivered: u16, earlier: u32, accepted: u32) -> bool
    ensures { result ≡ (nat_lt number (delivered + window) && nat_lt (earlier + number) accepted) }
{
    (number as u32) < delivered as u32 + WINDOW
        && earlier as u64 + (number as u64) < accepted as u64
}

// Whether neither this number nor a later one has a payload.
fn has_none(number: u16, delivered: u16, earlier: u32, accepted: u32) -> bool
    ensures { result ≡ not (nat_lt number (delivered + window) && nat_lt (earlier + number) accepted) }
{
    !has_payload(number, delivered, earlier, accepted)
}

// A number below which each own Init is signed.
fn inits_below(pool: &Pool, own: &Own) -> u16
    ensures { (l : ℕ) → l < result → has_slot own.now.signed (InitAt pool.now.pool.view.number l) ≡ true }
{
    own.signed.inits_below(pool.view().number())
}

/// The number whose Init is due; None exactly where none is. It says the accepted payload that comes so far after the first
/// `own.earlier` ones. `accepted` is how many payloads were accepted in all, and `own` has an entry for each member.
pub fn init_due(pool: &Pool, own: &Own, accepted: u32) -> Option<u16>
    requires { length own.now.counts.items ≡ number_of_members pool.now.pool }

    // For each process whose own place and pool these are: its least due Init.
    ensures least { (s : Setting) (p : Process) → IsOwnOf s p pool.now.pool own.now → length p.accepted ≡ accepted
        → least_due s p Inits ≡ option_map (own_init p) result }

    // Its payload was accepted.
    ensures payload { IfSome result (λ l. own.now.earlier + l < accepted) }
{
    own.position?;
    let delivered = counts_of(pool, own, own.me);
    let reached = inits_below(pool, own);
    if has_none(reached, delivered, own.earlier, accepted) {
        return None;
    }
    let number = own.signed.first_unsigned_init(pool.view().number())?;
    if has_payload(number, delivered, own.earlier, accepted) {
        Some(number)
    } else {
        None
    }
}
