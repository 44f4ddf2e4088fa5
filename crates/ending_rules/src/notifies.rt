//! Updates that are asked for: which are refused, and the Notify of each (docs/PROTOCOL.md, «What is signed», «Events and
//! refusals»).
ghost use Rattle.std.specs.Prelude.{◌≡◌, ℕ, IsTrue, OnOk, OnErr, Option, false};
ghost use Rattle.std.specs.Option.{option_map};
ghost use Rattle.std.specs.Result.{result_err};
ghost use Rattle.byte_defs.specs.Members.{has};
ghost use Rattle.message_defs.specs.Statements.{Notify};
ghost use Rattle.group_defs.specs.Views.{has_keys, is_member};
ghost use Rattle.group_defs.specs.Process.{Notifies, Setting, Process, keyed as keyed_by};
ghost use Rattle.group_defs.specs.Due.{least_due};
ghost use Rattle.group_defs.specs.Events.{refusal, perceives};
ghost use Rattle.pool_laws.specs.Least.{IsLeastBelow};
ghost use Rattle.rp_base.specs.Views.{update as update_of};
ghost use Rattle.own_place.specs.Owns.{IsOwnOf};
ghost use Rattle.rule_laws.specs.Perceived.{most_updates};
ghost use Rattle.ending_rules.specs.Perceiving.{asking, asking_fault, fault as fault_of, has_update, is_notify_open, IsPerceivedOf};

use crate::updates::{MOST_UPDATES, update_at};
use pool_questions::{EventFault, Own, Pool, Slot};
use rp_base::{PidSet, Update};
use view_table::{View, has_key, is_possible, next};

/// The updates that were asked for at a process in its current view, each once.
#[derive(Clone, Copy)]
pub struct Perceived {
    /// The processes that are to be removed.
    pub remove: PidSet,

    /// The processes that are to be added.
    pub add: PidSet,

    /// Whether a new view of the same members is to begin.
    pub renew: bool,
}

impl Perceived {
    ghost use Rattle.std.specs.Prelude.{◌≡◌, IsTrue, false};
    ghost use Rattle.message_defs.specs.Spelling.{IsUpdate};
    ghost use Rattle.message_defs.specs.Updates as plain;
    ghost use Rattle.rp_base.specs.Views.{update as update_of};
    ghost use Rattle.ending_rules.specs.Perceiving.{has_update, with_update};

    /// Nothing is asked for, as in a view that begins.
    pub fn new() -> Perceived
        ensures { (u : plain.Update) → has_update result u ≡ false }
    {
        Perceived {
            remove: PidSet::new(),
            add: PidSet::new(),
            renew: false,
        }
    }

    /// Whether the update is one of them.
    pub fn contains(&self, update: Update) -> bool
        ensures { result ≡ has_update self.now (update_of update) }
    {
        match update {
            Update::Remove(p) => self.remove.contains(p),
            Update::Add(p) => self.add.contains(p),
            Update::Renew => self.renew,
        }
    }

    // Whether there is none. All are of processes that there can be.
    fn is_empty(&self) -> bool
        ensures none { IsTrue result → (u : plain.Update) → has_update self.now u ≡ false }
        ensures range { (u : plain.Update) → IsTrue (has_update self.now u) → IsUpdate u }
    {
        let remove = self.remove.mask();
        let add = self.add.mask();
        remove == 0 && add == 0 && !self.renew
    }

    // Puts the update into the set, where it is not in it.
    fn insert(&mut self, update: Update)
        ensures { self.new ≡ with_update self.old (update_of update) }
    {
        match update {
            Update::Remove(p) => self.remove.insert(p),
            Update::Add(p) => self.add.insert(p),
            Update::Renew => self.renew = true,
        }
    }
}

// Why the update is refused in the view, if it is.
fn refused(view: &View, keyed: PidSet, update: &Update) -> Option<EventFault>
    ensures { option_map fault_of result ≡ asking_fault keyed view.now (update_of update.now) }
{
    if !has_key(keyed, update) {
        return Some(EventFault::NoKey);
    }
    match next(view, *update) {
        Ok(_) => None,
        Err(fault) => Some(EventFault::NoNext(fault)),
    }
}

/// Puts the update into the set, where a member that has not halted may ask for it. An Err is the first reason why it may not,
/// NoKey or NoNext, and then the set is as before. `keyed` is the processes with keys.
pub fn perceive(
    set: &mut Perceived,
    view: &View,
    keyed: PidSet,
    update: Update,
) -> Result<(), EventFault>
    ensures exactly { (s : Setting) (p : Process) → ((q : ℕ) → has (keyed_by s) q ≡ has keyed q) → p.pool.view ≡ view.now
        → IsTrue (is_member p.pool.view p.me) → p.halted ≡ false
        → refusal s p (asking (update_of update)) ≡ option_map fault_of (result_err result) }
    ensures taken { OnOk result ((p : Process) → IsPerceivedOf set.old p → IsPerceivedOf set.new (perceives p (update_of update))) }
    ensures same { OnErr result (set.new ≡ set.old) }
{
    match refused(view, keyed, &update) {
        Some(fault) => Err(fault),
        None => {
            set.insert(update);
            Ok(())
        }
    }
}

// Whether the update of this number is asked for and possible, and its Notify is not signed.
fn is_open(pool: &Pool, own: &Own, set: &Perceived, number: u8) -> bool
    ensures { result ≡ is_notify_open pool.now.pool own.now set.now number }
{
    let update = update_at(number);
    let view = pool.view().number();
    set.contains(update)
        && is_possible(pool.view(), own.keyed, &update)
        && !own.signed.has_signed(6, &Slot::Update { view, update })
}

// The least such number; None exactly where there is none.
fn open_number(pool: &Pool, own: &Own, set: &Perceived) -> Option<u8>
    ensures { IsLeastBelow most_updates (is_notify_open pool.now.pool own.now set.now) result }
{
    'updates: for number in 0..MOST_UPDATES {
        if is_open(pool, own, set, number) {
            return Some(number);
        }
    }
    None
}

/// The update of the least Notify that is due: the least one that is asked for and possible, and whose Notify is not signed.
/// None exactly where none is due.
pub fn notify_due(pool: &Pool, own: &Own, set: &Perceived) -> Option<Update>
    ensures { (s : Setting) (p : Process) → IsOwnOf s p pool.now.pool own.now → IsPerceivedOf set.now p
        → least_due s p Notifies ≡ option_map (λ u. Notify pool.now.pool.view.number (update_of u)) result }
{
    own.position?;
    if set.is_empty() {
        return None;
    }
    let number = open_number(pool, own, set)?;
    Some(update_at(number))
}
