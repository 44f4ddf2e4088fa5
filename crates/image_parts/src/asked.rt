//! The updates that are asked for in a view.
ghost use Rattle.std.specs.Prelude.{◌≡◌, map};
ghost use Rattle.group_defs.specs.Process.{Process};
ghost use Rattle.rp_base.specs.Views.{update as update_of};
ghost use Rattle.ending_rules.specs.Perceiving.{IsPerceivedOf, with_update};
ghost use Rattle.snapshot_rp.specs.Views.{perceived as plain};
ghost use Rattle.image_parts.specs.Walks.{with_entry, with_entries};

use ending_rules::Perceived;
use rp_base::Update;

// Puts the update into the set, where it is not in it.
fn insert(set: &mut Perceived, update: Update)
    ensures { set.new ≡ with_update set.old (update_of update) }
{
    match update {
        Update::Remove(p) => set.remove.insert(p),
        Update::Add(p) => set.add.insert(p),
        Update::Renew => set.renew = true,
    }
}

// Puts the update of the entry into the set, where it is of the view of this number.
fn put(set: &mut Perceived, number: u16, entry: &(u16, Update))
    ensures { set.new ≡ with_entry number set.old (plain entry.now) }
{
    if entry.0 == number {
        insert(set, entry.1);
    }
}

// Puts the updates of those entries into the set that are of the view of this number.
fn put_each(set: &mut Perceived, number: u16, perceived: &[(u16, Update)])
    ensures { set.new ≡ with_entries number set.old (map plain perceived.now) }
{
    for entry in perceived {
        put(set, number, entry);
    }
}

/// The updates that were asked for in the view of this number, of all that were perceived.
pub fn asked_in(number: u16, perceived: &[(u16, Update)]) -> Perceived
    ensures { (p : Process) → p.pool.view.number ≡ number → p.perceived ≡ map plain perceived.now → IsPerceivedOf result p }
{
    let mut set = Perceived::new();
    put_each(&mut set, number, perceived);
    set
}
