ghost use Rattle.std.specs.Prelude.{◌≡◌, ◌≤◌, ◌<◌, [], ◌∷◌, ◌++◌, length, take, slice_get, IfOk};
ghost use Rattle.group_defs.specs.Certified.{messages};
ghost use Rattle.rule_laws.specs.Placing.{counts_in};

use crate::counting::count_batch;
use rp_base::NoMemory;
use std::alloc::Global;
use std::marker::Model;
use std::mem;
use stmt_codec::{Batch, MOST_PLACES};
use view_table::View;

/// The room for a view's places.
const PLACES: usize = MOST_PLACES as usize;

/// The batches of the places 0, 1, 2 and so on of a view, up to 1,024, and for each place, how many messages of each member are
/// named before it. Contracts see the view and the list of the batches.
pub struct PlacedBatches {
    view: View,
    batches: Vec<Batch>,
    names: Vec<[u16; 16]>,
}

// Written out, so that whoever drops a value makes one call (docs/CONTRIBUTING.md).
impl Drop for PlacedBatches {
    fn drop(self) {
        let PlacedBatches {
            view,
            batches,
            names,
        } = self;
        mem::drop(view);
        mem::drop(batches);
        mem::drop(names);
    }
}

impl Model for PlacedBatches {
    ghost use Rattle.std.specs.Vec.{vec_capacity};
    ghost use Rattle.placed_batches.specs.Rows.{Prefix, IsPrefix};

    ghost Value = { Prefix };

    ghost view = { λ p. record { view = p.view; batches = p.batches.items } };

    ghost invariant = { λ p. IsPrefix p.view p.batches.items p.names.items (vec_capacity p.batches) (vec_capacity p.names) };
}

impl PlacedBatches {
    ghost use Rattle.placed_batches.specs.Rows.{Prefix};

    /// No place of the view. The memory for all of them is taken here.
    pub fn new(alloc: Global, view: View) -> Result<PlacedBatches, NoMemory>
        ensures { IfOk result (λ p. p ≡ record { view = view; batches = [] }) }
    {
        let _members = view.members();
        let batches = Vec::with_capacity(alloc, PLACES)?;
        let mut names = Vec::with_capacity(alloc, PLACES + 1)?;
        names.push([0; 16])?;
        Ok(PlacedBatches {
            view,
            batches,
            names,
        })
    }

    /// Forgets all places, and turns to this view.
    pub fn turn_to(&mut self, view: View)
        ensures { self.new ≡ record { view = view; batches = [] } }
    {
        let _members = view.members();
        self.batches.clear();
        self.names.clear();
        let Ok(()) = self.names.push([0; 16]) else {
            unreachable!()
        };
        self.view = view;
    }

    /// Forgets all places but the first `count`.
    pub fn truncate(&mut self, count: u16)
        ensures { self.new ≡ record self.old { batches = take count self.old.batches } }
    {
        self.batches.truncate(count as usize);
        self.names.truncate(count as usize + 1);
    }

    /// How many places there are, 0 to 1,024.
    pub fn len(&self) -> u16
        ensures { result ≡ length self.now.batches }
    {
        self.batches.len() as u16
    }

    /// The batch of the place; None exactly where there are no more places.
    pub fn batch(&self, place: u16) -> Option<Batch>
        ensures { result ≡ slice_get self.now.batches place }
    {
        self.batches.get(place as usize).copied()
    }

    /// For each member, in rank order, how many of its messages the batches of the places before this one name.
    pub fn names_before(&self, place: u16) -> &[u16]
        requires { place ≤ length self.now.batches }
        ensures { result.now ≡ counts_in self.now.view (messages (take place self.now.batches)) }
    {
        &self.names[place as usize][..self.view.members().len()]
    }

    /// Puts the batch of the next place after the others. It takes no memory.
    pub fn push(&mut self, batch: Batch)
        requires { length self.old.batches < 1024 }
        ensures view { self.new.view ≡ self.old.view }
        ensures batches { self.new.batches ≡ self.old.batches ++ batch ∷ [] }
    {
        let _few = batch.len();
        let mut row = self.names[self.batches.len()];
        count_batch(&self.view, &batch, &mut row);
        let Ok(()) = self.batches.push(batch) else {
            unreachable!()
        };
        let Ok(()) = self.names.push(row) else {
            unreachable!()
        };
    }
}
