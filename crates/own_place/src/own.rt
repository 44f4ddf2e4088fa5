ghost use Rattle.std.specs.Prelude.{◌≡◌};
ghost use Rattle.own_place.specs.Marks.{IsMarkOf, IsSamePlace};

use crate::signed::SignedSlots;
use arrayvec::ArrayVec;
use claim_index::{Pid, PidSet, Value};
use std::mem;

/// What a process has signed and delivered in its view, and who it is. `IsOwnOf` of the specs relates it to the process.
pub struct Own {
    /// The own number.
    pub me: Pid,

    /// The own rank in the view, 0 for the manager; None where the process is no member.
    pub position: Option<u8>,

    /// The processes that the roster has a key of.
    pub keyed: PidSet,

    /// The slots that the process has signed in the view.
    pub signed: SignedSlots,

    /// Whether the process has signed the view's End.
    pub ended: bool,

    /// The greatest rank of the own Last, Ack and Ready statements of the view, 0 where there is none.
    pub rank: u8,

    /// The own Ready of greatest rank: its rank and its value.
    pub ready: Option<(u8, Value)>,

    /// How many Orders of the view the process has signed.
    pub ordered: u16,

    /// For each member, in rank order, how many of its messages the own Orders name.
    pub orders: ArrayVec<u16, 16>,

    /// How many places the process has delivered, 0 to 1,024.
    pub delivered: u16,

    /// For each member, in rank order, how many of its messages of this view the process has delivered.
    pub counts: ArrayVec<u16, 16>,

    /// How many own messages the process has delivered in the views before.
    pub earlier: u32,
}

// Written out, so that whoever drops a value makes one call (docs/CONTRIBUTING.md).
impl Drop for Own {
    fn drop(self) {
        let Own {
            me: _,
            position: _,
            keyed: _,
            signed,
            ended: _,
            rank: _,
            ready: _,
            ordered: _,
            orders: _,
            delivered: _,
            counts: _,
            earlier: _,
        } = self;
        mem::drop(signed);
    }
}

/// An own place as it was at a mark, but for the slots that were signed.
#[derive(Drop)]
pub struct OwnMark {
    me: Pid,
    position: Option<u8>,
    keyed: PidSet,
    ended: bool,
    rank: u8,
    ready: Option<(u8, Value)>,
    ordered: u16,
    orders: ArrayVec<u16, 16>,
    delivered: u16,
    counts: ArrayVec<u16, 16>,
    earlier: u32,
}

// Puts a copy of the counts into the place of others. It takes no memory.
fn copy(counts: &ArrayVec<u16, 16>, to: &mut ArrayVec<u16, 16>)
    ensures { to.new.items ≡ counts.now.items }
{
    to.clear();
    let Ok(()) = to.try_extend_from_slice(counts) else {
        unreachable!()
    };
}

impl OwnMark {
    /// Marks nothing yet: room for a mark.
    pub fn new(me: Pid) -> OwnMark
        ensures { result.me ≡ me }
    {
        OwnMark {
            me,
            position: None,
            keyed: PidSet::new(),
            ended: false,
            rank: 0,
            ready: None,
            ordered: 0,
            orders: ArrayVec::new(),
            delivered: 0,
            counts: ArrayVec::new(),
            earlier: 0,
        }
    }
}

impl Own {
    /// Marks the own place in `mark`, so that it can be gone back to. It is left where it is, since counts that are moved cost more than
    /// their copy.
    pub fn mark(&mut self, mark: &mut OwnMark)
        ensures marked { IsMarkOf mark.new self.old }
        ensures same { IsSamePlace self.old self.new }
        ensures slots { self.new.signed.marked ≡ self.old.signed.slots }
    {
        self.signed.mark();
        mark.me = self.me;
        mark.position = self.position;
        mark.keyed = self.keyed;
        mark.ended = self.ended;
        mark.rank = self.rank;
        mark.ready = self.ready;
        mark.ordered = self.ordered;
        copy(&self.orders, &mut mark.orders);
        mark.delivered = self.delivered;
        copy(&self.counts, &mut mark.counts);
        mark.earlier = self.earlier;
    }

    /// Goes back to what the own place was at the mark. It takes no memory.
    pub fn rewind(&mut self, mark: &OwnMark)
        ensures { (was : Own) → IsMarkOf mark.now was → self.old.signed.marked ≡ was.signed.slots → IsSamePlace was self.new }
    {
        self.signed.rewind();
        self.me = mark.me;
        self.position = mark.position;
        self.keyed = mark.keyed;
        self.ended = mark.ended;
        self.rank = mark.rank;
        self.ready = mark.ready;
        self.ordered = mark.ordered;
        copy(&mark.orders, &mut self.orders);
        self.delivered = mark.delivered;
        copy(&mark.counts, &mut self.counts);
        self.earlier = mark.earlier;
    }
}
