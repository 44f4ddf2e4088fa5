ghost use Rattle.std.specs.Prelude.{◌≡◌, ◌≢◌, ◌↔◌, ◌≤◌, ◌<◌, ◌+◌, ◌==◌, ◌++◌, [], ◌∷◌, length, position, IfSome, IsSome, IsTrue, IfOk, IfErr, Ok, Err, AllPairs};
ghost use Rattle.byte_defs.specs.Choices.{first_that_holds};
ghost use Rattle.message_defs.specs.Updates.{Remove, Add};
ghost use Rattle.group_defs.specs.Views as views;
ghost use Rattle.rp_base.specs.Views as base;
ghost use Rattle.view_table.specs.Views.{as_view, fault, IsNumberedView};

use arrayvec::ArrayVec;
use rp_base::{Pid, Update, UpdateFault};
use std::alloc::AllocError;
use std::marker::Model;

/// The greatest number of a view.
const LAST_NUMBER: u16 = 1_023;

/// The most members of a view.
const MOST_MEMBERS: usize = 16;

/// The members of a view in rank order.
type Members = ArrayVec<Pid, MOST_MEMBERS>;

/// A view: its number, 0 to 1,023, and its members in rank order, 1 to 16, each once. The first is the manager, and
/// those after it are its deputies. Contracts see it as the definitions' view.
#[derive(Debug, Drop)]
pub struct View {
    number: u16,
    members: Members,
}

impl Model for View {
    ghost use Rattle.group_defs.specs.Views as views;
    ghost use Rattle.view_table.specs.Views.{as_view, IsNumberedView};

    ghost Value = { views.View };

    ghost view = { λ v. as_view v.number v.members.items };

    ghost invariant = { λ v. IsNumberedView (as_view v.number v.members.items) };
}

// Whether no process occurs twice.
fn are_distinct(members: &[Pid]) -> bool
    ensures { IsTrue result ↔ AllPairs (λ m n. m ≢ n) members.now }
{
    for (i, member) in members.iter().enumerate() {
        if members[..i].contains(member) {
            return false;
        }
    }
    true
}

// The place of the first that is this process.
fn place_of(members: &[Pid], p: Pid) -> Option<usize>
    ensures value { result ≡ position (λ q. q == p) members.now }
    ensures below { IfSome result (λ i. i < length members.now) }
{
    members.iter().position(|m| *m == p)
}

// The same members.
fn copied(members: &[Pid]) -> Members
    requires { length members.now ≤ 16 }
    ensures { result.items ≡ members.now }
{
    ArrayVec::try_from(members).unwrap()
}

// The members that are left where this one leaves, closed up.
fn without(members: &[Pid], p: Pid) -> Members
    requires { length members.now ≤ 16 }
    ensures { result.items ≡ views.members_after members.now (Remove p) }
{
    let mut left = Members::new();
    for member in members {
        if *member != p {
            left.push(*member);
        }
    }
    left
}

// The members with one more, the last.
fn with(members: &[Pid], p: Pid) -> Members
    requires { length members.now < 16 }
    ensures { result.items ≡ views.members_after members.now (Add p) }
{
    let mut more = copied(members);
    more.push(p);
    more
}

// The members after the update, or the first reason, apart from the number, why there are none.
fn members_after(view: &View, update: Update) -> Result<Members, UpdateFault>
    ensures follows { IfOk result (λ ms. (first_that_holds (views.update_faults view.now (base.update update)) ≡ None)
        × (ms.items ≡ views.members_after view.now.members (base.update update))) }
    ensures refused { IfErr result (λ e. first_that_holds (views.update_faults view.now (base.update update)) ≡ Some (fault e)) }
{
    let members = view.members.as_slice();
    match update {
        Update::Remove(p) => {
            if !view.is_member(p) {
                Err(UpdateFault::NotMember)
            } else if members.len() == 1 {
                Err(UpdateFault::LastMember)
            } else {
                Ok(without(members, p))
            }
        }
        Update::Add(p) => {
            if view.is_member(p) {
                Err(UpdateFault::AlreadyMember)
            } else if members.len() == MOST_MEMBERS {
                Err(UpdateFault::GroupFull)
            } else {
                Ok(with(members, p))
            }
        }
        Update::Renew => Ok(copied(members)),
    }
}

/// A copy, which takes no memory.
impl Clone for View {
    ghost use Rattle.std.specs.Prelude.{◌≡◌, ⊤};

    ghost is_clone = { λ v w. w ≡ v };

    ghost is_infallible = { λ _. ⊤ };

    fn clone(&self) -> Result<View, AllocError> {
        Ok(View {
            number: self.number,
            members: copied(&self.members),
        })
    }
}

impl View {
    /// The view of this number with these members in rank order; None exactly where the number passes 1,023, there are
    /// no members or more than 16, or one occurs twice.
    pub fn new(number: u16, members: &[Pid]) -> Option<View>
        ensures value { IfSome result (λ v. v ≡ as_view number members.now) }
        ensures exactly { IsSome result ↔ IsNumberedView (as_view number members.now) }
    {
        if number > LAST_NUMBER || members.is_empty() || !are_distinct(members) {
            return None;
        }
        let members = ArrayVec::try_from(members).ok()?;
        Some(View { number, members })
    }

    /// The number, 0 to 1,023.
    pub fn number(&self) -> u16
        ensures value { result ≡ self.now.number }
        ensures within { IsNumberedView self.now }
    {
        self.number
    }

    /// The members in rank order, 1 to 16, each once.
    pub fn members(&self) -> &[Pid]
        ensures value { result.now ≡ self.now.members }
        ensures within { IsNumberedView self.now }
    {
        self.members.as_slice()
    }

    /// Whether the process is a member.
    pub fn is_member(&self, p: Pid) -> bool
        ensures { result ≡ views.is_member self.now p }
    {
        self.members.contains(&p)
    }

    /// The member's place in rank order, 0 for the manager; None exactly where the process is no member.
    pub fn rank_of(&self, p: Pid) -> Option<u8>
        ensures value { result ≡ views.rank_of self.now p }
        ensures below { IfSome result (λ r. r < length self.now.members) }
    {
        let rank = place_of(&self.members, p)?;
        Some(rank as u8)
    }
}

/// The view that follows by an update: its number is the next one, and its members are those that a Remove leaves,
/// closed up, those with the process of an Add after them, or the same ones at a Renew. Where no view follows, the
/// error is the first reason, in the order of `UpdateFault`.
pub fn next(view: &View, update: Update) -> Result<View, UpdateFault>
    ensures follows { IfOk result (λ v. views.next view.now (base.update update) ≡ Ok v) }
    ensures refused { IfErr result (λ e. views.next view.now (base.update update) ≡ Err (fault e)) }
{
    if view.number == LAST_NUMBER {
        return Err(UpdateFault::ViewsSpent);
    }
    let members = members_after(view, update)?;
    Ok(View {
        number: view.number + 1,
        members,
    })
}
