// Chains of unlike lengths, walked four of like length at a time. Which four is advice: what is walked is noted,
// and a chain that is not noted is walked in the end.
ghost use Rattle.std.specs.Prelude.{◌≡◌, ℕ, ◌<◌, ◌≤◌, false, [], slice_index, slice_index_or};
ghost use Rattle.sha2.specs.Sha256.{digest_bytes};
ghost use Rattle.lms_chains.specs.Walks.{AreDone, HasSteps, end_of};

use crate::lanes::key_words;
use crate::walks::{CHAINS, Steps, Values, walk_into};

// The ends of the chains that are walked, and which these are.
#[derive(Clone, Copy)]
struct Walked {
    ends: Values,
    done: [bool; CHAINS],
}

// Four chains of like length; those before `place` wait to be walked.
#[derive(Clone, Copy)]
struct Group {
    at: [u16; 4],
    place: usize,
}

// Walks four chains, and notes that they are walked.
fn walk_and_note(key: &[u32; 5], at: [u16; 4], steps: &Steps, starts: &Values, walked: &mut Walked)
    requires at { (l : ℕ) → l < 4 → slice_index at l < 265 }
    requires steps { (l : ℕ) → l < 4 → HasSteps steps.now.from steps.now.to (slice_index at l) }
    requires sound { AreDone (digest_bytes key.now 5) steps.now.from steps.now.to starts.now walked.old.ends walked.old.done }
    ensures { AreDone (digest_bytes key.now 5) steps.now.from steps.now.to starts.now walked.new.ends walked.new.done }
{
    walk_into(key, at, steps, starts, &mut walked.ends);
    let [a, b, c, d] = at;
    walked.done[usize::from(a)] = true;
    walked.done[usize::from(b)] = true;
    walked.done[usize::from(c)] = true;
    walked.done[usize::from(d)] = true;
}

// Takes a chain into the group, and walks the group where it is full.
fn take_in(
    key: &[u32; 5],
    i: u16,
    group: &mut Group,
    steps: &Steps,
    starts: &Values,
    walked: &mut Walked,
)
    requires i { i < 265 }
    requires i_steps { HasSteps steps.now.from steps.now.to i }
    requires place { group.old.place < 4 }
    requires at { (l : ℕ) → l < 4 → slice_index group.old.at l < 265 }
    requires steps { (l : ℕ) → l < 4 → HasSteps steps.now.from steps.now.to (slice_index group.old.at l) }
    requires sound { AreDone (digest_bytes key.now 5) steps.now.from steps.now.to starts.now walked.old.ends walked.old.done }
    ensures place { group.new.place < 4 }
    ensures at { (l : ℕ) → l < 4 → slice_index group.new.at l < 265 }
    ensures steps { (l : ℕ) → l < 4 → HasSteps steps.now.from steps.now.to (slice_index group.new.at l) }
    ensures sound { AreDone (digest_bytes key.now 5) steps.now.from steps.now.to starts.now walked.new.ends walked.new.done }
{
    let place = group.place;
    group.at[place] = i;
    group.place = (place + 1) % 4;
    if place == 3 {
        walk_and_note(key, group.at, steps, starts, walked);
    }
}

// Takes the chains of one length into the group.
fn take_length(
    key: &[u32; 5],
    count: u16,
    length: u16,
    group: &mut Group,
    steps: &Steps,
    starts: &Values,
    walked: &mut Walked,
)
    requires count { count ≤ 265 }
    requires i_steps { (i : ℕ) → i < count → HasSteps steps.now.from steps.now.to i }
    requires place { group.old.place < 4 }
    requires at { (l : ℕ) → l < 4 → slice_index group.old.at l < 265 }
    requires steps { (l : ℕ) → l < 4 → HasSteps steps.now.from steps.now.to (slice_index group.old.at l) }
    requires sound { AreDone (digest_bytes key.now 5) steps.now.from steps.now.to starts.now walked.old.ends walked.old.done }
    ensures place { group.new.place < 4 }
    ensures at { (l : ℕ) → l < 4 → slice_index group.new.at l < 265 }
    ensures steps { (l : ℕ) → l < 4 → HasSteps steps.now.from steps.now.to (slice_index group.new.at l) }
    ensures sound { AreDone (digest_bytes key.now 5) steps.now.from steps.now.to starts.now walked.new.ends walked.new.done }
{
    'chains: for i in 0..count {
        let chain = usize::from(i);
        if steps.to[chain] - steps.from[chain] == length {
            take_in(key, i, group, steps, starts, walked);
        }
    }
}

// The most steps that a chain takes.
fn longest(count: u16, steps: &Steps) -> u16
    requires count { count ≤ 265 }
    requires steps { (i : ℕ) → i < count → HasSteps steps.now.from steps.now.to i }
{
    let mut most = 0;
    for i in 0..count {
        let at = usize::from(i);
        most = most.max(steps.to[at] - steps.from[at]);
    }
    most
}

fn none_walked() -> Walked
    ensures { (i : ℕ) → i < 265 → slice_index_or result.done i false ≡ false }
{
    Walked {
        ends: [[0u8; 32]; CHAINS],
        done: [false; CHAINS],
    }
}

// Walks chains in fours, the longest first. What is left is fewer than four and the shortest.
fn walk_in_fours(key: &[u32; 5], count: u16, steps: &Steps, starts: &Values) -> Walked
    requires some { 1 ≤ count }
    requires count { count ≤ 265 }
    requires steps { (i : ℕ) → i < count → HasSteps steps.now.from steps.now.to i }
    ensures { AreDone (digest_bytes key.now 5) steps.now.from steps.now.to starts.now result.ends result.done }
{
    let mut walked = none_walked();
    let mut group = Group {
        at: [0; 4],
        place: 0,
    };
    let most = longest(count, steps);
    'lengths: for less in 0..=most {
        take_length(
            key,
            count,
            most - less,
            &mut group,
            steps,
            starts,
            &mut walked,
        );
    }
    walked
}

// Walks the chains that are left, each alone.
fn walk_rest(key: &[u32; 5], count: u16, steps: &Steps, starts: &Values, walked: &mut Walked)
    requires count { count ≤ 265 }
    requires steps { (i : ℕ) → i < count → HasSteps steps.now.from steps.now.to i }
    requires sound { AreDone (digest_bytes key.now 5) steps.now.from steps.now.to starts.now walked.old.ends walked.old.done }
    ensures { (i : ℕ) → i < count
        → slice_index_or walked.new.ends i [] ≡ end_of (digest_bytes key.now 5) steps.now.from steps.now.to starts.now i }
{
    'rest: for i in 0..count {
        if !walked.done[usize::from(i)] {
            walk_into(key, [i; 4], steps, starts, &mut walked.ends);
        }
    }
}

/// Where the steps of the first `count` chains lead from `starts`, whatever their lengths.
pub fn walk_by_length(key: &[u8; 20], count: u16, steps: &Steps, starts: &Values) -> Values
    requires some { 1 ≤ count }
    requires count { count ≤ 265 }
    requires steps { (i : ℕ) → i < count → HasSteps steps.now.from steps.now.to i }
    ensures { (i : ℕ) → i < count → slice_index_or result i [] ≡ end_of key.now steps.now.from steps.now.to starts.now i }
{
    let words = key_words(key);
    let mut walked = walk_in_fours(&words, count, steps, starts);
    walk_rest(&words, count, steps, starts, &mut walked);
    walked.ends
}
