// Chains of a one-time key, four at a time, and all chains of equal lengths.
ghost use Rattle.std.specs.Prelude.{◌≡◌, ℕ, ◌<◌, ◌≤◌, ◌++◌, [], slice_index, slice_index_or};
ghost use Rattle.sha2.specs.Sha256.{digest_bytes, sha256};
ghost use Rattle.signature_defs.specs.Strings.{u8str, u16str};
ghost use Rattle.signature_defs.specs.LmOts.{chain};
ghost use Rattle.lms_chains.specs.Walks.{HasSteps, end_of};

use crate::lanes::{key_words, walk_four};
use sha256_lanes::{from_lane, to_lanes};
use std::simd::u32x4;

/// The most chains that a one-time key has: W1's p (RFC 8554, section 4.1).
pub const CHAINS: usize = 265;

/// A number for each chain. A key of fewer chains uses the first ones.
pub type Numbers = [u16; CHAINS];

/// A value for each chain.
pub type Values = [[u8; 32]; CHAINS];

/// Which steps each chain takes: from one step on, and before another. A chain has the steps 0 to 255.
#[derive(Clone, Copy)]
pub struct Steps {
    pub from: Numbers,
    pub to: Numbers,
}

fn gather(numbers: &Numbers, at: [u16; 4]) -> u32x4
    requires { (l : ℕ) → l < 4 → slice_index at l < 265 }
    ensures { (l : ℕ) → l < 4 → slice_index result l ≡ slice_index numbers.now (slice_index at l) }
{
    let [a, b, c, d] = at;
    u32x4::from_array([
        u32::from(numbers[usize::from(a)]),
        u32::from(numbers[usize::from(b)]),
        u32::from(numbers[usize::from(c)]),
        u32::from(numbers[usize::from(d)]),
    ])
}

fn numbers_in_lanes(at: [u16; 4]) -> u32x4
    ensures { (l : ℕ) → l < 4 → slice_index result l ≡ slice_index at l }
{
    let [a, b, c, d] = at;
    u32x4::from_array([u32::from(a), u32::from(b), u32::from(c), u32::from(d)])
}

fn starts_of(starts: &Values, at: [u16; 4]) -> [[u8; 32]; 4]
    requires { (l : ℕ) → l < 4 → slice_index at l < 265 }
    ensures { (l : ℕ) → l < 4 → slice_index_or result l [] ≡ slice_index_or starts.now (slice_index at l) [] }
{
    let [a, b, c, d] = at;
    [
        starts[usize::from(a)],
        starts[usize::from(b)],
        starts[usize::from(c)],
        starts[usize::from(d)],
    ]
}

fn least(numbers: &Numbers, at: [u16; 4]) -> u16
    requires { (l : ℕ) → l < 4 → slice_index at l < 265 }
    ensures { (l : ℕ) → l < 4 → result ≤ slice_index numbers.now (slice_index at l) }
{
    let [a, b, c, d] = at;
    numbers[usize::from(a)]
        .min(numbers[usize::from(b)])
        .min(numbers[usize::from(c)])
        .min(numbers[usize::from(d)])
}

fn greatest(numbers: &Numbers, at: [u16; 4]) -> u16
    requires { (l : ℕ) → l < 4 → slice_index at l < 265 }
    ensures above { (l : ℕ) → l < 4 → slice_index numbers.now (slice_index at l) ≤ result }
    ensures one { (n : ℕ) → ((l : ℕ) → l < 4 → slice_index numbers.now (slice_index at l) ≤ n) → result ≤ n }
{
    let [a, b, c, d] = at;
    numbers[usize::from(a)]
        .max(numbers[usize::from(b)])
        .max(numbers[usize::from(c)])
        .max(numbers[usize::from(d)])
}

// The ends of the chains of these numbers.
fn walk_these(key: &[u32; 5], at: [u16; 4], steps: &Steps, starts: &Values) -> [[u8; 32]; 4]
    requires at { (l : ℕ) → l < 4 → slice_index at l < 265 }
    requires steps { (l : ℕ) → l < 4 → HasSteps steps.now.from steps.now.to (slice_index at l) }
    ensures { (l : ℕ) → l < 4 → slice_index_or result l []
        ≡ end_of (digest_bytes key.now 5) steps.now.from steps.now.to starts.now (slice_index at l) }
{
    let first = u32::from(least(&steps.from, at));
    let last = u32::from(greatest(&steps.to, at));
    let from = gather(&steps.from, at);
    let to = gather(&steps.to, at);
    let start = to_lanes(&starts_of(starts, at));
    let end = walk_four(key, numbers_in_lanes(at), first, last, from, to, start);
    [
        from_lane(&end, 0),
        from_lane(&end, 1),
        from_lane(&end, 2),
        from_lane(&end, 3),
    ]
}

// Walks the chains of these numbers, and puts each end into its chain's place.
pub(crate) fn walk_into(
    key: &[u32; 5],
    at: [u16; 4],
    steps: &Steps,
    starts: &Values,
    ends: &mut Values,
)
    requires at { (l : ℕ) → l < 4 → slice_index at l < 265 }
    requires steps { (l : ℕ) → l < 4 → HasSteps steps.now.from steps.now.to (slice_index at l) }
    ensures there { (l : ℕ) → l < 4 → slice_index_or ends.new (slice_index at l) []
        ≡ end_of (digest_bytes key.now 5) steps.now.from steps.now.to starts.now (slice_index at l) }
    ensures kept { (i : ℕ) → slice_index_or ends.old i [] ≡ end_of (digest_bytes key.now 5) steps.now.from steps.now.to starts.now i
        → slice_index_or ends.new i [] ≡ end_of (digest_bytes key.now 5) steps.now.from steps.now.to starts.now i }
{
    let [p, q, r, s] = walk_these(key, at, steps, starts);
    let [a, b, c, d] = at;
    ends[usize::from(a)] = p;
    ends[usize::from(b)] = q;
    ends[usize::from(c)] = r;
    ends[usize::from(d)] = s;
}

// All chains, four neighbours at a time: for chains of like lengths. The last four may have a chain twice.
fn walk_in_order(key: &[u8; 20], count: u16, steps: &Steps, starts: &Values) -> Values
    requires count { count ≤ 265 }
    requires steps { (i : ℕ) → i < count → HasSteps steps.now.from steps.now.to i }
    ensures { (i : ℕ) → i < count → slice_index_or result i [] ≡ end_of key.now steps.now.from steps.now.to starts.now i }
{
    let words = key_words(key);
    let mut ends = [[0u8; 32]; CHAINS];
    'groups: for group in 0..(count + 3) / 4 {
        let i = 4 * group;
        let at = [
            i,
            (i + 1).min(count - 1),
            (i + 2).min(count - 1),
            (i + 3).min(count - 1),
        ];
        walk_into(&words, at, steps, starts, &mut ends);
    }
    ends
}

/// One number for all chains.
pub fn same(n: u16) -> Numbers
    ensures { (i : ℕ) → i < 265 → slice_index result i ≡ n }
{
    [n; CHAINS]
}

fn same_starts(seed: &[u8; 32]) -> Values
    ensures { (i : ℕ) → i < 265 → slice_index_or result i [] ≡ seed.now }
{
    [*seed; CHAINS]
}

/// The secret values at which the first `count` chains begin (RFC 8554, Appendix A).
pub fn secrets(key: &[u8; 20], count: u16, seed: &[u8; 32]) -> Values
    requires count { count ≤ 265 }
    ensures { (i : ℕ) → i < count → slice_index_or result i [] ≡ sha256 ((key.now ++ u16str i) ++ u8str 0xff ++ seed.now) }
{
    let steps = Steps {
        from: same(255),
        to: same(256),
    };
    walk_in_order(key, count, &steps, &same_starts(seed))
}

/// The values of the first `count` chains before step `to`, from those before step 0.
pub fn walk_alike(key: &[u8; 20], count: u16, to: u8, starts: &Values) -> Values
    requires count { count ≤ 265 }
    ensures { (i : ℕ) → i < count → slice_index_or result i [] ≡ chain (key.now ++ u16str i) 0 to (slice_index_or starts.now i []) }
{
    let steps = Steps {
        from: same(0),
        to: same(u16::from(to)),
    };
    walk_in_order(key, count, &steps, starts)
}
