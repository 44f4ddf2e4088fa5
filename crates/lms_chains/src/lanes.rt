// Four chains of a one-time key side by side, with their values as words in lanes. The value begins at byte 23 of a step's
// block (chains.rt), so each of its words lies in two words of the block.
ghost use Rattle.std.specs.Prelude.{◌≡◌, ℕ, ◌+◌, ◌-◌, ◌<◌, ◌≤◌, ◌^◌, [], ◌∷◌, ◌++◌, length, slice_index};
ghost use Rattle.std.specs.Int.{w32, to_be_bytes};
ghost use Rattle.sha2.specs.Sha256.{digest_bytes, sha256, word_at};
ghost use Rattle.sha256_lanes.specs.Lanes.{lane};
ghost use Rattle.signature_defs.specs.Strings.{u8str, u16str};
ghost use Rattle.signature_defs.specs.LmOts.{chain};

use sha256_lanes::{add, choose, hash_short, shift_left, shift_right, splat};
use std::simd::u32x4;

fn word(key: &[u8; 20], at: usize) -> u32
    requires { at + 4 ≤ 20 }
    ensures { result ≡ word_at key.now at }
{
    u32::from_be_bytes([key[at], key[at + 1], key[at + 2], key[at + 3]])
}

// What each hash of a one-time key begins with, as words.
pub(crate) fn key_words(key: &[u8; 20]) -> [u32; 5]
    ensures { digest_bytes result 5 ≡ key.now }
{
    [
        word(key, 0),
        word(key, 4),
        word(key, 8),
        word(key, 12),
        word(key, 16),
    ]
}

// The word of a chain's number, a step's and the first byte of the value.
#[inline(always)]
fn first_word(number: u32x4, j: u32, value: u32x4) -> u32x4
    requires step { j < 256 }
    ensures { (l : ℕ) → l < 4 → slice_index number l < 2 ^ 16
        → slice_index result l ≡ word_at (u16str (slice_index number l) ++ u8str j ++ to_be_bytes w32 (slice_index value l)) 0 }
{
    add(
        add(shift_left(number, 16), splat(256 * j)),
        shift_right(value, 24),
    )
}

// The last three bytes of a word of the value, and the first of the next one.
#[inline(always)]
fn joined(word: u32x4, next: u32x4) -> u32x4
    ensures { (l : ℕ) → l < 4
        → slice_index result l ≡ word_at (to_be_bytes w32 (slice_index word l) ++ to_be_bytes w32 (slice_index next l)) 1 }
{
    add(shift_left(word, 8), shift_right(next, 24))
}

// The last three bytes of the value, and the first of the padding.
#[inline(always)]
fn last_word(word: u32x4) -> u32x4
    ensures { (l : ℕ) → l < 4 → slice_index result l ≡ word_at (to_be_bytes w32 (slice_index word l) ++ 0x80 ∷ []) 1 }
{
    add(shift_left(word, 8), splat(0x80))
}

// Step `j` of four chains.
#[inline(always)]
fn step(key: &[u32; 5], number: u32x4, j: u32, value: [u32x4; 8]) -> [u32x4; 8]
    requires step { j < 256 }
    ensures { (l : ℕ) → l < 4 → slice_index number l < 2 ^ 16
        → digest_bytes (lane l result) 8
        ≡ sha256 ((digest_bytes key.now 5 ++ u16str (slice_index number l)) ++ u8str j ++ digest_bytes (lane l value) 8) }
{
    let [a, b, c, d, e, f, g, h] = value;
    hash_short([
        splat(key[0]),
        splat(key[1]),
        splat(key[2]),
        splat(key[3]),
        splat(key[4]),
        first_word(number, j, a),
        joined(a, b),
        joined(b, c),
        joined(c, d),
        joined(d, e),
        joined(e, f),
        joined(f, g),
        joined(g, h),
        last_word(h),
        splat(0),
        splat(440),
    ])
}

// The next value where step `j` is one of the chain's, and elsewhere the value.
#[inline(always)]
fn pick(j: u32x4, from: u32x4, to: u32x4, next: u32x4, value: u32x4) -> u32x4
    ensures on { (l : ℕ) → l < 4 → slice_index from l ≤ slice_index j l → slice_index j l < slice_index to l
        → slice_index result l ≡ slice_index next l }
    ensures before { (l : ℕ) → l < 4 → slice_index j l < slice_index from l → slice_index result l ≡ slice_index value l }
    ensures after { (l : ℕ) → l < 4 → slice_index to l ≤ slice_index j l → slice_index result l ≡ slice_index value l }
{
    choose(j, to, choose(j, from, value, next), value)
}

// The values of four chains before step `j + 1`, from those before step `j`.
#[inline(always)]
fn go_on(
    key: &[u32; 5],
    number: u32x4,
    j: u32,
    from: u32x4,
    to: u32x4,
    value: [u32x4; 8],
) -> [u32x4; 8]
    requires step { j < 256 }
    ensures on { (l : ℕ) → l < 4 → slice_index number l < 2 ^ 16 → slice_index from l ≤ j → j < slice_index to l
        → digest_bytes (lane l result) 8
        ≡ sha256 ((digest_bytes key.now 5 ++ u16str (slice_index number l)) ++ u8str j ++ digest_bytes (lane l value) 8) }
    ensures before { (l : ℕ) → l < 4 → j < slice_index from l → lane l result ≡ lane l value }
    ensures after { (l : ℕ) → l < 4 → slice_index to l ≤ j → lane l result ≡ lane l value }
{
    let [n0, n1, n2, n3, n4, n5, n6, n7] = step(key, number, j, value);
    let [v0, v1, v2, v3, v4, v5, v6, v7] = value;
    let at = splat(j);
    [
        pick(at, from, to, n0, v0),
        pick(at, from, to, n1, v1),
        pick(at, from, to, n2, v2),
        pick(at, from, to, n3, v3),
        pick(at, from, to, n4, v4),
        pick(at, from, to, n5, v5),
        pick(at, from, to, n6, v6),
        pick(at, from, to, n7, v7),
    ]
}

// The values of four chains before step `to`, from those before step `from`, each chain with its own steps among those
// from `first` to `last`.
pub(crate) fn walk_four(
    key: &[u32; 5],
    number: u32x4,
    first: u32,
    last: u32,
    from: u32x4,
    to: u32x4,
    start: [u32x4; 8],
) -> [u32x4; 8]
    requires steps { last ≤ 256 }
    requires order { first ≤ last }
    ensures { (l : ℕ) → l < 4 → slice_index number l < 2 ^ 16 → first ≤ slice_index from l → slice_index from l ≤ slice_index to l
        → slice_index to l ≤ last → digest_bytes (lane l result) 8
        ≡ chain (digest_bytes key.now 5 ++ u16str (slice_index number l)) (slice_index from l)
        (slice_index to l - slice_index from l) (digest_bytes (lane l start) 8) }
{
    let mut value = start;
    'steps: for j in first..last {
        let next = go_on(key, number, j, from, to, value);
        value = next;
    }
    value
}
