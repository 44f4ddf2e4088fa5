// The functions on words (FIPS 180-4, section 4.1.2), on each lane of a vector.
ghost use Rattle.std.specs.Prelude.{◌≡◌, ℕ, ◌<◌, ◌*◌, ◌/◌, ◌%◌, ◌^◌, if◌then◌else◌, nat_lt, slice_index, bit_and, bit_xor};
ghost use Rattle.std.specs.Int.{w32, bit_not, rotate_right};
ghost use Rattle.sha2.specs.Sha256.{add32, big_sigma0, big_sigma1, ch, maj, small_sigma0, small_sigma1};

use std::simd::u32x4;

/// The sum modulo 2^32 in each lane.
#[inline(always)]
pub fn add(x: u32x4, y: u32x4) -> u32x4
    ensures { (j : ℕ) → j < 4 → slice_index result j ≡ add32 (slice_index x j) (slice_index y j) }
{
    x + y
}

/// A number in all lanes.
#[inline(always)]
pub fn splat(k: u32) -> u32x4
    ensures { (j : ℕ) → j < 4 → slice_index result j ≡ k }
{
    u32x4::splat(k)
}

#[inline(always)]
fn xor(x: u32x4, y: u32x4) -> u32x4
    ensures { (j : ℕ) → j < 4 → slice_index result j ≡ bit_xor (slice_index x j) (slice_index y j) }
{
    x ^ y
}

#[inline(always)]
fn and(x: u32x4, y: u32x4) -> u32x4
    ensures { (j : ℕ) → j < 4 → slice_index result j ≡ bit_and (slice_index x j) (slice_index y j) }
{
    x & y
}

#[inline(always)]
fn not(x: u32x4) -> u32x4
    ensures { (j : ℕ) → j < 4 → slice_index result j ≡ bit_not w32 (slice_index x j) }
{
    !x
}

/// A shift to the left in each lane.
#[inline(always)]
pub fn shift_left(x: u32x4, k: u32) -> u32x4
    requires { k < 32 }
    ensures { (j : ℕ) → j < 4 → slice_index result j ≡ slice_index x j * 2 ^ k % 2 ^ 32 }
{
    x << u32x4::splat(k)
}

/// A shift to the right in each lane.
#[inline(always)]
pub fn shift_right(x: u32x4, k: u32) -> u32x4
    requires { k < 32 }
    ensures { (j : ℕ) → j < 4 → slice_index result j ≡ slice_index x j / 2 ^ k }
{
    x >> u32x4::splat(k)
}

#[inline(always)]
fn rotate_right(x: u32x4, k: u32) -> u32x4
    requires { (0 < k) × (k < 32) }
    ensures { (j : ℕ) → j < 4 → slice_index result j ≡ rotate_right w32 (slice_index x j) k }
{
    (x >> u32x4::splat(k)) | (x << u32x4::splat(32 - k))
}

/// `x` in each lane where `a` is less than `b`, and elsewhere `y`.
#[inline(always)]
pub fn choose(a: u32x4, b: u32x4, x: u32x4, y: u32x4) -> u32x4
    ensures { (j : ℕ) → j < 4 → slice_index result j
        ≡ (if nat_lt (slice_index a j) (slice_index b j) then slice_index x j else slice_index y j) }
{
    a.simd_lt(b).select(x, y)
}

// The standard's form: the shorter `z ^ (x & (y ^ z))` is compiled to as many operations and one copy more.
#[inline(always)]
pub(crate) fn ch(x: u32x4, y: u32x4, z: u32x4) -> u32x4
    ensures { (j : ℕ) → j < 4 → slice_index result j ≡ ch (slice_index x j) (slice_index y j) (slice_index z j) }
{
    xor(and(x, y), and(not(x), z))
}

// One round's `x ^ y` is the next round's `y ^ z`, so it is computed once.
#[inline(always)]
pub(crate) fn maj(x: u32x4, y: u32x4, z: u32x4) -> u32x4
    ensures { (j : ℕ) → j < 4 → slice_index result j ≡ maj (slice_index x j) (slice_index y j) (slice_index z j) }
{
    xor(y, and(xor(x, y), xor(y, z)))
}

// A rotation goes through xor, so the four functions below rotate `two` or `three` words that are joined already, which takes
// fewer copies of `x` than to rotate each alone.
#[inline(always)]
pub(crate) fn big_sigma0(x: u32x4) -> u32x4
    ensures { (j : ℕ) → j < 4 → slice_index result j ≡ big_sigma0 (slice_index x j) }
{
    let two = xor(x, rotate_right(x, 9));
    let three = xor(x, rotate_right(two, 11));
    rotate_right(three, 2)
}

#[inline(always)]
pub(crate) fn big_sigma1(x: u32x4) -> u32x4
    ensures { (j : ℕ) → j < 4 → slice_index result j ≡ big_sigma1 (slice_index x j) }
{
    let two = xor(x, rotate_right(x, 14));
    let three = xor(x, rotate_right(two, 5));
    rotate_right(three, 6)
}

#[inline(always)]
pub(crate) fn small_sigma0(x: u32x4) -> u32x4
    ensures { (j : ℕ) → j < 4 → slice_index result j ≡ small_sigma0 (slice_index x j) }
{
    let two = xor(x, rotate_right(x, 11));
    xor(rotate_right(two, 7), shift_right(x, 3))
}

#[inline(always)]
pub(crate) fn small_sigma1(x: u32x4) -> u32x4
    ensures { (j : ℕ) → j < 4 → slice_index result j ≡ small_sigma1 (slice_index x j) }
{
    let two = xor(x, rotate_right(x, 2));
    xor(rotate_right(two, 17), shift_right(x, 10))
}
