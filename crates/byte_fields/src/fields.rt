//! Fields read from the front of bytes, and fields written at a place of bytes. Numbers are big-endian.
//!
//! | Field | Bytes |
//! |---|---|
//! | `u8`, `u16`, `u32`, `u64` | 1, 2, 4, 8 |
//! | bytes | as many as the caller says |
//!
//! A reader answers what it read and the bytes after it, or the fault that the caller names, exactly where the bytes
//! end within the field. A writer answers the place after the field.
ghost use Rattle.std.specs.Prelude.{◌+◌, ◌≤◌, length};
ghost use Rattle.std.specs.Int.{w8, w16, w32, w64, to_be_bytes};
ghost use Rattle.byte_defs.specs.Fields.{number_at};
ghost use Rattle.byte_defs.specs.Fields as fields;
ghost use Rattle.byte_defs.specs.Reads.{Gives};
ghost use Rattle.byte_fields.specs.Writes.{Puts};

/// One byte, and the bytes after it.
pub fn u8_at<E: Drop>(bytes: &[u8], fault: E) -> Result<(u8, &[u8]), E>
    ensures { Gives (λ x. (x.0, x.1.now)) result (number_at fault w8 bytes.now) }
{
    let [first, rest @ ..] = bytes else {
        return Err(fault);
    };
    Ok((*first, rest))
}

/// A number of two bytes, and the bytes after it.
pub fn u16_at<E: Drop>(bytes: &[u8], fault: E) -> Result<(u16, &[u8]), E>
    ensures { Gives (λ x. (x.0, x.1.now)) result (number_at fault w16 bytes.now) }
{
    if bytes.len() < 2 {
        return Err(fault);
    }
    let (front, rest) = bytes.split_at(2);
    Ok((u16::from_be_bytes([front[0], front[1]]), rest))
}

/// A number of four bytes, and the bytes after it.
pub fn u32_at<E: Drop>(bytes: &[u8], fault: E) -> Result<(u32, &[u8]), E>
    ensures { Gives (λ x. (x.0, x.1.now)) result (number_at fault w32 bytes.now) }
{
    if bytes.len() < 4 {
        return Err(fault);
    }
    let (front, rest) = bytes.split_at(4);
    Ok((
        u32::from_be_bytes([front[0], front[1], front[2], front[3]]),
        rest,
    ))
}

/// A number of eight bytes, and the bytes after it.
pub fn u64_at<E: Drop>(bytes: &[u8], fault: E) -> Result<(u64, &[u8]), E>
    ensures { Gives (λ x. (x.0, x.1.now)) result (number_at fault w64 bytes.now) }
{
    if bytes.len() < 8 {
        return Err(fault);
    }
    let (f, rest) = bytes.split_at(8);
    Ok((
        u64::from_be_bytes([f[0], f[1], f[2], f[3], f[4], f[5], f[6], f[7]]),
        rest,
    ))
}

/// `count` bytes, and those after them.
pub fn bytes_at<E: Drop>(bytes: &[u8], count: usize, fault: E) -> Result<(&[u8], &[u8]), E>
    ensures { Gives (λ x. (x.0.now, x.1.now)) result (fields.bytes_at fault count bytes.now) }
{
    if bytes.len() < count {
        return Err(fault);
    }
    Ok(bytes.split_at(count))
}

/// One byte, written at this place.
pub fn put_u8(out: &mut [u8], at: usize, value: u8) -> usize
    requires { at + 1 ≤ length out.old }
    ensures { Puts out.old out.new at (to_be_bytes w8 value) result }
{
    put_bytes(out, at, &value.to_be_bytes())
}

/// A number of two bytes, written at this place.
pub fn put_u16(out: &mut [u8], at: usize, value: u16) -> usize
    requires { at + 2 ≤ length out.old }
    ensures { Puts out.old out.new at (to_be_bytes w16 value) result }
{
    put_bytes(out, at, &value.to_be_bytes())
}

/// A number of four bytes, written at this place.
pub fn put_u32(out: &mut [u8], at: usize, value: u32) -> usize
    requires { at + 4 ≤ length out.old }
    ensures { Puts out.old out.new at (to_be_bytes w32 value) result }
{
    put_bytes(out, at, &value.to_be_bytes())
}

/// A number of eight bytes, written at this place.
pub fn put_u64(out: &mut [u8], at: usize, value: u64) -> usize
    requires { at + 8 ≤ length out.old }
    ensures { Puts out.old out.new at (to_be_bytes w64 value) result }
{
    put_bytes(out, at, &value.to_be_bytes())
}

/// These bytes, written at this place.
pub fn put_bytes(out: &mut [u8], at: usize, bytes: &[u8]) -> usize
    requires { at + length bytes.now ≤ length out.old }
    ensures { Puts out.old out.new at bytes.now result }
{
    let end = at + bytes.len();
    out[at..end].copy_from_slice(bytes);
    end
}
