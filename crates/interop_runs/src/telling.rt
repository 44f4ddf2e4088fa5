ghost use Rattle.std.specs.Prelude.{◌≡◌, ◌++◌, ◌≤◌, codes, drop, length, map, OnOk};
ghost use Rattle.std.specs.List.{flat_map};
ghost use Rattle.text_defs.specs.Words.{bytes_word};
ghost use Rattle.rp_devices.specs.Disks.{held};
ghost use Rattle.rp_devices.specs.Held.{left_of};
ghost use Rattle.rp_devices.specs.Links.{link_sent, ported};
ghost use Rattle.interop_runs.specs.Devices.{disk_within, link_within};
ghost use Rattle.interop_runs.specs.Telling.{before_stop, cut_text, datagram_word, end_text, ended_text, further_word, images_text, sent_word};

use crate::outside::Outside;
use rp_base::NoMemory;
use rp_devices::{Datagram, Left, MemDisk, MemLink};
use text_codec::{push_byte_list, push_number};

/// What a node says last where a call of its disk failed. A run that is cut off in such a call has said it after that.
const DISK_FAILED: &[u8] = b"stop 5 disk\n";

/// The byte that the third image is made of.
const TORN: u8 = 0xa5;

// The port and the bytes.
fn push_datagram(out: &mut Vec<u8>, datagram: &Datagram) -> Result<(), NoMemory>
    ensures { OnOk result (out.new.items ≡ out.old.items ++ datagram_word (ported datagram.now)) }
{
    push_number(out, datagram.port.into())?;
    out.extend_from_slice(b":")?;
    push_byte_list(out, &datagram.bytes)
}

// Each after a comma.
fn push_further(out: &mut Vec<u8>, datagrams: &[Datagram]) -> Result<(), NoMemory>
    ensures { OnOk result (out.new.items ≡ out.old.items ++ flat_map further_word (map ported datagrams.now)) }
{
    for datagram in datagrams {
        out.extend_from_slice(b",")?;
        push_datagram(out, datagram)?;
    }
    Ok(())
}

// The list of them, or a dash.
fn push_datagrams(out: &mut Vec<u8>, datagrams: &[Datagram]) -> Result<(), NoMemory>
    ensures { OnOk result (out.new.items ≡ out.old.items ++ sent_word (map ported datagrams.now)) }
{
    match datagrams.split_first() {
        None => {
            out.extend_from_slice(b"-")?;
            Ok(())
        }
        Some((first, further)) => {
            push_datagram(out, first)?;
            push_further(out, further)
        }
    }
}

// What was sent after those that waited.
fn push_sent(out: &mut Vec<u8>, link: &MemLink, waiting: usize) -> Result<(), NoMemory>
    ensures { OnOk result (out.new.items ≡ out.old.items ++ sent_word (drop waiting (link_sent link.now))) }
{
    let sent = link.sent();
    let (_, since) = sent.split_at(waiting.min(sent.len()));
    push_datagrams(out, since)
}

// What was written before the run was cut off.
fn written_before(written: &[u8]) -> &[u8]
    ensures { result.now ≡ before_stop written.now }
{
    match written.strip_suffix(DISK_FAILED) {
        Some(before) => before,
        None => written,
    }
}

// One image.
fn push_image(out: &mut Vec<u8>, disk: &MemDisk, left: Left) -> Result<(), NoMemory>
    ensures { OnOk result (out.new.items ≡ out.old.items ++ bytes_word (left_of left (held disk.now))) }
{
    let image = disk.image(left)?;
    push_byte_list(out, &image)
}

// Three images of the disk.
fn push_images(out: &mut Vec<u8>, disk: &MemDisk) -> Result<(), NoMemory>
    ensures { OnOk result (out.new.items ≡ out.old.items ++ images_text disk.now) }
{
    push_image(out, disk, Left::Nothing)?;
    out.extend_from_slice(b" ")?;
    push_image(out, disk, Left::All)?;
    out.extend_from_slice(b" ")?;
    push_image(out, disk, Left::Each(TORN))
}

// What is written of a run that was cut off.
fn push_cut(out: &mut Vec<u8>, outside: &Outside, waiting: usize) -> Result<(), NoMemory>
    ensures { OnOk result (out.new.items ≡ out.old.items ++ cut_text waiting outside.now) }
{
    out.extend_from_slice(b"stopped ")?;
    push_byte_list(out, written_before(outside.output.bytes()))?;
    out.extend_from_slice(b" - ")?;
    push_sent(out, &outside.link.inner, waiting)?;
    out.extend_from_slice(b" ")?;
    push_images(out, &outside.disk.inner)
}

// What is written of a run that came to its end.
fn push_ended(
    out: &mut Vec<u8>,
    status: u8,
    outside: &Outside,
    waiting: usize,
) -> Result<(), NoMemory>
    ensures { OnOk result (out.new.items ≡ out.old.items ++ ended_text waiting status outside.now) }
{
    push_number(out, status.into())?;
    out.extend_from_slice(b" ")?;
    push_byte_list(out, outside.output.bytes())?;
    out.extend_from_slice(b" ")?;
    push_byte_list(out, outside.disk.inner.bytes())?;
    out.extend_from_slice(b" ")?;
    push_sent(out, &outside.link.inner, waiting)
}

/// What a run came to that ended with this status, or was cut off, where `waiting` datagrams waited.
pub(crate) fn push_end(
    out: &mut Vec<u8>,
    status: u8,
    outside: &Outside,
    waiting: usize,
) -> Result<(), NoMemory>
    ensures { OnOk result (out.new.items ≡ out.old.items ++ end_text waiting status outside.now) }
{
    if outside.disk.is_cut {
        push_cut(out, outside, waiting)
    } else {
        push_ended(out, status, outside, waiting)
    }
}
