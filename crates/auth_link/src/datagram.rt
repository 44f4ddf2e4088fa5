//! A datagram is
//!
//! | Field | Bytes |
//! |---|---|
//! | the letters `RPD1` | 4 |
//! | group | 16 |
//! | from, to | 1 each |
//! | frame | all that are left |
//! | tag | 32 |
ghost use Rattle.std.specs.Prelude.{◌≡◌, ◌+◌, ◌-◌, ◌≤◌, ◌<◌, ◌++◌, [], ◌∷◌, length, take, drop, slice_index, IfSome, IsSome, IfOk, Ok, Err, IsTrue, ◌↔◌};
ghost use Rattle.byte_defs.specs.Reads.{Gives};
ghost use Rattle.link_defs.specs.Datagrams.{Datagram, Comes, opened, opened_parts, sealed, tagged, to_me, magic};
ghost use Rattle.auth_link.specs.Keys.{pair_key, known, group_of, own_number};
ghost use Rattle.auth_link.specs.Opening.{parts, sent_by};

use crate::keys::LinkKeys;
use crate::tag::hmac;
use link_defs::LinkFault;
use rp_base::Pid;

const MAGIC: [u8; 4] = *b"RPD1";

const FRAME_BEGINS: usize = 22;

const TAG_BYTES: usize = 32;

/// By how many bytes a datagram is longer than its frame.
pub const SEAL_BYTES: usize = 54;

/// The most bytes of a frame.
pub const FRAME_BYTES: usize = 61000;

/// A frame, and who sent it: a process that knows the key that the receiver shares with `from`.
#[derive(Clone, Copy)]
pub struct Opened<'a> {
    /// The sender.
    pub from: Pid,

    /// The frame. It may be empty, and is to be read like any bytes of the outside.
    pub frame: &'a [u8],
}

/// Writes the datagram in which the frame goes to that process to the front of `out`, and answers its length: 54 bytes
/// more than the frame has.
pub fn seal_into(keys: &LinkKeys, to: Pid, frame: &[u8], out: &mut [u8]) -> usize
    requires shared { IsSome (pair_key keys.now to) }
    requires frame { length frame.now ≤ 61000 }
    requires room { length frame.now + 54 ≤ length out.old }
    ensures count { result ≡ length frame.now + 54 }
    ensures sealed { IfSome (pair_key keys.now to) (λ key. take result out.new ≡ sealed key (sent_by keys.now to frame.now)) }
    ensures behind { drop result out.new ≡ drop result out.old }
{
    let Some(key) = keys.key(to) else {
        unreachable!();
    };
    let (body, rest) = out.split_at_mut(FRAME_BEGINS + frame.len());
    tagged_into(keys, to, frame, body);
    let tag = hmac(key, body);
    put_front(rest, &tag);
    frame.len() + SEAL_BYTES
}

fn put_front(out: &mut [u8], bytes: &[u8])
    requires { length bytes.now ≤ length out.old }
    ensures { out.new ≡ bytes.now ++ drop (length bytes.now) out.old }
{
    out[..bytes.len()].copy_from_slice(bytes);
}

// The bytes before the tag.
fn tagged_into(keys: &LinkKeys, to: Pid, frame: &[u8], out: &mut [u8])
    requires { length out.old ≡ 22 + length frame.now }
    ensures { out.new ≡ tagged (sent_by keys.now to frame.now) }
{
    let (head, rest) = out.split_at_mut(FRAME_BEGINS);
    head_into(keys, to, head);
    rest.copy_from_slice(frame);
}

fn head_into(keys: &LinkKeys, to: Pid, out: &mut [u8])
    requires { length out.old ≡ 22 }
    ensures { out.new ≡ magic ++ group_of keys.now ++ own_number keys.now ∷ to ∷ [] }
{
    let (letters, rest) = out.split_at_mut(4);
    letters.copy_from_slice(&MAGIC);
    let (name, rest) = rest.split_at_mut(16);
    name.copy_from_slice(keys.group.bytes());
    rest[0] = keys.me.get();
    rest[1] = to.get();
}

/// Opens a datagram: who sent it, and the frame. Any bytes may come. A fault is the first that holds.
pub fn unseal<'a>(keys: &LinkKeys, datagram: &'a [u8]) -> Result<Opened<'a>, LinkFault>
    // What is opened was tagged with the key that is shared with the sender.
    ensures found { IfOk result (λ o. Comes (known keys.now) datagram.now (to_me (known keys.now) o.from o.frame.now)) }

    // What was so tagged is opened.
    ensures only { (d : Datagram) → Comes (known keys.now) datagram.now d → Gives parts result (Ok (d.from, d.frame)) }

    // Which fault it is.
    ensures exact { Gives parts result (opened (known keys.now) datagram.now) }
{
    open(keys, keys.group.bytes(), datagram)
}

#[tactic(auto, unfolding(link_defs::specs::Datagrams::opened, link_defs::specs::Datagrams::least_bytes, link_defs::specs::Datagrams::tag_bytes))]
fn open<'a>(keys: &LinkKeys, group: &[u8; 16], datagram: &'a [u8]) -> Result<Opened<'a>, LinkFault>
    requires { group.now ≡ group_of keys.now }
    ensures { Gives parts result (opened (known keys.now) datagram.now) }
{
    if datagram.len() < SEAL_BYTES {
        return Err(LinkFault::Short);
    }
    let (tagged, tag) = datagram.split_at(datagram.len() - TAG_BYTES);
    open_parts(keys, group, tagged, tag)
}

#[tactic(auto, unfolding(link_defs::specs::Datagrams::opened_parts))]
fn open_parts<'a>(
    keys: &LinkKeys,
    group: &[u8; 16],
    tagged: &'a [u8],
    tag: &[u8],
) -> Result<Opened<'a>, LinkFault>
    requires group { group.now ≡ group_of keys.now }
    requires fields { 22 ≤ length tagged.now }
    ensures { Gives parts result (opened_parts (known keys.now) tagged.now tag.now) }
{
    if &tagged[..4] != MAGIC.as_slice() {
        return Err(LinkFault::Magic);
    }
    if &tagged[4..20] != group.as_slice() {
        return Err(LinkFault::OtherGroup);
    }
    if tagged[21] != keys.me.get() {
        return Err(LinkFault::NotForMe);
    }
    let Some(from) = keys.sender(tagged[20]) else {
        return Err(LinkFault::UnknownPeer);
    };
    let Some(key) = keys.key(from) else {
        return Err(LinkFault::UnknownPeer);
    };
    if tag != hmac(key, tagged).as_slice() {
        return Err(LinkFault::BadTag);
    }
    let (_, frame) = tagged.split_at(FRAME_BEGINS);
    Ok(Opened { from, frame })
}
