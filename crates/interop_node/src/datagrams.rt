ghost use Rattle.std.specs.Prelude.{◌≡◌, IfOk, Ok};
ghost use Rattle.auth_link.specs.Keys.{known};
ghost use Rattle.auth_link.specs.Opening.{parts};
ghost use Rattle.interop_node.specs.Datagrams.{datagram_answer, fault_word, receiver, said};

use auth_link::{LinkFault, LinkKeys, Opened, unseal};
use rp_base::{GroupId, NoMemory, Pid};
use std::alloc::Global;
use text_codec::{push_byte_list, push_number};

const GROUP: [u8; 16] = [0, 1, 2, 3, 4, 5, 6, 7, 8, 9, 10, 11, 12, 13, 14, 15];

/// The process that is asked.
const RECEIVER: u8 = 2;

/// The process with which it shares a key.
const SENDER: u8 = 1;

// What the receiver has, who shares this key with the sender.
fn keys_with(key: &[u8; 32]) -> LinkKeys
    ensures { known result ≡ receiver key.now }
{
    let (Some(me), Some(sender)) = (Pid::new(RECEIVER), Pid::new(SENDER)) else {
        unreachable!();
    };
    let mut keys = LinkKeys::new(me, GroupId(GROUP));
    keys.add(sender, key);
    keys
}

fn fault_word(fault: LinkFault) -> &'static [u8]
    ensures { result.now ≡ fault_word fault }
{
    match fault {
        LinkFault::Short => b"short",
        LinkFault::Magic => b"magic",
        LinkFault::OtherGroup => b"othergroup",
        LinkFault::NotForMe => b"notforme",
        LinkFault::UnknownPeer => b"unknownpeer",
        LinkFault::BadTag => b"badtag",
    }
}

// `opened`, the sender and the frame.
fn opened_words(alloc: Global, found: &Opened<'_>) -> Result<Vec<u8>, NoMemory>
    ensures { IfOk result (λ reported. reported.items ≡ said (Ok (parts found.now))) }
{
    let mut reported = b"opened ".to_vec(alloc)?;
    push_number(&mut reported, found.from.get().into())?;
    reported.extend_from_slice(b" ")?;
    push_byte_list(&mut reported, found.frame)?;
    Ok(reported)
}

/// What process 2 of the group 000102..0f opens of the bytes as a datagram, which shares the key with process 1: `opened FROM FRAME`, or
/// the word of the first fault.
pub(crate) fn answer_datagram(
    alloc: Global,
    key: &[u8; 32],
    bytes: &[u8],
) -> Result<Vec<u8>, NoMemory>
    ensures { IfOk result (λ reported. reported.items ≡ datagram_answer key.now bytes.now) }
{
    let keys = keys_with(key);
    match unseal(&keys, bytes) {
        Ok(found) => opened_words(alloc, &found),
        Err(fault) => Ok(fault_word(fault).to_vec(alloc)?),
    }
}
