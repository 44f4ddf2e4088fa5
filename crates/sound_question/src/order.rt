//! Whether the numbers of each sender are 0, 1, 2 and so on in each view.
ghost use Rattle.std.specs.Prelude.{◌≡◌, ◌<◌, map, length};
ghost use Rattle.std.specs.List.{list_all, range_with_len};
ghost use Rattle.group_defs.specs.Accounts as plain;
ghost use Rattle.accounts.specs.Views.{account};
ghost use Rattle.group_questions.specs.Letters.{letters};

use accounts::{Account, Delivered};
use group_questions::{longest_views, sequence_in};

/// How many process numbers there are.
const PROCESSES: usize = 64;

// The number of the message.
fn number_of(d: &Delivered) -> u32
    ensures value { result ≡ d.now.number }
    ensures below { result < 65536 }
{
    u32::from(d.number)
}

// Whether the numbers of each sender are in order: each is how many messages of its sender come before it.
fn is_in_order(sequence: &[Delivered]) -> bool
    ensures { result ≡ list_all (λ d. plain.is_in_order (letters sequence.now) d.message.sender) (letters sequence.now) }
{
    let mut counts = [0u32; PROCESSES];
    for d in sequence {
        let sender = usize::from(d.sender.get());
        if counts[sender] != number_of(d) {
            return false;
        }
        counts[sender] += 1;
    }
    true
}

// Whether the group's sequence of the view of this number is in order.
fn is_sound_in(accounts: &[Account], x: usize) -> bool
    ensures { result ≡ plain.is_sound_in (plain.group_of (map account accounts.now)) x }
{
    is_in_order(sequence_in(accounts, x))
}

/// Whether each of the group's sequences is in order.
pub(crate) fn are_in_order(accounts: &[Account]) -> bool
    ensures { result ≡ list_all (plain.is_sound_in (plain.group_of (map account accounts.now)))
        (range_with_len 0 (length (plain.group_of (map account accounts.now)).views)) }
{
    let views = longest_views(accounts);
    (0..views.len()).all(|x| is_sound_in(accounts, x))
}
