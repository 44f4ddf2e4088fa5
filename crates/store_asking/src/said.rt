//! A line before the replies: a reply key, or the view.
ghost use Rattle.std.specs.Prelude.{◌≡◌, IfSome, option_map};
ghost use Rattle.text_defs.specs.Words.{words_of};
ghost use Rattle.text_codec.specs.Views.{parts_left};
ghost use Rattle.kit_defs.specs.Kits.{roster_of};
ghost use Rattle.sig_scheme.specs.Views.{scheme as scheme_in};
ghost use Rattle.store_defs.specs.Asking as plain;
ghost use Rattle.store_asking.specs.Lines.{IsAbove, IsNext, are_below, key_above, said, said_by, with_key};

use crate::words::last_word;
use rp_base::{Pid, PidSet, Roster};
use sig_scheme::{AnyScheme, PublicKey};
use store_words::{key_in, listed_process};
use text_codec::Parts as Words;
use view_table::View;
use view_words::view_by;

/// What a line says that comes before the replies.
#[derive(Drop)]
pub(crate) enum Said {
    /// The key that signs the replies of a process.
    ReplyKey { process: Pid, key: PublicKey },

    /// The view whose members are asked.
    Of(View),
}

// Whether each process of the set is below this one.
fn are_all_below(set: PidSet, p: Pid) -> bool
    ensures { result ≡ are_below set p }
{
    let mut rest = set;
    'rest: while let Some(q) = rest.pop_first() {
        if q >= p {
            return false;
        }
    }
    true
}

// The reply key that the words after `replykey` say: of a process of the roster, above those whose keys were given.
fn key_behind(
    scheme: AnyScheme,
    roster: &Roster,
    reported: PidSet,
    mut words: Words<'_>,
) -> Option<Said>
    ensures said { option_map said result
        ≡ option_map with_key (key_above (scheme_in scheme) (roster_of roster.now) reported (parts_left words.entry)) }
    ensures above { IfSome result (λ s. IsAbove reported (said s)) }
{
    let first = words.next()?;
    let second = last_word(words)?;
    let process = listed_process(roster, first)?;
    if !are_all_below(reported, process) {
        return None;
    }
    let key = key_in(scheme, second)?;
    Some(Said::ReplyKey { process, key })
}

// The same, where these keys were given.
fn reply_key_by(scheme: AnyScheme, roster: &Roster, keys: &Roster, words: Words<'_>) -> Option<Said>
    ensures said { option_map said result
        ≡ option_map with_key (plain.reply_key_by (scheme_in scheme) (roster_of roster.now) keys.now (parts_left words.entry)) }
    ensures next { IfSome result (λ s. IsNext keys.now (said s)) }
{
    key_behind(scheme, roster, keys.processes(), words)
}

// What the words of a line say.
fn said_in(scheme: AnyScheme, roster: &Roster, keys: &Roster, mut words: Words<'_>) -> Option<Said>
    ensures said { option_map said result ≡ said_by (scheme_in scheme) (roster_of roster.now) keys.now (parts_left words.entry) }
    ensures next { IfSome result (λ s. IsNext keys.now (said s)) }
{
    let word = words.next()?;
    if word == b"view".as_slice() {
        return Some(Said::Of(view_by(words)?));
    }
    if word == b"replykey".as_slice() {
        return reply_key_by(scheme, roster, keys, words);
    }
    None
}

/// What a line says, given without its line feed, in a group of this scheme and roster, where these reply keys were given before it; None
/// exactly where it is no reply key of a further process, and no view.
pub(crate) fn read_said(
    scheme: AnyScheme,
    roster: &Roster,
    keys: &Roster,
    line: &[u8],
) -> Option<Said>
    ensures said { option_map said result ≡ said_by (scheme_in scheme) (roster_of roster.now) keys.now (words_of line.now) }
    ensures next { IfSome result (λ s. IsNext keys.now (said s)) }
{
    said_in(scheme, roster, keys, Words::words(line))
}
