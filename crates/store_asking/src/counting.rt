//! The replies, line by line to the end of the input.
ghost use Rattle.std.specs.Prelude.{◌≡◌, ◌⊎◌, ◌<◌, IfErr, IfOk, IfSome, IsErrOf, Err, Ok, true, false};
ghost use Rattle.rp_base.specs.Causes.{Rose};
ghost use Rattle.line_input.specs.Places.{Ends, Leads, Settles};
ghost use Rattle.kit_reading.specs.Fronts.{front_fault};
ghost use Rattle.store_defs.specs.Asking.{most_replies};
ghost use Rattle.store_asking.specs.Places.{vote_at, vote_place};
ghost use Rattle.store_asking.specs.Counts.{place_of};

use crate::question::{MOST_LINE_BYTES, line_fault, number_behind};
use crate::replies::offer_line;
use kit_reading::{FrontFault, Kit, Lines, Next};
use rp_base::{Roster, Source};
use std::alloc::Global;
use vote_client::Vote;

/// The most replies.
const MOST_REPLIES: usize = 1024;

// A vote under way: the number of the next line, and how many replies may still come.
#[derive(Drop)]
struct Count {
    vote: Vote,
    number: usize,
    left: usize,
}

// Takes the next line and offers its reply. Answers whether there was one: else the input has ended.
fn next_reply<S: Source>(
    alloc: Global,
    kit: &Kit,
    keys: &Roster,
    count: &mut Count,
    lines: &mut Lines,
    input: &mut S,
) -> Result<bool, FrontFault>
    ensures counted { result ≡ Ok true → Leads (vote_at (place_of kit.now keys.now count.old lines.old.ahead)) (S.left input.old) (S.left input.new)
        (vote_at (place_of kit.now keys.now count.new lines.new.ahead)) }
    ensures fewer { result ≡ Ok true → count.new.left < count.old.left }
    ensures ended { result ≡ Ok false
        → Ends (vote_at (place_of kit.now keys.now count.old lines.old.ahead)) (S.left input.old) (S.left input.new) (Ok count.new.vote) }
    ensures refused { IfErr result (λ e. IfSome (front_fault e) (λ f.
        Settles (vote_at (place_of kit.now keys.now count.old lines.old.ahead)) (S.left input.old) (S.left input.new) (Err f))) }
    ensures failed { IsErrOf result FrontFault.Read → Rose (S.faults input.old) (S.faults input.new) }
    ensures steady { IsErrOf result FrontFault.Read ⊎ (S.faults input.new ≡ S.faults input.old) }
{
    match lines.read(input, MOST_LINE_BYTES)? {
        Next::End => Ok(false),
        Next::Broken => Err(line_fault(count.number)),
        Next::Line => {
            if count.left == 0 {
                return Err(line_fault(count.number));
            }
            offer_line(
                alloc,
                kit,
                keys,
                &mut count.vote,
                count.number,
                lines.line(),
            )?;
            count.number = number_behind(count.number)?;
            count.left -= 1;
            Ok(true)
        }
    }
}

/// Offers the replies of the lines from this number on to a vote, to the end of the input: 1,024 at most.
///
/// # Errors
/// The first line that is no reply of the process that it names, or one too many; `Read` only where a read failed; and `NoMemory`.
pub(crate) fn read_replies<S: Source>(
    alloc: Global,
    kit: &Kit,
    keys: &Roster,
    vote: Vote,
    first: usize,
    lines: &mut Lines,
    input: &mut S,
) -> Result<Vote, FrontFault>
    ensures counted { IfOk result (λ v. Ends (vote_at (vote_place kit.now keys.now first most_replies vote lines.old.ahead))
        (S.left input.old) (S.left input.new) (Ok v)) }
    ensures refused { IfErr result (λ e. IfSome (front_fault e) (λ f.
        Settles (vote_at (vote_place kit.now keys.now first most_replies vote lines.old.ahead)) (S.left input.old) (S.left input.new) (Err f))) }
    ensures failed { IsErrOf result FrontFault.Read → Rose (S.faults input.old) (S.faults input.new) }
    ensures steady { IsErrOf result FrontFault.Read ⊎ (S.faults input.new ≡ S.faults input.old) }
{
    let mut count = Count {
        vote,
        number: first,
        left: MOST_REPLIES,
    };
    'replies: loop {
        if !next_reply(alloc, kit, keys, &mut count, lines, input)? {
            let Count { vote, .. } = count;
            return Ok(vote);
        }
    }
}
