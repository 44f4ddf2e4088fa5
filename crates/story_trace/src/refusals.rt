//! Why a process refuses what it is handed.
ghost use Rattle.std.specs.Prelude.{◌≡◌, ◌++◌, ◌∷◌, [], codes, OnOk};
ghost use Rattle.std.specs.List.{flat_map};
ghost use Rattle.text_defs.specs.Words.{space, line_text};
ghost use Rattle.replay_defs.specs.Reports.{refusal_word as plain_refusal_word};
ghost use Rattle.trace_defs.specs.Happenings.{handed_words};
ghost use Rattle.happenings.specs.Reported.{handed as handed_view};
ghost use Rattle.view_table.specs.Views as table;
ghost use Rattle.happenings.specs.Events as asked;
ghost use Rattle.trace_defs.specs.Outcomes as plain;

use crate::handed::push_handed;
use happenings::Handed;
use member_events::EventFault;
use message_defs::FrameFault;
use rp_base::{NoMemory, Pid, UpdateFault};
use story_words::{Word, begin_said, end_line, push_more, refusal_word};

fn frame_reason(fault: FrameFault) -> &'static [u8]
    ensures { result.now ≡ plain.frame_reason fault }
{
    match fault {
        FrameFault::Short => b"the bytes end in the midst of a field",
        FrameFault::Version => b"the bytes begin with no version that is known",
        FrameFault::Kind => b"no frame is of this kind",
        FrameFault::Count => b"a frame has no such count",
        FrameFault::Length => b"a length is out of its range",
        FrameFault::Unordered => b"the signers do not rise",
        FrameFault::Trailing => b"more bytes follow behind the frame",
        FrameFault::Statement => b"what is signed is no statement",
        FrameFault::Range => b"a number is out of its range",
        FrameFault::Misplaced => b"a frame of this kind carries no such statement",
    }
}

fn update_reason(fault: UpdateFault) -> &'static [u8]
    ensures { result.now ≡ plain.update_reason (table.fault fault) }
{
    match fault {
        UpdateFault::ViewsSpent => b"no number is left for a view",
        UpdateFault::AlreadyMember => b"that process is a member already",
        UpdateFault::GroupFull => b"the view has as many members as a view may have",
        UpdateFault::NotMember => b"that process is no member",
        UpdateFault::LastMember => b"no member would be left",
    }
}

/// Why an event is refused, in plain words.
fn refusal_reason(fault: EventFault) -> &'static [u8]
    ensures { result.now ≡ plain.refusal_reason (asked.fault fault) }
{
    match fault {
        EventFault::HaltedNow { .. } => b"it has halted for good",
        EventFault::BadFrame(fault) => frame_reason(fault),
        EventFault::Outsider => b"it is no member of its view",
        EventFault::TooLong => b"a payload has at most 1024 bytes",
        EventFault::Backlog => b"256 payloads wait to be delivered",
        EventFault::NoKey => b"nobody has a key of that process",
        EventFault::NoNext(fault) => update_reason(fault),
    }
}

// The word of a report, and why.
fn push_reason(out: &mut Vec<u8>, fault: EventFault) -> Result<(), NoMemory>
    ensures { OnOk result (out.new.items ≡ out.old.items
        ++ flat_map (λ w. space ∷ w) (codes "as" ∷ plain_refusal_word (asked.fault fault) ∷ codes "since"
        ∷ plain.refusal_reason (asked.fault fault) ∷ [])) }
{
    push_more(
        out,
        &[
            Word::Text(b"as"),
            Word::Text(refusal_word(fault)),
            Word::Text(b"since"),
            Word::Text(refusal_reason(fault)),
        ],
    )
}

/// That a process refuses what it is handed, and why.
pub(crate) fn push_refusal(
    out: &mut Vec<u8>,
    at: Pid,
    handed: Handed,
    fault: EventFault,
) -> Result<(), NoMemory>
    ensures { OnOk result (out.new.items ≡ out.old.items
        ++ flat_map line_text (plain.refusal_line at (handed_words (handed_view handed)) (asked.fault fault) ∷ [])) }
{
    begin_said(out, at, &[Word::Text(b"refuses")])?;
    push_handed(out, handed)?;
    push_reason(out, fault)?;
    end_line(out)?;
    Ok(())
}
