//! Refused steps, and the word of each reason.
ghost use Rattle.std.specs.Prelude.{◌≡◌, ◌++◌, OnOk};
ghost use Rattle.view_table.specs.Views as table;
ghost use Rattle.ending_rules.specs.Perceiving as asked;
ghost use Rattle.replay_defs.specs.Reports as plain;

use crate::words::{end_line, push_number_word, push_word};
use member_events::EventFault;
use message_defs::FrameFault;
use rp_base::{NoMemory, Pid, UpdateFault};

/// Why bytes are no frame of claims.
pub fn frame_word(fault: FrameFault) -> &'static [u8]
    ensures { result.now ≡ plain.frame_word fault }
{
    match fault {
        FrameFault::Short => b"short",
        FrameFault::Version => b"version",
        FrameFault::Kind => b"kind",
        FrameFault::Count => b"count",
        FrameFault::Length => b"length",
        FrameFault::Unordered => b"unordered",
        FrameFault::Trailing => b"trailing",
        FrameFault::Statement => b"statement",
        FrameFault::Range => b"range",
        FrameFault::Misplaced => b"misplaced",
    }
}

/// Why no view follows by an update.
pub fn update_word(fault: UpdateFault) -> &'static [u8]
    ensures { result.now ≡ plain.update_word (table.fault fault) }
{
    match fault {
        UpdateFault::ViewsSpent => b"viewsspent",
        UpdateFault::AlreadyMember => b"alreadymember",
        UpdateFault::GroupFull => b"groupfull",
        UpdateFault::NotMember => b"notmember",
        UpdateFault::LastMember => b"lastmember",
    }
}

/// Why an event was refused.
pub fn refusal_word(fault: EventFault) -> &'static [u8]
    ensures { result.now ≡ plain.refusal_word (asked.fault fault) }
{
    match fault {
        EventFault::HaltedNow { .. } => b"halted",
        EventFault::BadFrame(fault) => frame_word(fault),
        EventFault::Outsider => b"outsider",
        EventFault::TooLong => b"toolong",
        EventFault::Backlog => b"backlog",
        EventFault::NoKey => b"nokey",
        EventFault::NoNext(fault) => update_word(fault),
    }
}

/// In which event which process refused a step, and why.
pub fn push_refused(
    out: &mut Vec<u8>,
    event: u64,
    process: Pid,
    fault: EventFault,
) -> Result<(), NoMemory>
    ensures { OnOk result (out.new.items ≡ out.old.items
        ++ plain.refused_line (record { event = event; process = process; fault = asked.fault fault })) }
{
    out.extend_from_slice(b"refused")?;
    push_number_word(out, event)?;
    push_number_word(out, process.get().into())?;
    push_word(out, refusal_word(fault))?;
    end_line(out)
}
