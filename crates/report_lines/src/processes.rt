//! What a report says of a process.
ghost use Rattle.std.specs.Prelude.{◌≡◌, ◌++◌, ◌∷◌, [], ℕ, List, codes, length, map, sum, IfOk, OnOk, if◌then◌else◌};
ghost use Rattle.std.specs.List.{flat_map, join_with_byte};
ghost use Rattle.std.specs.Fmt.{decimal};
ghost use Rattle.byte_defs.specs.Members.{has};
ghost use Rattle.text_defs.specs.Words.{space, line_text};
ghost use Rattle.group_defs.specs.Process.{Process};
ghost use Rattle.replay_defs.specs.Reports as plain;
ghost use Rattle.view_phases.specs.Phases.{word};
ghost use Rattle.report_lines.specs.Phases.{phase_name};
ghost use Rattle.report_lines.specs.AsReported.{IsAsReported, halted_text};

use crate::histories::{push_deliveries, push_views};
use crate::process_report::ProcessReport;
use crate::words::{end_line, push_number_word, push_word};
use accounts::Delivered;
use rp_base::{NoMemory, Pid, PidSet};
use view_phases::PhaseWord;

fn phase_word(phase: PhaseWord) -> &'static [u8]
    ensures { result.now ≡ phase_name (word phase) }
{
    match phase {
        PhaseWord::Observing => b"observer",
        PhaseWord::OpenView => b"open",
        PhaseWord::ClosingView => b"closing",
        PhaseWord::DecidedView => b"decided",
        PhaseWord::HaltedView => b"halted",
    }
}

// How much was delivered in all views. More than fits into memory can't be kept.
fn delivered_in_all(delivered: &[Vec<Delivered>]) -> Result<u64, NoMemory>
    ensures { IfOk result (λ n. n ≡ sum (map (λ ds. length ds.items) delivered.now)) }
{
    let mut all = 0u64;
    for of_view in delivered {
        let more = of_view.as_slice().len() as u64;
        all = all.checked_add(more).ok_or(NoMemory)?;
    }
    Ok(all)
}

// The words of a process's line before its counts.
fn push_name(out: &mut Vec<u8>, me: Pid, phase: PhaseWord) -> Result<(), NoMemory>
    ensures { OnOk result (out.new.items
        ≡ out.old.items ++ join_with_byte space (codes "process" ∷ decimal me ∷ phase_name (word phase) ∷ [])) }
{
    out.extend_from_slice(b"process")?;
    push_number_word(out, me.get().into())?;
    push_word(out, phase_word(phase))
}

// The counts of a process's first line, and the line feed.
fn push_counts(out: &mut Vec<u8>, views: u64, delivered: u64, signed: u64) -> Result<(), NoMemory>
    ensures { OnOk result (out.new.items ≡ out.old.items ++ space ∷ line_text (decimal views ∷ decimal delivered ∷ decimal signed ∷ [])) }
{
    push_number_word(out, views)?;
    push_number_word(out, delivered)?;
    push_number_word(out, signed)?;
    end_line(out)
}

/// The first line of a process: its number and its phase, how many views it installed, how many messages it delivered in them, and how
/// many statements it signed.
pub fn push_process(out: &mut Vec<u8>, report: &ProcessReport<'_>) -> Result<(), NoMemory>
    ensures { (p : Process) → IsAsReported report.now p → OnOk result (out.new.items ≡ out.old.items ++ plain.process_line p) }
{
    let reported = report.account;
    let views = reported.views.as_slice().len() as u64;
    let delivered = delivered_in_all(&reported.delivered)?;
    push_name(out, reported.me, report.phase)?;
    push_counts(out, views, delivered, report.signed.into())?;
    Ok(())
}

fn push_liar(out: &mut Vec<u8>, me: Pid, liar: Pid) -> Result<(), NoMemory>
    ensures { OnOk result (out.new.items ≡ out.old.items ++ plain.liar_line me liar) }
{
    out.extend_from_slice(b"liar")?;
    push_number_word(out, me.get().into())?;
    push_number_word(out, liar.get().into())?;
    end_line(out)
}

// The signers with a kept conflict.
fn push_liars(out: &mut Vec<u8>, me: Pid, liars: PidSet) -> Result<(), NoMemory>
    ensures { OnOk result (out.new.items ≡ out.old.items ++ flat_map (plain.liar_line me) liars) }
{
    for liar in liars.iter() {
        push_liar(out, me, liar)?;
    }
    Ok(())
}

// Where its key was spent.
fn push_spent(out: &mut Vec<u8>, me: Pid, spent: bool) -> Result<(), NoMemory>
    ensures { OnOk result (out.new.items ≡ out.old.items ++ (if spent then line_text (codes "spent" ∷ decimal me ∷ []) else [])) }
{
    if !spent {
        return Ok(());
    }
    out.extend_from_slice(b"spent")?;
    push_number_word(out, me.get().into())?;
    end_line(out)
}

// Where it halted, how many places it delivered, and the cut.
fn push_halted(out: &mut Vec<u8>, me: Pid, halted: Option<(u16, u16)>) -> Result<(), NoMemory>
    ensures { OnOk result (out.new.items ≡ out.old.items ++ halted_text me halted) }
{
    let Some((delivered, cut)) = halted else {
        return Ok(());
    };
    out.extend_from_slice(b"halted")?;
    push_number_word(out, me.get().into())?;
    push_number_word(out, delivered.into())?;
    push_number_word(out, cut.into())?;
    end_line(out)
}

/// All lines of a process: its first one, its views, what it delivered, its liars, whether its key was spent, and where it halted.
pub fn push_block(
    out: &mut Vec<u8>,
    report: &ProcessReport<'_>,
    spent: bool,
) -> Result<(), NoMemory>
    ensures { (keys_spent : List ℕ) (p : Process) → has keys_spent p.me ≡ spent → IsAsReported report.now p
        → OnOk result (out.new.items ≡ out.old.items ++ plain.block keys_spent p) }
{
    let reported = report.account;
    let me = reported.me;
    push_process(out, report)?;
    push_views(out, me, &reported.views)?;
    push_deliveries(out, me, &reported.delivered)?;
    push_liars(out, me, report.liars)?;
    push_spent(out, me, spent)?;
    push_halted(out, me, report.halted)?;
    Ok(())
}
