ghost use Rattle.std.specs.Prelude.{◌≡◌, ◌⊎◌, ℕ, List, OnOk, IfOk, IfErr, IsErrOf};
ghost use Rattle.rp_base.specs.Causes.{Rose};
ghost use Rattle.replay_run.specs.Fed.{HasFed};
ghost use Rattle.replay_words.specs.Answers as reported;
ghost use Rattle.replay_words.specs.Answers.{Runs, HasNoRun, report_of_run, Replayed, Refused};

use crate::faults::stop_line;
use crate::stops::Stop;
use crate::streams::replay_pieces;
use replay_run::Replay;
use rp_base::{NoMemory, Source};
use std::alloc::Global;

/// The report of what was fed, long or short, or the line that says why it has none.
fn report_or_line(
    alloc: Global,
    replay: Replay,
    short: bool,
) -> Result<Result<Vec<u8>, Vec<u8>>, NoMemory>
    ensures report { (fed : List ℕ) → HasFed replay fed → IfOk result (λ r. IfOk r (λ report. (run : Runs fed)
        × (report.items ≡ report_of_run short run))) }
    ensures line { (fed : List ℕ) → HasFed replay fed → IfOk result (λ r. IfErr r (λ line. (none : HasNoRun fed)
        × (line.items ≡ reported.stop_line none.fault))) }
{
    match replay.end(short)? {
        Ok(report) => Ok(Ok(report)),
        Err(fault) => Ok(Err(stop_line(alloc, fault)?)),
    }
}

/// Replays an input as it comes, to its end: the answer is its report, long or short, or the line that says why it has none.
/// Nothing is written.
///
/// # Errors
/// [`Stop::Read`] only where the source's count of faults rose; [`Stop::NoMemory`].
pub fn replay_input<S: Source>(
    alloc: Global,
    short: bool,
    input: &mut S,
) -> Result<Result<Vec<u8>, Vec<u8>>, Stop>
    ensures report { IfOk result (λ r. IfOk r (λ report. (done : Replayed (S.left input.old) (S.left input.new))
        × (report.items ≡ report_of_run short done.run))) }
    ensures line { IfOk result (λ r. IfErr r (λ line. (none : Refused (S.left input.old) (S.left input.new))
        × (line.items ≡ reported.stop_line none.none.fault))) }
    ensures steady { OnOk result (S.faults input.new ≡ S.faults input.old) }
    ensures read { IsErrOf result Stop.Read → Rose (S.faults input.old) (S.faults input.new) }
    ensures only { IfErr result (λ stop. (stop ≡ Stop.NoMemory) ⊎ (stop ≡ Stop.Read)) }
{
    let replay = replay_pieces(alloc, input)?;
    Ok(report_or_line(alloc, replay, short)?)
}
