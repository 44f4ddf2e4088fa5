//! From bytes to a report.
ghost use Rattle.std.specs.Prelude.{◌≡◌, Ok, Err, IfOk, IfErr};
ghost use Rattle.replay_defs.specs.Reports.{report_of};
ghost use Rattle.replay_run.specs.Faults.{fault};
ghost use Rattle.replay_run.specs.Reported.{IsReported};

use crate::fault::ReplayFault;
use crate::pieces::PIECE_BYTES;
use crate::under_way::Replay;
use rp_base::NoMemory;
use std::alloc::Global;

/// The report of the schedule that these bytes spell, long or short (docs/FORMATS.md, «The report»), or why there is none.
///
/// # Errors
/// `NoMemory` where memory runs out, which says nothing of the bytes.
pub fn replay(
    alloc: Global,
    bytes: &[u8],
    short: bool,
) -> Result<Result<Vec<u8>, ReplayFault>, NoMemory>
    // What is written is the report that the definitions give, and nothing else.
    ensures report { IfOk result (λ r. IfOk r (λ report. report_of short bytes.now ≡ Ok report.items)) }

    // Else they give none, by this fault.
    ensures stops { IfOk result (λ r. IfErr r (λ f. report_of short bytes.now ≡ Err (fault f))) }

    // A report is of the schedule's own world and family, and of that family the headline holds: where what was handed over of correct
    // processes is their own word, and in each installed view at most f members are not correct, they agree and are sound.
    ensures headline { IfOk result (λ r. IfOk r (λ report. IsReported short bytes.now report.items)) }
{
    let mut replay = Replay::new(alloc)?;
    let mut rest = bytes;
    'pieces: while let [_, ..] = rest {
        let (piece, more) = rest.split_at(rest.len().min(PIECE_BYTES));
        replay = replay.feed(piece)?;
        rest = more;
    }
    replay.end(short)
}
