ghost use Rattle.std.specs.Prelude.{◌≡◌, IfOk, OnOk, IsErrOf};
ghost use Rattle.rp_base.specs.Causes.{Rose};
ghost use Rattle.replay_words.specs.Inputs.{WasFed};
ghost use Rattle.replay_words.specs.declared.streams.ReadFault.TheVariants as faults;

use replay_run::Replay;
use rp_base::{Failed, NoMemory, Source};
use schedule_fields::SCHEDULE_BYTES;
use std::alloc::Global;

/// How many bytes are asked of a source at a time.
const PIECE: usize = 16384;

/// Why an input was not read to its end.
#[derive(Clone, Copy, Debug, PartialEq, Eq)]
pub enum ReadFault {
    /// No memory is left.
    NoMemory,

    /// The source failed.
    Failed,
}

impl From<Failed> for ReadFault {
    ghost from_gives = { λ _ e. e ≡ faults.Failed };

    fn from(_: Failed) -> ReadFault {
        ReadFault::Failed
    }
}

impl From<NoMemory> for ReadFault {
    ghost from_gives = { λ _ e. e ≡ faults.NoMemory };

    fn from(_: NoMemory) -> ReadFault {
        ReadFault::NoMemory
    }
}

/// A replay of all that is left of an input, or of its first bytes where it is longer than a schedule may be. Each piece is replayed
/// as it comes, and is not kept.
#[tactic(auto, unfolding(replay_defs::specs::Schedules::most_bytes))]
pub fn replay_pieces<S: Source>(alloc: Global, input: &mut S) -> Result<Replay, ReadFault>
    ensures fed { IfOk result (WasFed (S.left input.old) (S.left input.new)) }
    ensures failed { IsErrOf result ReadFault.Failed → Rose (S.faults input.old) (S.faults input.new) }
    ensures steady { OnOk result (S.faults input.new ≡ S.faults input.old) }
{
    let mut replay = Replay::new(alloc)?;
    let mut taken = 0;
    let mut piece = [0u8; PIECE];
    'pieces: while taken <= SCHEDULE_BYTES {
        let n = input.read(&mut piece)?;
        if n == 0 {
            return Ok(replay);
        }
        replay = replay.feed(&piece[..n])?;
        taken += n;
    }
    Ok(replay)
}
