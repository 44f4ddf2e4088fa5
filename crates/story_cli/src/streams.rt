ghost use Rattle.std.specs.Prelude.{◌≡◌, ◌⊎◌, IfOk, IfErr, OnOk, IsErrOf};
ghost use Rattle.std.specs.Io.KnownBytes.{Consumes, IsAtEnd};
ghost use Rattle.rp_base.specs.Causes.{Rose};

use crate::stops::Stop;
use rp_base::Source;
use std::alloc::Global;

/// How many bytes are asked of a source at a time.
const PIECE: usize = 16_384;

/// All that is left of an input.
pub fn read_all<S: Source>(alloc: Global, input: &mut S) -> Result<Vec<u8>, Stop>
    ensures taken { IfOk result (λ all. Consumes (S.left input.old) (S.left input.new) all.items) }
    ensures ended { OnOk result (IsAtEnd (S.left input.new)) }
    ensures steady { OnOk result (S.faults input.new ≡ S.faults input.old) }
    ensures failed { IsErrOf result Stop.Read → Rose (S.faults input.old) (S.faults input.new) }
    ensures whole { IfErr result (λ stop. (stop ≡ Stop.Read) ⊎ (S.faults input.new ≡ S.faults input.old)) }
    ensures only { IfErr result (λ stop. (stop ≡ Stop.Read) ⊎ (stop ≡ Stop.NoMemory)) }
{
    let mut all = Vec::new(alloc);
    let mut piece = [0u8; PIECE];
    'pieces: for _ in 0..u64::MAX {
        let n = input.read(&mut piece)?;
        if n == 0 {
            return Ok(all);
        }
        all.extend_from_slice(&piece[..n])?;
    }
    Err(Stop::NoMemory)
}
