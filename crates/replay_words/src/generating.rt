ghost use Rattle.std.specs.Prelude.{◌≡◌, ◌⊎◌, OnOk, IfOk, IfErr, IsErrOf};
ghost use Rattle.std.specs.Io.KnownBytes.{Appends};
ghost use Rattle.rp_base.specs.Causes.{Rose};
ghost use Rattle.rp_base.specs.Streams.{AppendsPrefix};
ghost use Rattle.replay_words.specs.Answers.{schedule_of_number};

use crate::stops::Stop;
use rp_base::{NoMemory, Sink, write_all};
use schedule_file::write_schedule;
use schedule_making::generate;
use std::alloc::Global;

/// The bytes of the schedule that the number makes.
fn generated_bytes(alloc: Global, number: u32) -> Result<Vec<u8>, NoMemory>
    ensures { IfOk result (λ bytes. bytes.items ≡ schedule_of_number number) }
{
    let schedule = generate(alloc, number)?;
    let mut bytes = Vec::new(alloc);
    write_schedule(&schedule, &mut bytes)?;
    Ok(bytes)
}

/// Makes the schedule of this number, and writes it. Nothing is written before all of it is made.
pub fn write_generated<K: Sink>(alloc: Global, number: u32, output: &mut K) -> Result<(), Stop>
    ensures done { OnOk result (Appends (K.written output.old) (K.written output.new) (schedule_of_number number)) }
    ensures steady { OnOk result (K.faults output.new ≡ K.faults output.old) }
    ensures write { IsErrOf result Stop.Write
        → AppendsPrefix (K.written output.old) (K.written output.new) (schedule_of_number number) }
    ensures write_failed { IsErrOf result Stop.Write → Rose (K.faults output.old) (K.faults output.new) }
    ensures untouched { IfErr result (λ stop. (stop ≡ Stop.Write) ⊎ (output.new ≡ output.old)) }
    ensures only { IfErr result (λ stop. (stop ≡ Stop.NoMemory) ⊎ (stop ≡ Stop.Write)) }
{
    let bytes = generated_bytes(alloc, number)?;
    match write_all(output, &bytes) {
        Ok(()) => Ok(()),
        Err(_) => Err(Stop::Write),
    }
}
