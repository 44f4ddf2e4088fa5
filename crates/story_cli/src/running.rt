//! Each command to its end.
ghost use Rattle.std.specs.Prelude.{◌≡◌, ◌⊎◌, ◌≢◌, IfOk, OnOk, IfErr, IsErrOf};
ghost use Rattle.std.specs.Io.KnownBytes.{Keeps};
ghost use Rattle.rp_base.specs.Causes.{Rose};
ghost use Rattle.rp_base.specs.Streams.{WritesLine};
ghost use Rattle.replay_defs.specs.declared.Fault.{Fault};
ghost use Rattle.story_defs.specs.declared.StoryFault.{StoryFault};
ghost use Rattle.story_cli.specs.Messages.{line_of, status_of};
ghost use Rattle.story_cli.specs.Top.{Given, IsNoSchedule, IsNoStory, Made, MadeInPart};

use crate::commands::Command;
use crate::giving::{picture_of, schedule_of_text, text_of_schedule, trace_of};
use crate::stops::Stop;
use crate::streams::read_all;
use rp_base::{Sink, Source, write_all};
use std::alloc::Global;

/// What the command makes of all that is left of an input.
pub fn made_of<S: Source>(alloc: Global, command: Command, input: &mut S) -> Result<Vec<u8>, Stop>
    ensures made { IfOk result (λ out. Given command (S.left input.old) (S.left input.new) out.items) }
    ensures steady { OnOk result (S.faults input.new ≡ S.faults input.old) }
    ensures read { IsErrOf result Stop.Read → Rose (S.faults input.old) (S.faults input.new) }
    ensures whole { IfErr result (λ stop. (stop ≡ Stop.Read) ⊎ (S.faults input.new ≡ S.faults input.old)) }
    ensures story { (fault : StoryFault) → IsErrOf result (Stop.Story fault)
        → IsNoStory command (S.left input.old) (S.left input.new) fault }
    ensures schedule { (fault : Fault) → IsErrOf result (Stop.Schedule fault)
        → IsNoSchedule command (S.left input.old) (S.left input.new) fault }
    ensures no_write { IfErr result (λ stop. stop ≢ Stop.Write) }
{
    let all = read_all(alloc, input)?;
    match command {
        Command::Assemble => schedule_of_text(alloc, &all),
        Command::Text => text_of_schedule(alloc, &all),
        Command::Run => trace_of(alloc, &all),
        Command::Draw => picture_of(alloc, &all),
    }
}

/// Writes what the command makes of the input.
pub fn run<S: Source, K: Sink>(
    alloc: Global,
    command: Command,
    input: &mut S,
    output: &mut K,
) -> Result<(), Stop>
    ensures done { OnOk result (Made command (S.left input.old) (S.left input.new) (K.written output.old) (K.written output.new)) }
    ensures steady { OnOk result ((S.faults input.new ≡ S.faults input.old) × (K.faults output.new ≡ K.faults output.old)) }
    ensures read { IsErrOf result Stop.Read → Rose (S.faults input.old) (S.faults input.new) }
    ensures whole { IfErr result (λ stop. (stop ≡ Stop.Read) ⊎ (S.faults input.new ≡ S.faults input.old)) }
    ensures write { IsErrOf result Stop.Write → Rose (K.faults output.old) (K.faults output.new) }
    ensures part { IsErrOf result Stop.Write
        → MadeInPart command (S.left input.old) (S.left input.new) (K.written output.old) (K.written output.new) }
    ensures story { (fault : StoryFault) → IsErrOf result (Stop.Story fault)
        → IsNoStory command (S.left input.old) (S.left input.new) fault }
    ensures schedule { (fault : Fault) → IsErrOf result (Stop.Schedule fault)
        → IsNoSchedule command (S.left input.old) (S.left input.new) fault }
    ensures untouched { IfErr result (λ stop. (stop ≡ Stop.Write) ⊎ (output.new ≡ output.old)) }
{
    let made = made_of(alloc, command, input)?;
    match write_all(output, &made) {
        Ok(()) => Ok(()),
        Err(_) => Err(Stop::Write),
    }
}

/// Writes a line, or a prefix of it where a write fails: a fault is no more than that.
pub fn say<E: Sink>(errors: &mut E, line: &[u8])
    ensures { WritesLine line.now (E.written errors.old) (E.written errors.new) (E.faults errors.old) (E.faults errors.new) }
{
    let _ = write_all(errors, line);
}

/// Writes the line that says why a run stops, and answers its status, or 1 where there is no memory for the line.
pub fn tell<E: Sink>(alloc: Global, errors: &mut E, stop: Stop) -> u8
    ensures write { stop ≡ Stop.Write → result ≡ 4 }
    ensures quiet { (result ≡ 0) ⊎ (result ≡ 1) ⊎ (result ≡ 4) → Keeps (E.written errors.old) (E.written errors.new) }
    ensures reported { (result ≡ 1) ⊎ ((result ≡ status_of stop)
        × WritesLine (line_of stop) (E.written errors.old) (E.written errors.new) (E.faults errors.old) (E.faults errors.new)) }
{
    let Ok(line) = stop.line(alloc) else {
        return Stop::NoMemory.status();
    };
    say(errors, &line);
    stop.status()
}
