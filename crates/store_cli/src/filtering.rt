//! An input, line by line, each written as what it becomes before the next one is read.
ghost use Rattle.std.specs.Prelude.{◌≡◌, ◌⊎◌, IfErr, IfOk, IsErrOf, OnErr, OnOk, Some, None, option_map};
ghost use Rattle.std.specs.Io.KnownBytes.{Appends};
ghost use Rattle.rp_base.specs.Causes.{Rose};
ghost use Rattle.rp_base.specs.Streams.{AppendsPrefix, WritesLine};
ghost use Rattle.store_text_defs.specs.Filters.{becomes};
ghost use Rattle.store_cli.specs.Running.{Ran, Stepped};

use crate::stops::Stop;
use line_input::{Lines, Next};
use rp_base::{Sink, Source, write_all};
use std::alloc::Global;
use store_telling::{Filter, made_of};

/// How many bytes a line may have.
const MOST_LINE: usize = 8_388_608;

// What the line of this number becomes.
fn made_by(alloc: Global, filter: Filter, number: u64, line: &[u8]) -> Result<Vec<u8>, Stop>
    ensures made { IfOk result (λ bytes. becomes filter line.now ≡ Some bytes.items) }
    ensures none { IfErr result (λ stop. (stop ≡ Stop.NoMemory) ⊎ ((stop ≡ Stop.Faulty number) × (becomes filter line.now ≡ None))) }
{
    match made_of(alloc, filter, line)? {
        Some(bytes) => Ok(bytes),
        None => Err(Stop::Faulty(number)),
    }
}

// Takes the next line, which has this number, and writes what it becomes. Answers whether there was a line.
fn step<S: Source, K: Sink>(
    alloc: Global,
    filter: Filter,
    number: u64,
    lines: &mut Lines,
    input: &mut S,
    output: &mut K,
) -> Result<bool, Stop>
    ensures stepped { Stepped filter number (S.left input.old) (S.left input.new) lines.old.ahead lines.new.ahead
        (K.written output.old) (K.written output.new) result }
    ensures steady { OnOk result ((S.faults input.new ≡ S.faults input.old) × (K.faults output.new ≡ K.faults output.old)) }
    ensures read { IsErrOf result Stop.Read → Rose (S.faults input.old) (S.faults input.new) }
    ensures write { IsErrOf result Stop.Write → Rose (K.faults output.old) (K.faults output.new) }
    ensures no_read { IfErr result (λ stop. (stop ≡ Stop.Read) ⊎ (S.faults input.new ≡ S.faults input.old)) }
    ensures no_write { IfErr result (λ stop. (stop ≡ Stop.Write) ⊎ (K.faults output.new ≡ K.faults output.old)) }
{
    match lines.read(input, MOST_LINE)? {
        Next::End => Ok(false),
        Next::Broken => Err(Stop::Faulty(number)),
        Next::Line => {
            let made = made_by(alloc, filter, number, lines.line())?;
            write_all(output, &made)?;
            Ok(true)
        }
    }
}

/// Filters an input up to its end.
pub(crate) fn run<S: Source, K: Sink>(
    alloc: Global,
    filter: Filter,
    input: &mut S,
    output: &mut K,
) -> Result<(), Stop>
    ensures ran { Ran filter (S.left input.old) (S.left input.new) (K.written output.old) (K.written output.new) result }
    ensures steady { OnOk result ((S.faults input.new ≡ S.faults input.old) × (K.faults output.new ≡ K.faults output.old)) }
    ensures read { IsErrOf result Stop.Read → Rose (S.faults input.old) (S.faults input.new) }
    ensures write { IsErrOf result Stop.Write → Rose (K.faults output.old) (K.faults output.new) }
    ensures no_read { IfErr result (λ stop. (stop ≡ Stop.Read) ⊎ (S.faults input.new ≡ S.faults input.old)) }
    ensures no_write { IfErr result (λ stop. (stop ≡ Stop.Write) ⊎ (K.faults output.new ≡ K.faults output.old)) }
{
    let mut lines = Lines::new(alloc);
    'each: for number in 1..u64::MAX {
        if !step(alloc, filter, number, &mut lines, input, output)? {
            return Ok(());
        }
    }
    Err(Stop::NoMemory)
}
