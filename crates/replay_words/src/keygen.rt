ghost use Rattle.std.specs.Prelude.{◌≡◌, ◌⊎◌, ◌++◌, OnOk, IfOk, IfErr, IsErrOf};
ghost use Rattle.std.specs.Io.KnownBytes.{Appends};
ghost use Rattle.rp_base.specs.Causes.{Rose};
ghost use Rattle.command_line.specs.Commands.{IsOrder};
ghost use Rattle.command_line.specs.Views.{order};
ghost use Rattle.rp_base.specs.Streams.{AppendsPrefix};
ghost use Rattle.replay_words.specs.Answers.{kit_of_order};

use crate::stops::Stop;
use command_line::KitOrder;
use kit_file::write_kit;
use kit_making::make_kit;
use rp_base::{NoMemory, Sink, write_all};
use std::alloc::Global;

/// The text of the kit that is ordered, with the line that ends it.
fn kit_bytes(alloc: Global, ordered: &KitOrder) -> Result<Vec<u8>, NoMemory>
    requires { IsOrder (order ordered.now) }
    ensures { IfOk result (λ bytes. bytes.items ≡ kit_of_order (order ordered.now)) }
{
    let kit = make_kit(
        alloc,
        ordered.members,
        ordered.roster,
        ordered.keys,
        &ordered.seed,
    )?;
    let mut bytes = Vec::new(alloc);
    write_kit(&kit, &mut bytes)?;
    bytes.extend_from_slice(b"go\n")?;
    Ok(bytes)
}

/// Makes the kit that is ordered, and writes it with the line that ends it. Nothing is written before all of it is made.
pub fn keygen<K: Sink>(alloc: Global, ordered: &KitOrder, output: &mut K) -> Result<(), Stop>
    requires { IsOrder (order ordered.now) }
    ensures done { OnOk result (Appends (K.written output.old) (K.written output.new) (kit_of_order (order ordered.now))) }
    ensures steady { OnOk result (K.faults output.new ≡ K.faults output.old) }
    ensures write { IsErrOf result Stop.Write
        → AppendsPrefix (K.written output.old) (K.written output.new) (kit_of_order (order ordered.now)) }
    ensures write_failed { IsErrOf result Stop.Write → Rose (K.faults output.old) (K.faults output.new) }
    ensures untouched { IfErr result (λ stop. (stop ≡ Stop.Write) ⊎ (output.new ≡ output.old)) }
    ensures only { IfErr result (λ stop. (stop ≡ Stop.NoMemory) ⊎ (stop ≡ Stop.Write)) }
{
    let bytes = kit_bytes(alloc, ordered)?;
    match write_all(output, &bytes) {
        Ok(()) => Ok(()),
        Err(_) => Err(Stop::Write),
    }
}
