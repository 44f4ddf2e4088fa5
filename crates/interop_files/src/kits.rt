//! What bytes say as the text of a kit.
ghost use Rattle.std.specs.Prelude.{◌≡◌, ◌++◌, codes, IfOk, Some, option_map};
ghost use Rattle.std.specs.Fmt.{decimal};
ghost use Rattle.hex.specs.Hex.{encode_lower};
ghost use Rattle.kit_defs.specs.Kits.{kit_text};
ghost use Rattle.kit_defs.specs.KitReading.{kit_of};
ghost use Rattle.kit_reading.specs.Faults.{fault_of};
ghost use Rattle.interop_files.specs.Files.{kit_fault_words, kit_said};

use crate::numbered::numbered;
use kit_file::{Kit, write_kit};
use kit_reading::{KitFault, read_kit};
use rp_base::NoMemory;
use std::alloc::Global;
use text_codec::push_hex;

// The line, and both keys.
fn mismatch(alloc: Global, line: usize, made: &[u8], listed: &[u8]) -> Result<Vec<u8>, NoMemory>
    ensures { IfOk result (λ reported. reported.items
        ≡ codes "mismatch " ++ (decimal line ++ (codes " " ++ (encode_lower made.now ++ (codes " " ++ encode_lower listed.now))))) }
{
    let mut reported = numbered(alloc, b"mismatch ", line)?;
    reported.push(b' ')?;
    push_hex(&mut reported, made)?;
    reported.push(b' ')?;
    push_hex(&mut reported, listed)?;
    Ok(reported)
}

// What is said of a fault, unless it is want of memory.
fn fault_words(alloc: Global, fault: KitFault) -> Result<Vec<u8>, NoMemory>
    ensures { IfOk result (λ reported. option_map kit_fault_words (fault_of fault) ≡ Some reported.items) }
{
    match fault {
        KitFault::Line { line } => numbered(alloc, b"line ", line),
        KitFault::Repeated { line } => numbered(alloc, b"repeated ", line),
        KitFault::Missing { line } => numbered(alloc, b"missing ", line),
        KitFault::KeyMismatch { line, made, listed } => {
            mismatch(alloc, line, made.as_bytes(), listed.as_bytes())
        }
        KitFault::NoMemory => Err(NoMemory),
    }
}

// The kit, spelled again.
fn kit_words(alloc: Global, kit: &Kit) -> Result<Vec<u8>, NoMemory>
    ensures { IfOk result (λ reported. reported.items ≡ codes "kit " ++ encode_lower (kit_text kit.now)) }
{
    let mut text = Vec::new(alloc);
    write_kit(kit, &mut text)?;
    let mut reported = b"kit ".to_vec(alloc)?;
    push_hex(&mut reported, &text)?;
    Ok(reported)
}

/// What the bytes say as a kit: `kit` and the kit spelled again from what was read, or its fault.
pub(crate) fn answer_kit(alloc: Global, bytes: &[u8]) -> Result<Vec<u8>, NoMemory>
    ensures { IfOk result (λ reported. reported.items ≡ kit_said (kit_of bytes.now)) }
{
    match read_kit(alloc, bytes) {
        Ok(kit) => kit_words(alloc, &kit),
        Err(fault) => fault_words(alloc, fault),
    }
}
