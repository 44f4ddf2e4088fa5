//! Kits read from text, line by line, with the first fault.
ghost use Rattle.std.specs.Prelude.{◌≡◌, IfOk, Ok};
ghost use Rattle.byte_defs.specs.Reads.{Makes};
ghost use Rattle.kit_defs.specs.Kits as plain_kits;
ghost use Rattle.kit_defs.specs.Kits.{IsKit, kit_text};
ghost use Rattle.kit_defs.specs.KitReading as plain;
ghost use Rattle.kit_reading.specs.Faults.{fault_of};

use crate::faults::KitFault;
use crate::taking::take_line;
use kit_draft::Draft;
use kit_file::{Kit, Parts};
use std::alloc::Global;
use text_codec::Parts as Lines;

// Where all lines of a kit were read, the kit; else one is missing where this line would be.
#[tactic(auto, unfolding(kit_defs::specs::KitReading::finish))]
pub(crate) fn finish(number: usize, draft: Draft) -> Result<Parts, KitFault>
    ensures { Makes fault_of (λ parts. parts) result (plain.finish number draft) }
{
    if draft.is_unfinished() {
        return Err(KitFault::Missing { line: number });
    }
    let Some(scheme) = draft.scheme else {
        return Err(KitFault::Missing { line: number });
    };
    let Some(group) = draft.group else {
        return Err(KitFault::Missing { line: number });
    };
    Ok(Parts {
        scheme,
        group,
        roster: draft.roster,
        genesis: draft.genesis,
        ports: draft.ports,
        hosts: draft.hosts,
    })
}

// What the lines of the text say.
fn read_parts(alloc: Global, text: &[u8]) -> Result<Parts, KitFault>
    ensures { Makes fault_of (λ parts. parts) result (plain.kit_of text.now) }
{
    let mut draft = Draft::new(alloc)?;
    let mut lines = Lines::lines(text);
    let mut number = 1;
    'lines: while let Some(line) = lines.next() {
        if lines.is_done() {
            return if line.is_empty() {
                finish(number, draft)
            } else {
                Err(KitFault::Line { line: number })
            };
        }
        take_line(&mut draft, alloc, number, line)?;
        number += 1;
    }
    Err(KitFault::Line { line: number })
}

fn read(alloc: Global, text: &[u8]) -> Result<Kit, KitFault>
    ensures { Makes fault_of (λ kit. kit) result (plain.kit_of text.now) }
{
    let parts = read_parts(alloc, text)?;
    Ok(Kit::new(alloc, parts)?)
}

/// The kit that the text spells, all of it: the lines of a kit, and none after them. docs/FORMATS.md has the format.
///
/// # Errors
/// The first fault of the lines in their order; [`KitFault::NoMemory`] where memory for the kit or for one key's trees is refused.
pub fn read_kit(alloc: Global, text: &[u8]) -> Result<Kit, KitFault>
    // What is read is a kit, and the text is its spelling.
    ensures found { IfOk result (λ kit. IsKit kit) }
    ensures spelled { IfOk result (λ kit. text.now ≡ kit_text kit) }

    // A kit with this spelling is read, unless memory runs out.
    ensures only { (kit : plain_kits.Kit) → IsKit kit → text.now ≡ kit_text kit → Makes fault_of (λ k. k) result (Ok kit) }

    // A fault is that of the first line that has one.
    ensures exact { Makes fault_of (λ kit. kit) result (plain.kit_of text.now) }
{
    read(alloc, text)
}
