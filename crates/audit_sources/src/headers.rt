//! The headers of all journals.
ghost use Rattle.std.specs.Prelude.{◌≡◌, IfErr, IfOk, Ok, map};
ghost use Rattle.audit_defs.specs.Audits.{sources_of};
ghost use Rattle.journal_steps.specs.Views.{source as source_of};
ghost use Rattle.audit_sources.specs.Faults.{IsFaultOf};

use crate::fault::AuditFault;
use journal_steps::{Kit, Source};
use std::alloc::Global;
use stmt_codec::Payload;

/// The journals, where all of their headers are of the kit.
///
/// # Errors
/// [`AuditFault::Entry`] with place 0 and the index of the first journal whose header is not; and [`AuditFault::NoMemory`].
pub fn read_sources<'a>(
    alloc: Global,
    kit: &Kit,
    journals: &'a [Payload],
) -> Result<Vec<Source<'a>>, AuditFault>
    ensures read { IfOk result (λ all. sources_of kit.now journals.now ≡ Ok (map source_of all.items)) }
    ensures refused { IfErr result (λ fault. IsFaultOf fault (sources_of kit.now journals.now)) }
{
    let mut all = Vec::new(alloc);
    for (journal, bytes) in journals.iter().enumerate() {
        let Some(source) = Source::read(kit, bytes.bytes()) else {
            return Err(AuditFault::Entry { journal, place: 0 });
        };
        all.reserve(1)?;
        let Ok(()) = all.push(source) else {
            unreachable!()
        };
    }
    Ok(all)
}
