//! The line.
ghost use Rattle.std.specs.Prelude.{◌≡◌, ◌++◌, ◌∷◌, [], IfOk, OnOk, OnErr};
ghost use Rattle.text_defs.specs.Words.{line_feed};
ghost use Rattle.audit_defs.specs.Findings.{findings_text, findings_line};
ghost use Rattle.findings_json.specs.Views.{findings as findings_of};

use crate::findings::Findings;
use crate::values::findings_value;
use rp_base::NoMemory;
use std::alloc::Global;

const LINE_FEED: u8 = 10;

// The object.
fn text_of(alloc: Global, findings: &Findings) -> Result<Vec<u8>, NoMemory>
    ensures { IfOk result (λ text. text.items ≡ findings_text (findings_of findings.now)) }
{
    let value = findings_value(alloc, findings)?;
    Ok(value.to_vec(alloc)?)
}

// Bytes, and a line feed after them.
fn push_line(out: &mut Vec<u8>, text: &[u8]) -> Result<(), NoMemory>
    ensures pushed { OnOk result (out.new.items ≡ out.old.items ++ (text.now ++ line_feed ∷ [])) }
    ensures unchanged { OnErr result (out.new.items ≡ out.old.items) }
{
    out.reserve(text.len().saturating_add(1))?;
    out.extend_from_slice(text)?;
    out.push(LINE_FEED)?;
    Ok(())
}

/// Appends the line of the findings: an object of JSON without blanks, and a line feed.
///
/// # Errors
/// [`NoMemory`]; then `out` is as it was.
pub fn push_findings(out: &mut Vec<u8>, alloc: Global, findings: &Findings) -> Result<(), NoMemory>
    ensures pushed { OnOk result (out.new.items ≡ out.old.items ++ findings_line (findings_of findings.now)) }
    ensures unchanged { OnErr result (out.new.items ≡ out.old.items) }
{
    let text = text_of(alloc, findings)?;
    push_line(out, &text)
}
