//! Lines of evidence, as they are written.
ghost use Rattle.std.specs.Prelude.{◌≡◌, ◌<◌, ◌++◌, ◌∷◌, [], true, IfOk, OnOk};
ghost use Rattle.std.specs.List.{AllByRecursion, flat_map};
ghost use Rattle.hex.specs.Hex.{IsBytes};
ghost use Rattle.message_defs.specs.Packing.{group_of};
ghost use Rattle.audit_defs.specs.Players.{setting_of};
ghost use Rattle.stmt_codec.specs.Views.{signed};
ghost use Rattle.witness_words.specs.Seen.{CanTravel, HasOneSigner, IsShort, conviction_line, draft_of, evidence_head, line_with};

use crate::judging::is_taken;
use findings_json::Conviction;
use frame_codec::{BUNDLE, FRAME_BYTES, FrameWriter, SIGNATURE_BYTES};
use kit_reading::Kit;
use rp_base::{NoMemory, Pid};
use std::alloc::Global;
use stmt_codec::{OwnClaim, STATEMENT_BYTES};
use text_codec::{push_hex, push_number};

// Whether a frame of two claims can carry this one, as it can each that came in a frame or a journal.
fn is_short(claim: &OwnClaim) -> bool
    ensures { result ≡ true → IsShort claim.now }
{
    claim.statement.bytes().len() <= STATEMENT_BYTES
        && claim.signature.bytes().len() <= usize::from(SIGNATURE_BYTES)
}

// A Bundle with this claim.
fn begun(alloc: Global, claim: &OwnClaim) -> Result<FrameWriter, NoMemory>
    requires { IsShort claim.now }
    ensures { IfOk result (λ w. w ≡ draft_of (group_of (signed claim.now) ∷ [])) }
{
    let mut writer = FrameWriter::new(alloc, BUNDLE, FRAME_BYTES)?;
    if !writer.add(
        claim.statement.bytes(),
        claim.signer.get(),
        claim.signature.bytes(),
    ) {
        unreachable!();
    }
    Ok(writer)
}

// A Bundle of the two claims, which have one signer.
fn bundle(alloc: Global, first: &OwnClaim, second: &OwnClaim) -> Result<FrameWriter, NoMemory>
    requires first { IsShort first.now }
    requires second { IsShort second.now }
    requires signer { first.now.signer ≡ second.now.signer }
    ensures { IfOk result (λ w. w ≡ draft_of (group_of (signed first.now) ∷ group_of (signed second.now) ∷ [])) }
{
    let mut writer = begun(alloc, first)?;
    if !writer.add(
        second.statement.bytes(),
        second.signer.get(),
        second.signature.bytes(),
    ) {
        unreachable!();
    }
    Ok(writer)
}

// Begins a line with its first two words and the space after them.
fn push_head(out: &mut Vec<u8>, process: Pid) -> Result<(), NoMemory>
    ensures pushed { OnOk result (out.new.items ≡ out.old.items ++ evidence_head process) }
    ensures number { OnOk result (process < 64) }
{
    out.extend_from_slice(b"evidence ")?;
    push_number(out, process.get().into())?;
    out.push(b' ')?;
    Ok(())
}

// Appends the line of a process, with this frame.
fn push_line(out: &mut Vec<u8>, process: Pid, frame: &[u8]) -> Result<(), NoMemory>
    ensures pushed { OnOk result (out.new.items ≡ out.old.items ++ line_with process frame.now) }
    ensures number { OnOk result (process < 64) }
    ensures bytes { IsBytes frame.now }
{
    push_head(out, process)?;
    push_hex(out, frame)?;
    out.push(b'\n')?;
    Ok(())
}

// Appends the line of a conviction, once its frame was judged.
fn push_conviction(
    alloc: Global,
    kit: &Kit,
    out: &mut Vec<u8>,
    conviction: &Conviction,
) -> Result<(), NoMemory>
    requires { HasOneSigner conviction.now }
    ensures pushed { OnOk result (out.new.items ≡ out.old.items ++ conviction_line conviction.now) }
    ensures taken { OnOk result (CanTravel (setting_of kit.now) conviction.now) }
{
    if !is_short(&conviction.first) || !is_short(&conviction.second) {
        return Err(NoMemory);
    }
    let writer = bundle(alloc, &conviction.first, &conviction.second)?;
    let frame = writer.frame();
    if !is_taken(kit, conviction.process, frame) {
        return Err(NoMemory);
    }
    push_line(out, conviction.process, frame)
}

/// The lines of these convictions, one for each. What each line says was judged by the kit's keys.
///
/// # Errors
/// [`NoMemory`]; also for a conviction that no Bundle shows, and no audit gives one.
pub(crate) fn evidence_text(
    alloc: Global,
    kit: &Kit,
    convicted: &[Conviction],
) -> Result<Vec<u8>, NoMemory>
    requires { AllByRecursion HasOneSigner convicted.now }
    ensures written { IfOk result (λ text. text.items ≡ flat_map conviction_line convicted.now) }
    ensures taken { OnOk result (AllByRecursion (CanTravel (setting_of kit.now)) convicted.now) }
{
    let mut text = Vec::new(alloc);
    'convicted: for conviction in convicted {
        push_conviction(alloc, kit, &mut text, conviction)?;
    }
    Ok(text)
}
