//! The bytes of an image, in version 2.
ghost use Rattle.std.specs.Prelude.{◌≡◌, ◌≤◌, ◌+◌, ◌++◌, length, IfOk, OnOk, OnErr};
ghost use Rattle.message_defs.specs.Limits.{last_process};
ghost use Rattle.image_defs.specs.Spelling.{image_bytes};
ghost use Rattle.snapshot_defs.specs.Spelling.{reported_bytes, claimed_bytes, settled_bytes, spelled};
ghost use Rattle.snapshot_defs.specs.declared.Version.TheVariants.{Two};
ghost use Rattle.snapshot_rp.specs.Views.{image as image_of};

use crate::entries::{push_each, push_list};
use crate::image::Image;
use crate::pushing::{push_decision, push_length};
use rp_base::NoMemory;
use std::alloc::Global;

// The own number, the views that were left, the perceived pairs and the accepted payloads.
fn push_reported(out: &mut Vec<u8>, image: &Image) -> Result<(), NoMemory>
    ensures { OnOk result (out.new.items ≡ out.old.items ++ reported_bytes (image_of image.now)) }
{
    out.push(image.me.get())?;
    push_length(out, image.left.len())?;
    push_each(out, image.left.as_slice())?;
    push_list(out, image.perceived.as_slice())?;
    push_list(out, image.accepted.as_slice())
}

// The signed claims, those that were heard before, those that are heard, and the conflicts.
fn push_claimed(out: &mut Vec<u8>, image: &Image) -> Result<(), NoMemory>
    requires { length (image_of image.now).conflicts ≤ last_process + 1 }
    ensures { OnOk result (out.new.items ≡ out.old.items ++ claimed_bytes (image_of image.now)) }
{
    push_list(out, image.signed.as_slice())?;
    push_list(out, image.previous.as_slice())?;
    push_list(out, image.heard.as_slice())?;
    out.push(image.conflicts.len() as u8)?;
    push_each(out, image.conflicts.as_slice())
}

// What was delivered in each view, the decision, and whether the process has halted.
fn push_settled(out: &mut Vec<u8>, image: &Image) -> Result<(), NoMemory>
    ensures { OnOk result (out.new.items ≡ out.old.items ++ settled_bytes Two (image_of image.now)) }
{
    push_each(out, image.delivered.as_slice())?;
    push_decision(out, image.decision)?;
    out.push(u8::from(image.halted))?;
    Ok(())
}

#[tactic(auto, unfolding(snapshot_defs::specs::Spelling::spelled))]
fn image_text(alloc: Global, image: &Image) -> Result<Vec<u8>, NoMemory>
    requires { length (image_of image.now).conflicts ≤ last_process + 1 }
    ensures { IfOk result (λ bytes. bytes.items ≡ spelled Two (image_of image.now)) }
{
    let mut out = Vec::new(alloc);
    push_reported(&mut out, image)?;
    push_claimed(&mut out, image)?;
    push_settled(&mut out, image)?;
    Ok(out)
}

/// Appends the bytes of an image in version 2: of any image with at most 64 conflicts, one of each process. A list whose length does not fit
/// its field has the last bytes of that length. Whoever reads the bytes finds the image again where it has a spelling: `IsImage` says which
/// ranges its numbers have, how many entries a list may have, and that its perceived pairs and its conflicts rise.
///
/// # Errors
/// [`NoMemory`] where room for the bytes is refused; nothing is appended then.
#[tactic(auto, using(snapshot_laws::proofs::Versions::written_is_second))]
pub fn write_snapshot(image: &Image, out: &mut Vec<u8>) -> Result<(), NoMemory>
    requires { length (image_of image.now).conflicts ≤ last_process + 1 }
    ensures written { OnOk result (out.new.items ≡ out.old.items ++ image_bytes (image_of image.now)) }
    ensures unchanged { OnErr result (out.new.items ≡ out.old.items) }
{
    let text = image_text(*out.allocator(), image)?;
    out.extend_from_slice(&text)?;
    Ok(())
}
