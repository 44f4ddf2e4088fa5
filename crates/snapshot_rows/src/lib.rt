//! A worked image, read by the definitions.
#![tactic(auto)]

ghost use Rattle.snapshot_rows.specs.Worked.{WorkedImage};

/// The bytes of an image in both versions, and where the first fault is in bytes that are near them.
pub fn worked_image()
    ensures { WorkedImage }
{}
