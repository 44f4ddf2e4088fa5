//! Words that both kinds of keys share.
ghost use Rattle.std.specs.Prelude.{◌≡◌, ◌≢◌, ◌++◌, codes, IfOk, IsErrOf, OnOk};
ghost use Rattle.std.specs.Fmt.{decimal};
ghost use Rattle.hex.specs.Hex.{encode_lower};
ghost use Rattle.signature_defs.specs.declared.OtsType.{OtsType};
ghost use Rattle.signature_defs.specs.LmOts.{ots_typecode};

use interop_words::{LineFault, read_number};
use lms_ots::ots_type_of;
use lms_tree::OtsType;
use rp_base::NoMemory;
use std::alloc::Global;
use text_codec::push_hex;

/// The one-time parameter set whose typecode the word spells.
pub(crate) fn read_ots(word: &[u8]) -> Result<OtsType, LineFault>
    ensures read { IfOk result (λ ots. word.now ≡ decimal (ots_typecode ots)) }
    ensures none { IsErrOf result LineFault.NoQuestion → (ots : OtsType) → word.now ≢ decimal (ots_typecode ots) }
{
    let typecode = read_number(word, 1, 4)?;
    ots_type_of(typecode).ok_or(LineFault::NoQuestion)
}

/// `KEY SIG`: a public key, and a signature.
pub(crate) fn key_and_signature(alloc: Global, key: &[u8], sig: &[u8]) -> Result<Vec<u8>, NoMemory>
    ensures { IfOk result (λ reported. reported.items ≡ encode_lower key.now ++ (codes " " ++ encode_lower sig.now)) }
{
    let mut reported = Vec::new(alloc);
    push_hex(&mut reported, key)?;
    reported.push(b' ')?;
    push_hex(&mut reported, sig)?;
    Ok(reported)
}
