ghost use Rattle.std.specs.Prelude.{◌≡◌, OnOk, OnErr};
ghost use Rattle.std.specs.Io.KnownBytes.{Appends};
ghost use Rattle.rp_base.specs.Causes.{Rose};
ghost use Rattle.rp_base.specs.Streams.{AppendsPrefix};

use crate::failed::Failed;
use crate::streams::Sink;

/// Writes all the bytes.
///
/// # Errors
/// [`Failed`] only where the sink's count of faults rose; a prefix of the bytes was written then.
pub fn write_all<K: Sink>(output: &mut K, bytes: &[u8]) -> Result<(), Failed>
    ensures bytes { OnOk result (Appends (K.written output.old) (K.written output.new) bytes.now) }
    ensures part { OnErr result (AppendsPrefix (K.written output.old) (K.written output.new) bytes.now) }
    ensures failed { OnErr result (Rose (K.faults output.old) (K.faults output.new)) }
    ensures steady { OnOk result (K.faults output.new ≡ K.faults output.old) }
{
    let mut rest = bytes;
    'pieces: while !rest.is_empty() {
        let n = output.write(rest)?;
        let (_, after) = rest.split_at(n);
        rest = after;
    }
    Ok(())
}
