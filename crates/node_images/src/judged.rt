//! A process of a snapshot that was judged.
ghost use Rattle.node_images.specs.Real.{IsReal};

use member_restoring::Restored;
use rp_base::Pid;
use sig_scheme::AnySigner;

/// What a snapshot has of one process, judged.
#[derive(Drop)]
pub struct Judged {
    /// The process.
    pub process: Pid,

    /// How many entries it has in the journal before the place.
    pub entries: u64,

    /// The process, as it is after them, with its signer.
    pub restored: Restored<AnySigner>,
    pub ghost real: { IsReal restored },
}
