//! The rooms in which a node receives and seals.
ghost use Rattle.std.specs.Prelude.{◌≡◌};
ghost use Rattle.std.specs.Vec.{vec_len};

use node_taking::SEALED_BYTES;
use rp_base::NoMemory;
use std::alloc::Global;

/// How many bytes of a datagram a node reads.
const DATAGRAM_BYTES: usize = 61_440;

/// The memory in which a node receives and seals, which is taken once.
#[derive(Drop)]
pub struct Rooms {
    /// For a datagram that comes: 61,440 bytes.
    pub coming: Vec<u8>,

    /// For a frame that is sealed: 61,054 bytes.
    pub sealed: Vec<u8>,
    ghost coming_long: { vec_len coming ≡ 61440 },
    ghost sealed_long: { vec_len sealed ≡ 61054 },
}

impl Rooms {
    /// Rooms for one node.
    ///
    /// # Errors
    /// [`NoMemory`] where memory is refused.
    pub fn new(alloc: Global) -> Result<Rooms, NoMemory> {
        let coming = vec![in alloc; 0u8; DATAGRAM_BYTES]?;
        let sealed = vec![in alloc; 0u8; SEALED_BYTES]?;
        Ok(Rooms { coming, sealed })
    }
}
