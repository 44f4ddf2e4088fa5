use std::marker::Model;

/// Bytes of one's own: a payload, a frame, a statement's spelling or a signature. Contracts see them as a list.
#[derive(Debug, Drop)]
pub struct Payload {
    bytes: Vec<u8>,
}

impl Model for Payload {
    ghost use Rattle.std.specs.Prelude.{ℕ, List};

    ghost Value = { List ℕ };

    ghost view = { λ p. p.bytes.items };
}

impl Payload {
    ghost use Rattle.std.specs.Prelude.{◌≡◌};

    /// These bytes.
    pub fn from_vec(bytes: Vec<u8>) -> Payload
        ensures { result ≡ bytes.items }
    {
        Payload { bytes }
    }

    /// The bytes, borrowed.
    pub fn bytes(&self) -> &[u8]
        ensures { result.now ≡ self.now }
    {
        self.bytes.as_slice()
    }
}
