use std::marker::Model;

/// The name of a group: 16 bytes that its processes share. They are in every body that is signed and in every
/// datagram, so nothing said in one group counts in another.
#[derive(Clone, Copy, Debug, PartialEq, Eq)]
pub struct GroupId(pub [u8; 16]);

impl Model for GroupId {
    ghost use Rattle.std.specs.Prelude.{ℕ, List};

    ghost Value = { List ℕ };

    ghost view = { λ g. g.0 };

    ghost inverse = { λ bytes. record { 0 = bytes } };
}

impl GroupId {
    ghost use Rattle.std.specs.Prelude.{◌≡◌, length};

    /// The 16 bytes.
    pub fn bytes(&self) -> &[u8; 16]
        ensures value { result.now ≡ self.now }
        ensures length { length self.now ≡ 16 }
    {
        &self.0
    }
}
