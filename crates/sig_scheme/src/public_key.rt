ghost use Rattle.std.specs.Prelude.{◌≡◌, length};
ghost use Rattle.sig_scheme.specs.Keys.{key_bytes, key_length};

/// A public key of one of the schemes.
#[derive(Clone, Copy, Debug, PartialEq, Eq)]
pub enum PublicKey {
    /// The key of a plain signer.
    Plain([u8; 32]),

    /// Two typecodes, I and the tree's root (RFC 8554, section 5.3).
    Lms([u8; 56]),

    /// The number of levels, and the key of the top tree (RFC 8554, section 6.1).
    Hss([u8; 60]),
}

impl PublicKey {
    /// The bytes that a roster keeps and signatures are checked against: 32 of a plain key, 56 of an LMS
    /// key, 60 of an HSS key.
    pub fn as_bytes(&self) -> &[u8]
        ensures value { result.now ≡ key_bytes self.now }
        ensures size { length result.now ≡ key_length self.now }
    {
        match self {
            PublicKey::Plain(key) => key,
            PublicKey::Lms(key) => key,
            PublicKey::Hss(key) => key,
        }
    }
}
