ghost use Rattle.std.specs.Prelude.{◌≡◌};
ghost use Rattle.signature_defs.specs.Schemes.{is_valid};
ghost use Rattle.sig_scheme.specs.Views.{scheme};

use lms_hss::hss_verify;
use lms_tree::lms_verify;
use rp_base::{PlainScheme, Scheme};

/// The scheme of a group.
#[derive(Clone, Copy, Debug, PartialEq, Eq)]
pub enum AnyScheme {
    /// SHA-256 of key and body, for rehearsals: whoever knows a public key can sign for it.
    Plain,

    /// LMS trees with SHA-256 (RFC 8554, section 5).
    Lms,

    /// LMS trees in levels (RFC 8554, section 6).
    Hss,
}

impl Scheme for AnyScheme {
    ghost valid = { λ s. is_valid (scheme s) };

    fn verify(&self, key: &[u8], body: &[u8], sig: &[u8]) -> bool {
        match self {
            AnyScheme::Plain => PlainScheme.verify(key, body, sig),
            AnyScheme::Lms => lms_verify(key, body, sig),
            AnyScheme::Hss => hss_verify(key, body, sig),
        }
    }
}
