ghost use Rattle.std.specs.Prelude.{◌≡◌, ◌≢◌, IfOk, OnErr, IsErrOf, IsOkUnless};
ghost use Rattle.std.specs.Option.{MatchOption};
ghost use Rattle.signature_defs.specs.Secrets.{scheme_of};
ghost use Rattle.signature_defs.specs.Schemes as schemes;
ghost use Rattle.lms_hss.specs.declared.faults.KeyFault.TheVariants as faults;
ghost use Rattle.sig_scheme.specs.Views.{secret};
ghost use Rattle.sig_scheme.specs.Keys.{IsKeyOf, refusal_of};

use crate::any_signer::AnySigner;
use crate::making::{hss_bytes, lms_bytes, lms_key};
use crate::public_key::PublicKey;
use lms_hss::{HssKey, KeyFault};
use lms_ots::OtsType;
use rp_base::PlainSigner;
use std::alloc::Global;
use std::fmt;

/// What a signer is made from. Its `Debug` shows neither key nor seed.
#[derive(Clone, Copy, PartialEq, Eq)]
pub enum Secret {
    /// One key of 32 bytes, private and public at once, for `total` bodies.
    Plain {
        /// What signs, and what signatures are checked against.
        key: [u8; 32],

        /// How many bodies it can sign.
        total: u32,
    },

    /// An LMS private key.
    Lms {
        /// The typecode of the tree's height: a signer is made of 5, 6 and 7 (RFC 8554, section 5.1).
        height: u32,

        /// The parameter set of the one-time keys (RFC 8554, section 4.1).
        ots: OtsType,

        /// I, which each hash begins with.
        id: [u8; 16],

        /// SEED, from which the one-time keys are made (RFC 8554, Appendix A).
        seed: [u8; 32],
    },

    /// An HSS private key.
    Hss {
        /// How many levels of trees: a signer is made of 1, 2 and 3.
        levels: u32,

        /// The typecode of the height of each tree: a signer is made of 5, 6 and 7, but not of 7 in three levels.
        height: u32,

        /// The parameter set of the one-time keys of each tree: a signer is made of W1 in one level alone.
        ots: OtsType,

        /// I of the top tree.
        id: [u8; 16],

        /// SEED of the top tree, from which the others are made.
        seed: [u8; 32],
    },
}

impl Secret {
    ghost use Rattle.sig_scheme.specs.Signers.{IsSignerOf};

    /// The secret's signer, which has signed nothing. That of an LMS secret takes the memory of all nodes of its tree,
    /// and the time of all one-time public keys; that of an HSS secret takes both for one tree of each level; that of a plain
    /// one takes no memory, and is never refused.
    ///
    /// # Errors
    /// The first that holds, of an HSS secret: [`KeyFault::Levels`] exactly where the levels are not 1 to 3;
    /// [`KeyFault::TooTall`] exactly where the typecode is not 5, 6 or 7, or is 7 with three levels; [`KeyFault::TooLong`]
    /// exactly for W1 with two levels or three. Of an LMS secret: [`KeyFault::TooTall`] exactly where the typecode is not 5, 6
    /// or 7. Of both [`KeyFault::NoMemory`], only where there was no memory for the nodes.
    pub fn signer(&self, alloc: Global) -> Result<AnySigner, KeyFault>
        ensures made { IfOk result (IsSignerOf (secret self.now)) }
        ensures refused { MatchOption (refusal_of (secret self.now)) (IsOkUnless result faults.NoMemory) (IsErrOf result) }
        ensures trees { OnErr result (scheme_of (secret self.now) ≢ schemes.Plain) }
    {
        match *self {
            Secret::Plain { key, total } => Ok(AnySigner::Plain(PlainSigner::new(key, total))),
            Secret::Lms {
                height,
                ots,
                id,
                seed,
            } => Ok(AnySigner::Lms(lms_key(alloc, height, ots, id, seed)?)),
            Secret::Hss {
                levels,
                height,
                ots,
                id,
                seed,
            } => Ok(AnySigner::Hss(HssKey::make(alloc, levels, height, ots, id, seed)?)),
        }
    }

    /// The secret's public key. For an LMS or HSS secret it makes the key, as `signer` does, and lets it go again.
    ///
    /// # Errors
    /// As for [`Secret::signer`].
    pub fn public_key(&self, alloc: Global) -> Result<PublicKey, KeyFault>
        ensures made { IfOk result (IsKeyOf (secret self.now)) }
        ensures refused { MatchOption (refusal_of (secret self.now)) (IsOkUnless result faults.NoMemory) (IsErrOf result) }
        ensures trees { OnErr result (scheme_of (secret self.now) ≢ schemes.Plain) }
    {
        match *self {
            Secret::Plain { key, .. } => Ok(PublicKey::Plain(key)),
            Secret::Lms {
                height,
                ots,
                id,
                seed,
            } => Ok(PublicKey::Lms(lms_bytes(&lms_key(alloc, height, ots, id, seed)?))),
            Secret::Hss {
                levels,
                height,
                ots,
                id,
                seed,
            } => Ok(PublicKey::Hss(hss_bytes(&HssKey::make(
                alloc, levels, height, ots, id, seed,
            )?))),
        }
    }
}

impl fmt::Debug for Secret {
    fn fmt<W: fmt::Write>(&self, f: &mut fmt::Formatter<W>) -> fmt::Result {
        match self {
            Secret::Plain { total, .. } => f
                .debug_struct("Plain")
                .field("total", total)
                .finish_non_exhaustive(),
            Secret::Lms {
                height,
                ots,
                id,
                ..
            } => f
                .debug_struct("Lms")
                .field("height", height)
                .field("ots", ots)
                .field("id", id)
                .finish_non_exhaustive(),
            Secret::Hss {
                levels,
                height,
                ots,
                id,
                ..
            } => f
                .debug_struct("Hss")
                .field("levels", levels)
                .field("height", height)
                .field("ots", ots)
                .field("id", id)
                .finish_non_exhaustive(),
        }
    }
}
