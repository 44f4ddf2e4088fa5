ghost use Rattle.std.specs.Prelude.{◌≡◌, ◌==◌, map, find, option_map, option_and_then};
ghost use Rattle.std.specs.Option.{option_copied};
ghost use Rattle.sig_scheme.specs.Views.{scheme, secret};
ghost use Rattle.kit_defs.specs.Kits.{key_of};

use crate::parts::Parts;
use crate::writing::push_public;
use rp_base::{GroupId, NoMemory, Pid, PidSet, Roster};
use sha2::{Digest, Sha256};
use sig_scheme::{AnyScheme, Secret};
use std::alloc::Global;
use std::fmt;
use std::marker::Model;

/// What the processes of a group start with: the public part that all of them know, and the secrets of those that are
/// hosted here. Contracts see it as the plain kit whose text is its spelling; it is always in a kit's ranges.
#[derive(Drop)]
pub struct Kit {
    parts: Parts,
    digest: [u8; 32],
}

impl Model for Kit {
    ghost use Rattle.std.specs.Prelude.{◌≡◌};
    ghost use Rattle.kit_defs.specs.Kits as plain;

    ghost Value = { plain.Kit };

    ghost view = { λ k. k.parts };

    ghost invariant = { λ k. plain.IsKit k.parts × (k.digest ≡ plain.kit_digest k.parts) };
}

impl Kit {
    ghost use Rattle.std.specs.Prelude.{◌↔◌, ◌≢◌, IsSome, IsTrue, IfOk};
    ghost use Rattle.byte_defs.specs.Members.{has};
    ghost use Rattle.kit_defs.specs.Kits.{IsKit, kit_digest, roster_of};

    /// The kit of these parts; its digest takes the memory of the public lines, which are let go again.
    ///
    /// # Errors
    /// [`NoMemory`] where that memory is refused.
    pub fn new(alloc: Global, parts: Parts) -> Result<Kit, NoMemory>
        requires { IsKit parts }
        ensures { IfOk result (λ kit. kit ≡ parts) }
    {
        let mut text = Vec::new(alloc);
        push_public(&mut text, &parts)?;
        let digest = Sha256::digest(text.as_slice());
        Ok(Kit { parts, digest })
    }

    /// What the lines say.
    pub(crate) fn parts(&self) -> &Parts
        ensures { result.now ≡ self.now }
    {
        &self.parts
    }

    /// The scheme of the group's signatures.
    pub fn scheme(&self) -> AnyScheme
        ensures { scheme result ≡ self.now.scheme }
    {
        self.parts.scheme
    }

    /// The name of the group.
    pub fn group(&self) -> GroupId
        ensures { result ≡ self.now.group }
    {
        self.parts.group
    }

    /// The processes of the group with their public keys.
    pub fn roster(&self) -> &Roster
        ensures { result.now ≡ self.now.keys }
    {
        &self.parts.roster
    }

    /// The members of the first view, 1 to 16, in rank order.
    pub fn genesis(&self) -> &[Pid]
        ensures { result.now ≡ self.now.genesis }
    {
        self.parts.genesis.as_slice()
    }

    /// SHA-256 of the lines of the public part, with their line feeds.
    pub fn digest(&self) -> [u8; 32]
        ensures { result ≡ kit_digest self.now }
    {
        self.digest
    }

    /// The port of a process; None exactly where it is not in the roster.
    pub fn port(&self, p: Pid) -> Option<u16>
        ensures listed { IsSome result ↔ IsTrue (has (roster_of self.now.keys) p) }
        ensures value { result ≡ option_map (λ port. port.1) (find (λ port. port.0 == p) self.now.ports) }
    {
        let _ = &self.parts; // for the proof: what holds of a kit's parts
        self.find_port(p)
    }

    fn find_port(&self, p: Pid) -> Option<u16>
        ensures { result ≡ option_map (λ port. port.1) (find (λ port. port.0 == p) self.now.ports) }
    {
        for port in &self.parts.ports {
            if port.0 == p {
                return Some(port.1);
            }
        }
        None
    }

    /// The processes that are hosted here.
    pub fn hosted(&self) -> PidSet
        ensures { result ≡ map (λ host. host.process) self.now.hosts }
    {
        let mut all = PidSet::new();
        for host in &self.parts.hosts {
            all.insert(host.process);
        }
        all
    }

    /// The secret of a process; None exactly where it is not hosted here.
    pub fn secret(&self, p: Pid) -> Option<&Secret>
        ensures hosted { IsSome result ↔ IsTrue (has (map (λ host. host.process) self.now.hosts) p) }
        ensures value { option_map secret (option_copied result)
            ≡ option_map (λ host. host.secret) (find (λ host. host.process == p) self.now.hosts) }
    {
        self.find_secret(p)
    }

    fn find_secret(&self, p: Pid) -> Option<&Secret>
        ensures { option_map secret (option_copied result)
            ≡ option_map (λ host. host.secret) (find (λ host. host.process == p) self.now.hosts) }
    {
        for host in &self.parts.hosts {
            if host.process == p {
                return Some(&host.secret);
            }
        }
        None
    }

    /// The key that a process which is hosted here shares with another, 32 bytes; None exactly where it is not hosted
    /// here, the other is not in the roster, or both are one process.
    pub fn pair(&self, p: Pid, q: Pid) -> Option<&[u8; 32]>
        ensures shared { IsSome result
            ↔ (IsTrue (has (map (λ host. host.process) self.now.hosts) p) × IsTrue (has (roster_of self.now.keys) q) × (p ≢ q)) }
        ensures value { option_copied result
            ≡ option_and_then (λ host. key_of host.pairs q) (find (λ host. host.process == p) self.now.hosts) }
    {
        let _ = &self.parts; // for the proof: what holds of a kit's parts
        self.find_pair(p, q)
    }

    fn find_pair(&self, p: Pid, q: Pid) -> Option<&[u8; 32]>
        ensures { option_copied result ≡ option_and_then (λ host. key_of host.pairs q) (find (λ host. host.process == p) self.now.hosts) }
    {
        for host in &self.parts.hosts {
            if host.process == p {
                return pair_key(&host.pairs, q);
            }
        }
        None
    }
}

/// Without the secrets and the keys that processes share.
impl fmt::Debug for Kit {
    fn fmt<W: fmt::Write>(&self, f: &mut fmt::Formatter<W>) -> fmt::Result {
        f.debug_struct("Kit")
            .field("scheme", &self.parts.scheme)
            .field("group", &self.parts.group)
            .field("genesis", &self.parts.genesis)
            .finish_non_exhaustive()
    }
}

// The key beside a process.
fn pair_key(pairs: &[(Pid, [u8; 32])], q: Pid) -> Option<&[u8; 32]>
    ensures { option_copied result ≡ key_of pairs.now q }
{
    for pair in pairs {
        if pair.0 == q {
            return Some(&pair.1);
        }
    }
    None
}
