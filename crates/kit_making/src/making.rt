//! Kits for rehearsals and tests, made from one seed.
ghost use Rattle.std.specs.Prelude.{◌≡◌, ◌+◌, ◌≤◌, ◌<◌, map, IfOk, take};
ghost use Rattle.signature_defs.specs.Secrets.{public_key_of};
ghost use Rattle.sig_scheme.specs.Views.{scheme, secret};
ghost use Rattle.kit_defs.specs.Kits.{IsKit, others_than};
ghost use Rattle.kit_defs.specs.KitMaking.{derive, derived_group, derived_pair, derived_secret, first_numbers, made_host, made_kit, planned_scheme, IsPlan};
ghost use Rattle.kit_file.specs.Views.{host, hosts};
ghost use Rattle.kit_making.specs.Purposes.{label};

use arrayvec::ArrayVec;
use kit_defs::KeyPlan;
use kit_file::{Host, Kit, Parts, public_key_of};
use rp_base::{GroupId, NoMemory, Pid, Roster};
use sha2::{Digest, Sha256};
use sig_scheme::{AnyScheme, Secret};
use std::alloc::Global;

/// What a value is derived for. Its number is the second part of what is hashed.
#[derive(Clone, Copy)]
enum Purpose {
    Group,
    TreeId,
    TreeSeed,
    PairKey,
    PlainKey,
}

/// The port of process 0.
const FIRST_PORT: u16 = 47_000;

/// A kit for rehearsals and tests, all of whose keys are made from one seed: whoever knows the seed has them all. Its
/// roster is the processes 0 to `roster` - 1, up to 64 of them and all hosted, and its first view the first `members` of
/// them, 1 to 16. Process p has port 47,000 + p. Each LMS or HSS key is made once, for its public key,
/// and let go again.
///
/// # Errors
/// [`NoMemory`] where memory for the kit or for one key's trees is refused.
pub fn make_kit(
    alloc: Global,
    members: u8,
    roster: u8,
    keys: KeyPlan,
    seed: &[u8; 32],
) -> Result<Kit, NoMemory>
    requires some { 1 ≤ members }
    requires most { members ≤ 16 }
    requires listed { members ≤ roster }
    requires numbered { roster ≤ 64 }
    requires plan { IsPlan keys }
    ensures made { IfOk result (λ kit. kit ≡ made_kit members roster keys seed.now) }
    ensures fits { IfOk result IsKit }
{
    let parts = Parts {
        scheme: scheme_of(keys),
        group: group_of(seed),
        roster: make_roster(alloc, roster, keys, seed)?,
        genesis: make_genesis(members),
        ports: make_ports(alloc, roster)?,
        hosts: make_hosts(alloc, roster, keys, seed)?,
    };
    Kit::new(alloc, parts)
}

fn scheme_of(keys: KeyPlan) -> AnyScheme
    ensures { scheme result ≡ planned_scheme keys }
{
    match keys {
        KeyPlan::Plain(_) => AnyScheme::Plain,
        KeyPlan::Lms(..) => AnyScheme::Lms,
        KeyPlan::Hss(..) => AnyScheme::Hss,
    }
}

fn group_of(seed: &[u8; 32]) -> GroupId
    ensures { result ≡ derived_group seed.now }
{
    GroupId(first_half(&derive(seed, Purpose::Group, 0, 0)))
}

// The processes from 0 on, with their public keys.
fn make_roster(alloc: Global, count: u8, keys: KeyPlan, seed: &[u8; 32]) -> Result<Roster, NoMemory>
    requires numbered { count ≤ 64 }
    requires plan { IsPlan keys }
    ensures { IfOk result (λ roster. roster ≡ map (λ p. (p, public_key_of (derived_secret keys seed.now p))) (first_numbers count)) }
{
    let mut roster = Roster::new(alloc)?;
    for p in 0..count {
        let key = public_key_of(alloc, secret_of(keys, seed, p))?;
        roster.add(process(p), key.as_bytes())?;
    }
    Ok(roster)
}

// The first members, in rank order.
fn make_genesis(members: u8) -> ArrayVec<Pid, 16>
    requires { members ≤ 16 }
    ensures { result.items ≡ first_numbers members }
{
    let mut genesis = ArrayVec::new();
    for p in 0..members {
        genesis.push(process(p));
    }
    genesis
}

fn make_ports(alloc: Global, count: u8) -> Result<Vec<(Pid, u16)>, NoMemory>
    requires { count ≤ 64 }
    ensures { IfOk result (λ ports. ports.items ≡ map (λ p. (p, 47000 + p)) (first_numbers count)) }
{
    let mut ports = Vec::with_capacity(alloc, count.into())?;
    for p in 0..count {
        ports.push((process(p), FIRST_PORT + u16::from(p)))?;
    }
    Ok(ports)
}

// Each process as it is hosted.
fn make_hosts(
    alloc: Global,
    count: u8,
    keys: KeyPlan,
    seed: &[u8; 32],
) -> Result<Vec<Host>, NoMemory>
    requires { count ≤ 64 }
    ensures { IfOk result (λ all. hosts all.items ≡ map (made_host keys seed.now count) (first_numbers count)) }
{
    let mut all = Vec::with_capacity(alloc, count.into())?;
    for p in 0..count {
        all.push(Host {
            process: process(p),
            secret: secret_of(keys, seed, p),
            pairs: make_pairs(alloc, p, count, seed)?,
        })?;
    }
    Ok(all)
}

// The keys that a process shares with the others.
fn make_pairs(
    alloc: Global,
    p: u8,
    count: u8,
    seed: &[u8; 32],
) -> Result<Vec<(Pid, [u8; 32])>, NoMemory>
    requires { count ≤ 64 }
    ensures { IfOk result (λ pairs. pairs.items ≡ map (λ q. (q, derived_pair seed.now p q)) (others_than p (first_numbers count))) }
{
    let mut pairs = Vec::with_capacity(alloc, count.into())?;
    for q in 0..count {
        if q != p {
            pairs.push((
                process(q),
                derive(seed, Purpose::PairKey, p.min(q), p.max(q)),
            ))?;
        }
    }
    Ok(pairs)
}

fn process(p: u8) -> Pid
    requires { p < 64 }
    ensures { result ≡ p }
{
    let Some(process) = Pid::new(p) else {
        unreachable!();
    };
    process
}

fn secret_of(keys: KeyPlan, seed: &[u8; 32], p: u8) -> Secret
    ensures { secret result ≡ derived_secret keys seed.now p }
{
    match keys {
        KeyPlan::Plain(total) => Secret::Plain {
            key: derive(seed, Purpose::PlainKey, p, 0),
            total,
        },
        KeyPlan::Lms(height, ots) => Secret::Lms {
            height,
            ots,
            id: first_half(&derive(seed, Purpose::TreeId, p, 0)),
            seed: derive(seed, Purpose::TreeSeed, p, 0),
        },
        KeyPlan::Hss(levels, height, ots) => Secret::Hss {
            levels,
            height,
            ots,
            id: first_half(&derive(seed, Purpose::TreeId, p, 0)),
            seed: derive(seed, Purpose::TreeSeed, p, 0),
        },
    }
}

fn first_half(value: &[u8; 32]) -> [u8; 16]
    ensures { result ≡ take 16 value.now }
{
    let mut half = [0; 16];
    half.copy_from_slice(&value[..16]);
    half
}

// SHA-256 of RPK1, the purpose, two numbers and the seed.
fn derive(seed: &[u8; 32], purpose: Purpose, a: u8, b: u8) -> [u8; 32]
    ensures { result ≡ derive seed.now (label purpose) a b }
{
    let mut hasher = Sha256::new();
    hasher.update(b"RPK1");
    hasher.update(&[purpose as u8, a, b]);
    hasher.update(seed);
    hasher.finalize()
}
