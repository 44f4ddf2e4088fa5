//! Lines that are taken, one after another.
ghost use Rattle.std.specs.Prelude.{◌≡◌, ◌∷◌, [], ◌++◌, length, None, option_map, IfOk, OnOk, OnErr};
ghost use Rattle.byte_defs.specs.Reads.{Makes};
ghost use Rattle.sig_scheme.specs.Keys.{key_bytes, key_scheme, refusal_of};
ghost use Rattle.sig_scheme.specs.Views.{secret};
ghost use Rattle.signature_defs.specs.Secrets.{Plain, Lms, Hss, scheme_of};
ghost use Rattle.text_codec.specs.Views.{parts_left};
ghost use Rattle.kit_defs.specs.Kits as plain_kits;
ghost use Rattle.kit_defs.specs.Kits.{key_length, secret_line};
ghost use Rattle.kit_defs.specs.KitReading as plain;
ghost use Rattle.kit_draft.specs.Drafts.{IsDraft};
ghost use Rattle.kit_lines.specs.LineViews.{line};
ghost use Rattle.kit_file.specs.Views.{hosts};
ghost use Rattle.kit_reading.specs.Additions.{CanAdd, IsOfTrees};
ghost use Rattle.kit_reading.specs.Faults.{fault_of};

use crate::faults::KitFault;
use kit_draft::Draft;
use kit_file::{Host, public_key_of};
use kit_lines::{KitLine, line_by};
use rp_base::{NoMemory, Pid};
use sig_scheme::{OtsType, PublicKey, Secret};
use std::alloc::Global;
use text_codec::Parts as Words;

/// The most bytes of a line.
pub(crate) const MOST_LINE_BYTES: usize = 70_000;

fn array_of<const N: usize>(bytes: &[u8]) -> [u8; N]
    requires { length bytes.now ≡ N }
    ensures { result ≡ bytes.now }
{
    let mut array = [0; N];
    array.copy_from_slice(bytes);
    array
}

// The bytes as a public key of the scheme that another one has.
fn like(key: PublicKey, bytes: &[u8]) -> PublicKey
    requires { length bytes.now ≡ key_length (key_scheme key) }
    ensures { key_bytes result ≡ bytes.now }
{
    match key {
        PublicKey::Plain(_) => PublicKey::Plain(array_of(bytes)),
        PublicKey::Lms(_) => PublicKey::Lms(array_of(bytes)),
        PublicKey::Hss(_) => PublicKey::Hss(array_of(bytes)),
    }
}

// Adds a host with no pair line after the others.
fn push_host(all: &mut Vec<Host>, alloc: Global, process: Pid, of: Secret) -> Result<(), NoMemory>
    ensures pushed { OnOk result (hosts all.new.items ≡ hosts all.old.items
        ++ record { process = process; secret = secret of; pairs = [] } ∷ []) }
    ensures unchanged { OnErr result (all.new.items ≡ all.old.items) }
{
    all.push(Host {
        process,
        secret: of,
        pairs: Vec::new(alloc),
    })?;
    Ok(())
}

// A pair line of the last host.
fn push_pair(all: &mut Vec<Host>, other: Pid, key: [u8; 32]) -> Result<(), NoMemory>
    ensures pushed { OnOk result (hosts all.new.items ≡ plain.with_pair (other, key) (hosts all.old.items)) }
    ensures unchanged { OnErr result (hosts all.new.items ≡ hosts all.old.items) }
{
    if let Some(host) = all.last_mut() {
        host.pairs.push((other, key))?;
    }
    Ok(())
}

// The public key on the key line of a process; empty where it has none.
fn listed_key(draft: &Draft, p: Pid) -> &[u8]
    ensures { result.now ≡ plain.listed_key draft.now p }
{
    match draft.roster.key(p) {
        Some(key) => key,
        None => &[],
    }
}

// The process is hosted after the others, with its listed key.
fn add_plain_host(
    draft: &mut Draft,
    alloc: Global,
    process: Pid,
    total: u32,
) -> Result<(), NoMemory>
    requires size { length (plain.listed_key draft.old process) ≡ 32 }
    requires keeps { IsDraft (plain.with_host draft.old process (Plain (plain.listed_key draft.old process) total)) }
    ensures added { OnOk result (draft.new ≡ plain.with_host draft.old process (Plain (plain.listed_key draft.old process) total)) }
    ensures unchanged { OnErr result (draft.new ≡ draft.old) }
{
    let key = array_of(listed_key(draft, process));
    push_host(
        &mut draft.hosts,
        alloc,
        process,
        Secret::Plain { key, total },
    )
}

// Passes where the secret makes the public key on the key line of the process.
fn match_key(
    draft: &Draft,
    alloc: Global,
    number: usize,
    process: Pid,
    of: Secret,
) -> Result<(), KitFault>
    requires built { refusal_of (secret of) ≡ None }
    requires size { length (plain.listed_key draft.now process) ≡ key_length (scheme_of (secret of)) }
    ensures { Makes fault_of (λ nothing. nothing) result (plain.matching number draft.now process (secret of)) }
{
    let made = public_key_of(alloc, of)?;
    let bytes = listed_key(draft, process);
    if made.as_bytes() != bytes {
        return Err(KitFault::KeyMismatch {
            line: number,
            made,
            listed: like(made, bytes),
        });
    }
    Ok(())
}

// The process is hosted after the others, where the secret makes its listed key.
fn add_tree_host(
    draft: &mut Draft,
    alloc: Global,
    number: usize,
    process: Pid,
    of: Secret,
) -> Result<(), KitFault>
    requires trees { IsOfTrees (secret of) }
    requires can { CanAdd number draft.old (secret_line process (secret of)) }
    ensures added { Makes fault_of (λ _. draft.new) result (plain.with_line number draft.old (secret_line process (secret of))) }
    ensures unchanged { OnErr result (draft.new ≡ draft.old) }
{
    match_key(draft, alloc, number, process, of)?;
    push_host(&mut draft.hosts, alloc, process, of)?;
    Ok(())
}

// The secret of a tree with these parameters.
fn tree(height: u32, ots: OtsType, id: [u8; 16], seed: [u8; 32]) -> Secret
    ensures { secret result ≡ Lms height ots id seed }
{
    Secret::Lms {
        height,
        ots,
        id,
        seed,
    }
}

// The secret of this many levels of trees with these parameters.
fn levels_of(levels: u32, height: u32, ots: OtsType, id: [u8; 16], seed: [u8; 32]) -> Secret
    ensures { secret result ≡ Hss levels height ots id seed }
{
    Secret::Hss {
        levels,
        height,
        ots,
        id,
        seed,
    }
}

// Puts a line after those so far, where it is the next one.
fn add_line(draft: &mut Draft, alloc: Global, number: usize, said: KitLine) -> Result<(), KitFault>
    requires { CanAdd number draft.old (line said) }
    ensures added { Makes fault_of (λ _. draft.new) result (plain.with_line number draft.old (line said)) }
    ensures unchanged { OnErr result (draft.new ≡ draft.old) }
{
    match said {
        KitLine::Version(version) => draft.version = Some(version),
        KitLine::SchemeIs(scheme) => draft.scheme = Some(scheme),
        KitLine::GroupIs(group) => draft.group = Some(group),
        KitLine::Key { process, key } => draft.roster.add(process, key.as_bytes())?,
        KitLine::Genesis(members) => draft.genesis = members,
        KitLine::Port { process, port } => draft.ports.push((process, port))?,
        KitLine::PlainHost { process, total } => {
            add_plain_host(draft, alloc, process, total)?;
        }
        KitLine::LmsHost {
            process,
            height,
            ots,
            id,
            seed,
        } => {
            let secret = tree(height, ots, id, seed);
            add_tree_host(draft, alloc, number, process, secret)?;
        }
        KitLine::HssHost {
            process,
            levels,
            height,
            ots,
            id,
            seed,
        } => {
            let secret = levels_of(levels, height, ots, id, seed);
            add_tree_host(draft, alloc, number, process, secret)?;
        }
        KitLine::Pair { other, key, .. } => push_pair(&mut draft.hosts, other, key)?,
    }
    Ok(())
}

// The line that these words are after those so far.
fn said_by(draft: &Draft, words: Words<'_>) -> Option<KitLine>
    ensures said { option_map line result ≡ plain.line_by (plain.may_of draft.now) (parts_left words.entry) }
    ensures holds { IsDraft draft.now }
{
    line_by(draft.reported(), words)
}

/// Takes the line of this number, without its line feed, after those so far, or answers its first fault.
#[tactic(auto, unfolding(kit_defs::specs::KitReading::take_line))]
pub fn take_line(
    draft: &mut Draft,
    alloc: Global,
    number: usize,
    text: &[u8],
) -> Result<(), KitFault>
    ensures taken { Makes fault_of (λ _. draft.new) result (plain.take_line number draft.old text.now) }
    ensures unchanged { OnErr result (draft.new ≡ draft.old) }
{
    if text.len() > MOST_LINE_BYTES {
        return Err(KitFault::Line { line: number });
    }
    let words = Words::words(text);
    if draft.is_repeated(words) {
        return Err(KitFault::Repeated { line: number });
    }
    let Some(said) = said_by(draft, words) else {
        return Err(KitFault::Line { line: number });
    };
    if draft.is_outside(&said) || draft.is_late(&said) {
        return Err(KitFault::Line { line: number });
    }
    if draft.is_early(&said) {
        return Err(KitFault::Missing { line: number });
    }
    if draft.is_of_strangers(&said) {
        return Err(KitFault::Line { line: number });
    }
    add_line(draft, alloc, number, said)
}
