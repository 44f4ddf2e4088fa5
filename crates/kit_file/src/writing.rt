//! Kits as text: each line is its words with one space between them and a line feed at the end.
ghost use Rattle.std.specs.Prelude.{◌≡◌, ◌++◌, ◌∷◌, [], codes, map, OnOk, OnErr};
ghost use Rattle.std.specs.List.{flat_map, join_with_byte};
ghost use Rattle.std.specs.Fmt.{decimal};
ghost use Rattle.hex.specs.Hex.{encode_lower};
ghost use Rattle.signature_defs.specs.LmOts.{ots_typecode};
ghost use Rattle.sig_scheme.specs.Views.{scheme, secret};
ghost use Rattle.text_defs.specs.Words.{space, line_feed, line_text};
ghost use Rattle.kit_defs.specs.Kits.{line_words, text_of_lines, public_lines, host_lines, key_line, port_line, pair_line, secret_line, kit_text, version_of, Version, SchemeIs, GroupIs, Genesis, Key, Port, PlainHost, LmsHost, HssHost, Pair};
ghost use Rattle.kit_file.specs.Views.{host, hosts};

use crate::kit::Kit;
use crate::parts::{Host, Parts};
use lms_ots::{OtsType, ots_typecode};
use rp_base::{GroupId, NoMemory, Pid, Roster};
use sig_scheme::{AnyScheme, Secret};
use text_codec::{push_hex, push_number};

/// Appends the text of a kit, as docs/FORMATS.md spells it: the lines of the public part, and those of the hosts.
///
/// # Errors
/// [`NoMemory`] where the room for the text is refused; nothing is appended then.
pub fn write_kit(kit: &Kit, out: &mut Vec<u8>) -> Result<(), NoMemory>
    ensures written { OnOk result (out.new.items ≡ out.old.items ++ kit_text kit.now) }
    ensures unchanged { OnErr result (out.new.items ≡ out.old.items) }
{
    let parts = kit.parts();
    let mut text = Vec::new(*out.allocator());
    push_public(&mut text, parts)?;
    push_hosts(&mut text, &parts.hosts)?;
    out.extend_from_slice(&text)?;
    Ok(())
}

/// Appends the lines of the public part, from the version to the last port.
pub(crate) fn push_public(out: &mut Vec<u8>, parts: &Parts) -> Result<(), NoMemory>
    ensures { OnOk result (out.new.items ≡ out.old.items ++ text_of_lines (public_lines parts.now)) }
{
    push_head(out, parts.scheme, parts.group)?;
    push_keys(out, &parts.roster)?;
    push_genesis(out, &parts.genesis)?;
    push_ports(out, &parts.ports)
}

// The lines before the first key.
fn push_head(out: &mut Vec<u8>, of: AnyScheme, group: GroupId) -> Result<(), NoMemory>
    ensures { OnOk result (out.new.items ≡ out.old.items
        ++ text_of_lines (Version (version_of (scheme of)) ∷ SchemeIs (scheme of) ∷ GroupIs group ∷ [])) }
{
    out.extend_from_slice(match of {
        AnyScheme::Plain => b"rampart kit 1\nscheme plain\n",
        AnyScheme::Lms => b"rampart kit 1\nscheme lms\n",
        AnyScheme::Hss => b"rampart kit 2\nscheme hss\n",
    })?;
    out.extend_from_slice(b"group")?;
    push_bytes_word(out, group.bytes())?;
    end_line(out)
}

fn push_keys(out: &mut Vec<u8>, roster: &Roster) -> Result<(), NoMemory>
    ensures { OnOk result (out.new.items ≡ out.old.items ++ text_of_lines (map key_line roster.now)) }
{
    for process in roster.processes().iter() {
        let Some(key) = roster.key(process) else {
            unreachable!();
        };
        push_key(out, process, key)?;
    }
    Ok(())
}

fn push_key(out: &mut Vec<u8>, process: Pid, key: &[u8]) -> Result<(), NoMemory>
    ensures { OnOk result (out.new.items ≡ out.old.items ++ line_text (line_words (Key process key.now))) }
{
    out.extend_from_slice(b"key")?;
    push_number_word(out, process.get().into())?;
    push_bytes_word(out, key)?;
    end_line(out)
}

fn push_genesis(out: &mut Vec<u8>, members: &[Pid]) -> Result<(), NoMemory>
    ensures { OnOk result (out.new.items ≡ out.old.items ++ line_text (line_words (Genesis members.now))) }
{
    out.extend_from_slice(b"genesis")?;
    for member in members {
        push_number_word(out, member.get().into())?;
    }
    end_line(out)
}

fn push_ports(out: &mut Vec<u8>, ports: &[(Pid, u16)]) -> Result<(), NoMemory>
    ensures { OnOk result (out.new.items ≡ out.old.items ++ text_of_lines (map port_line ports.now)) }
{
    for (process, port) in ports {
        push_port(out, *process, *port)?;
    }
    Ok(())
}

fn push_port(out: &mut Vec<u8>, process: Pid, port: u16) -> Result<(), NoMemory>
    ensures { OnOk result (out.new.items ≡ out.old.items ++ line_text (line_words (Port process port))) }
{
    out.extend_from_slice(b"port")?;
    push_number_word(out, process.get().into())?;
    push_number_word(out, port.into())?;
    end_line(out)
}

// The lines of each host.
fn push_hosts(out: &mut Vec<u8>, all: &[Host]) -> Result<(), NoMemory>
    ensures { OnOk result (out.new.items ≡ out.old.items ++ text_of_lines (flat_map host_lines (hosts all.now))) }
{
    for one in all {
        push_secret(out, one.process, one.secret)?;
        push_pairs(out, one.process, &one.pairs)?;
    }
    Ok(())
}

fn push_secret(out: &mut Vec<u8>, process: Pid, of: Secret) -> Result<(), NoMemory>
    ensures { OnOk result (out.new.items ≡ out.old.items ++ line_text (line_words (secret_line process (secret of)))) }
{
    match of {
        Secret::Plain { total, .. } => push_plain(out, process, total),
        Secret::Lms {
            height,
            ots,
            id,
            seed,
        } => push_lms(out, process, height, ots, &id, &seed),
        Secret::Hss {
            levels,
            height,
            ots,
            id,
            seed,
        } => push_hss(out, process, levels, height, ots, &id, &seed),
    }
}

fn push_plain(out: &mut Vec<u8>, process: Pid, total: u32) -> Result<(), NoMemory>
    ensures { OnOk result (out.new.items ≡ out.old.items ++ line_text (line_words (PlainHost process total))) }
{
    push_host(out, process, b"plain")?;
    push_number_word(out, total.into())?;
    end_line(out)
}

fn push_lms(
    out: &mut Vec<u8>,
    process: Pid,
    height: u32,
    ots: OtsType,
    id: &[u8; 16],
    seed: &[u8; 32],
) -> Result<(), NoMemory>
    ensures { OnOk result (out.new.items ≡ out.old.items ++ line_text (line_words (LmsHost process height ots id.now seed.now))) }
{
    push_host(out, process, b"lms")?;
    push_tree(out, height, ots, id, seed)
}

fn push_hss(
    out: &mut Vec<u8>,
    process: Pid,
    levels: u32,
    height: u32,
    ots: OtsType,
    id: &[u8; 16],
    seed: &[u8; 32],
) -> Result<(), NoMemory>
    ensures { OnOk result (out.new.items ≡ out.old.items ++ line_text (line_words (HssHost process levels height ots id.now seed.now))) }
{
    push_host(out, process, b"hss")?;
    push_number_word(out, levels.into())?;
    push_tree(out, height, ots, id, seed)
}

// The words with which the line of a tree's host ends: the typecodes, I and SEED.
fn push_tree(
    out: &mut Vec<u8>,
    height: u32,
    ots: OtsType,
    id: &[u8; 16],
    seed: &[u8; 32],
) -> Result<(), NoMemory>
    ensures { OnOk result (out.new.items ≡ out.old.items
        ++ space ∷ line_text (decimal height ∷ decimal (ots_typecode ots) ∷ encode_lower id.now ∷ encode_lower seed.now ∷ [])) }
{
    push_number_word(out, height.into())?;
    push_number_word(out, ots_typecode(ots).into())?;
    push_bytes_word(out, id)?;
    push_bytes_word(out, seed)?;
    end_line(out)
}

// The words with which a host line begins: `host`, the process, and the scheme.
fn push_host(out: &mut Vec<u8>, process: Pid, scheme: &[u8]) -> Result<(), NoMemory>
    ensures { OnOk result (out.new.items ≡ out.old.items ++ join_with_byte space (codes "host" ∷ decimal process ∷ scheme.now ∷ [])) }
{
    out.extend_from_slice(b"host")?;
    push_number_word(out, process.get().into())?;
    out.push(b' ')?;
    out.extend_from_slice(scheme)?;
    Ok(())
}

fn push_pairs(out: &mut Vec<u8>, process: Pid, pairs: &[(Pid, [u8; 32])]) -> Result<(), NoMemory>
    ensures { OnOk result (out.new.items ≡ out.old.items ++ text_of_lines (map (pair_line process) pairs.now)) }
{
    for (other, key) in pairs {
        push_pair(out, process, *other, key)?;
    }
    Ok(())
}

fn push_pair(out: &mut Vec<u8>, process: Pid, other: Pid, key: &[u8; 32]) -> Result<(), NoMemory>
    ensures { OnOk result (out.new.items ≡ out.old.items ++ line_text (line_words (Pair process other key.now))) }
{
    out.extend_from_slice(b"pair")?;
    push_number_word(out, process.get().into())?;
    push_number_word(out, other.get().into())?;
    push_bytes_word(out, key)?;
    end_line(out)
}

// A space, and a number as the next word.
fn push_number_word(out: &mut Vec<u8>, n: u64) -> Result<(), NoMemory>
    ensures { OnOk result (out.new.items ≡ out.old.items ++ space ∷ decimal n) }
{
    out.push(b' ')?;
    push_number(out, n)
}

// A space, and bytes as the next word.
fn push_bytes_word(out: &mut Vec<u8>, bytes: &[u8]) -> Result<(), NoMemory>
    ensures { OnOk result (out.new.items ≡ out.old.items ++ space ∷ encode_lower bytes.now) }
{
    out.push(b' ')?;
    push_hex(out, bytes)
}

fn end_line(out: &mut Vec<u8>) -> Result<(), NoMemory>
    ensures { OnOk result (out.new.items ≡ out.old.items ++ line_feed ∷ []) }
{
    out.push(b'\n')?;
    Ok(())
}
