//! The lines before the events: the group, its processes, and the first view.
ghost use Rattle.std.specs.Prelude.{◌≡◌, ◌++◌, ◌∷◌, ◌<◌, ◌≤◌, ◌==◌, [], length, OnOk, IfOk};
ghost use Rattle.byte_defs.specs.Fields.{four_bytes};
ghost use Rattle.byte_defs.specs.Reads.{Makes};
ghost use Rattle.replay_defs.specs.Schedules.{magic, version_of, scheme_byte, limit_bytes};
ghost use Rattle.story_defs.specs.Lines as plain;
ghost use Rattle.story_defs.specs.Words.{scheme_word};
ghost use Rattle.story_lines.specs.Cursors.{left};
ghost use Rattle.story_lines.specs.Faults.{expected_of};

use replay_defs::Scheme;
use rp_base::{NoMemory, Pid};
use std::alloc::Global;
use story_lines::{Expected, LineFault, Words};

const GROUP: Expected = Expected::Group;

const PROCESS: Expected = Expected::Process;

const GENESIS: Expected = Expected::Genesis;

fn scheme_byte(scheme: Scheme) -> u8
    ensures { result ≡ scheme_byte scheme }
{
    match scheme {
        Scheme::Plain => 0,
        Scheme::Lms => 1,
        Scheme::Hss => 2,
    }
}

fn scheme_word(scheme: Scheme) -> &'static [u8]
    ensures { result.now ≡ scheme_word scheme }
{
    match scheme {
        Scheme::Plain => b"plain",
        Scheme::Lms => b"lms",
        Scheme::Hss => b"hss",
    }
}

// The batch limit, which is 1 where none is given.
#[tactic(auto, unfolding(story_defs::specs::Lines::limit_at))]
fn limit(words: &mut Words<'_>) -> Result<u8, LineFault>
    ensures { Makes expected_of (λ n. n) result (plain.limit_at (left words.old)) }
{
    if words.is_done() {
        return Ok(1);
    }
    words.word(b"batch", GROUP)?;
    let limit = words.number(2, 16, GROUP)? as u8;
    words.end(GROUP)?;
    Ok(limit)
}

// The magic, the scheme, and the batch limit where it is not 1.
fn push_version(out: &mut Vec<u8>, scheme: Scheme, limit: u8) -> Result<(), NoMemory>
    ensures { OnOk result (out.new.items ≡ out.old.items ++ (magic (version_of scheme limit) ++ (scheme_byte scheme ∷ limit_bytes limit))) }
{
    if limit == 1 {
        out.extend_from_slice(match scheme {
            Scheme::Plain | Scheme::Lms => b"RPS1",
            Scheme::Hss => b"RPS2",
        })?;
        out.push(scheme_byte(scheme))?;
    } else {
        out.extend_from_slice(b"RPS3")?;
        out.push(scheme_byte(scheme))?;
        out.push(limit)?;
    }
    Ok(())
}

// The bytes up to the group's name.
fn front_bytes(
    alloc: Global,
    scheme: Scheme,
    limit: u8,
    group: &[u8; 16],
) -> Result<Vec<u8>, NoMemory>
    ensures { IfOk result (λ bytes. bytes.items ≡ plain.front_bytes scheme limit group.now) }
{
    let mut bytes = Vec::new(alloc);
    push_version(&mut bytes, scheme, limit)?;
    bytes.extend_from_slice(group)?;
    Ok(bytes)
}

/// The words after `group`: the scheme, and the bytes up to the name.
#[tactic(auto, unfolding(story_defs::specs::Lines::group_at))]
pub fn group(alloc: Global, words: &mut Words<'_>) -> Result<(Scheme, Vec<u8>), LineFault>
    ensures { Makes expected_of (λ g. (g.0, g.1.items)) result (plain.group_at (left words.old)) }
{
    let name = words.sized::<16>(GROUP)?;
    let scheme = words.scheme(GROUP)?;
    let limit = limit(words)?;
    let bytes = front_bytes(alloc, scheme, limit, &name)?;
    Ok((scheme, bytes))
}

// How many bodies a plain key signs.
fn total(words: &mut Words<'_>) -> Result<u32, LineFault>
    ensures { Makes expected_of (λ n. n) result (plain.total_at (left words.old)) }
{
    let total = words.number(0, u32::MAX, PROCESS)?;
    words.end(PROCESS)?;
    Ok(total)
}

fn plain_bytes(alloc: Global, key: &[u8; 32], total: u32) -> Result<Vec<u8>, NoMemory>
    ensures { IfOk result (λ bytes. bytes.items ≡ key.now ++ four_bytes total) }
{
    let mut bytes = key.to_vec(alloc)?;
    bytes.extend_from_slice(&total.to_be_bytes())?;
    Ok(bytes)
}

// The total of a plain key of 32 bytes of the process's number.
fn short_key(alloc: Global, p: Pid, words: &mut Words<'_>) -> Result<Vec<u8>, LineFault>
    ensures { Makes expected_of (λ bytes. bytes.items) result (plain.short_at p (left words.old)) }
{
    let total = total(words)?;
    Ok(plain_bytes(alloc, &[p.get(); 32], total)?)
}

// A plain key and its total.
fn whole_key(alloc: Global, words: &mut Words<'_>) -> Result<Vec<u8>, LineFault>
    ensures { Makes expected_of (λ bytes. bytes.items) result (plain.whole_at (left words.old)) }
{
    let key = words.sized::<32>(PROCESS)?;
    let total = total(words)?;
    Ok(plain_bytes(alloc, &key, total)?)
}

// The words after `plain`: in one word the total alone.
fn plain_key(alloc: Global, p: Pid, words: &mut Words<'_>) -> Result<Vec<u8>, LineFault>
    ensures { Makes expected_of (λ bytes. bytes.items) result (plain.plain_at p (left words.old)) }
{
    let mut behind = *words;
    behind.next_word(PROCESS)?;
    if behind.is_done() {
        short_key(alloc, p, words)
    } else {
        whole_key(alloc, words)
    }
}

fn tree_bytes(
    alloc: Global,
    height: u8,
    kind: u8,
    id: &[u8; 16],
    seed: &[u8; 32],
) -> Result<Vec<u8>, NoMemory>
    ensures { IfOk result (λ bytes. bytes.items ≡ height ∷ kind ∷ (id.now ++ seed.now)) }
{
    let mut bytes = [height, kind].to_vec(alloc)?;
    bytes.extend_from_slice(id)?;
    bytes.extend_from_slice(seed)?;
    Ok(bytes)
}

// The parameters of a tree.
#[tactic(auto, unfolding(story_defs::specs::Lines::tree_at))]
fn tree(alloc: Global, words: &mut Words<'_>) -> Result<Vec<u8>, LineFault>
    ensures { Makes expected_of (λ bytes. bytes.items) result (plain.tree_at (left words.old)) }
{
    let height = words.number(0, 255, PROCESS)? as u8;
    let kind = words.number(0, 255, PROCESS)? as u8;
    let id = words.sized::<16>(PROCESS)?;
    let seed = words.sized::<32>(PROCESS)?;
    words.end(PROCESS)?;
    Ok(tree_bytes(alloc, height, kind, &id, &seed)?)
}

// Bytes after others.
fn joined(alloc: Global, first: &[u8], behind: &[u8]) -> Result<Vec<u8>, NoMemory>
    ensures { IfOk result (λ bytes. bytes.items ≡ first.now ++ behind.now) }
{
    let mut bytes = first.to_vec(alloc)?;
    bytes.extend_from_slice(behind)?;
    Ok(bytes)
}

// The number of levels, and the parameters of their trees.
#[tactic(auto, unfolding(story_defs::specs::Lines::levels_at))]
fn levels(alloc: Global, words: &mut Words<'_>) -> Result<Vec<u8>, LineFault>
    ensures { Makes expected_of (λ bytes. bytes.items) result (plain.levels_at (left words.old)) }
{
    let levels = words.number(0, 255, PROCESS)? as u8;
    let tree = tree(alloc, words)?;
    Ok(joined(alloc, &[levels], &tree)?)
}

// The key of a process, after the scheme's word.
fn key(alloc: Global, scheme: Scheme, p: Pid, words: &mut Words<'_>) -> Result<Vec<u8>, LineFault>
    ensures { Makes expected_of (λ bytes. bytes.items) result (plain.key_at scheme p (left words.old)) }
{
    match scheme {
        Scheme::Plain => plain_key(alloc, p, words),
        Scheme::Lms => tree(alloc, words),
        Scheme::Hss => levels(alloc, words),
    }
}

/// The words after `process`: its number, its role and its key.
#[tactic(auto, unfolding(story_defs::specs::Lines::listed_at))]
pub fn listed(alloc: Global, scheme: Scheme, words: &mut Words<'_>) -> Result<Vec<u8>, LineFault>
    ensures { Makes expected_of (λ bytes. bytes.items) result (plain.listed_at scheme (left words.old)) }
{
    let process = words.process(PROCESS)?;
    let role = words.role(PROCESS)?;
    words.word(scheme_word(scheme), PROCESS)?;
    let key = key(alloc, scheme, process, words)?;
    Ok(joined(alloc, &[process.get(), role], &key)?)
}

// The processes that all the words name.
fn members(alloc: Global, words: &mut Words<'_>) -> Result<Vec<u8>, LineFault>
    ensures { Makes expected_of (λ ps. ps.items) result (plain.members_behind [] (left words.old)) }
{
    let mut members = Vec::new(alloc);
    'members: while !words.is_done() {
        let p = words.process(GENESIS)?;
        members.push(p.get())?;
    }
    Ok(members)
}

/// The words after `genesis`: the number of members, at most 16, and each of them.
#[tactic(auto, unfolding(story_defs::specs::Lines::genesis_at))]
pub fn genesis(alloc: Global, words: &mut Words<'_>) -> Result<Vec<u8>, LineFault>
    ensures { Makes expected_of (λ bytes. bytes.items) result (plain.genesis_at (left words.old)) }
{
    let members = members(alloc, words)?;
    if members.len() > 16 {
        return Err(LineFault::Expected(GENESIS));
    }
    Ok(joined(alloc, &[members.len() as u8], &members)?)
}
