//! The lines before the events.
ghost use Rattle.std.specs.Prelude.{◌≡◌, ◌++◌, ◌∷◌, [], map, OnOk};
ghost use Rattle.std.specs.List.{flat_map};
ghost use Rattle.schedule_file.specs.Views as views;
ghost use Rattle.story_defs.specs.Texts as plain;
ghost use Rattle.story_defs.specs.Words.{scheme_word};
ghost use Rattle.story_writing.specs.Tokens.{behind};

use crate::tokens::{Token, begin_line, end_line, push_behind, push_line};
use lms_ots::ots_typecode;
use rp_base::{NoMemory, Pid};
use schedule_file::{Header, Key, Listed, OtsType, Scheme};

fn scheme_word(scheme: Scheme) -> &'static [u8]
    ensures { result.now ≡ scheme_word scheme }
{
    match scheme {
        Scheme::Plain => b"plain",
        Scheme::Lms => b"lms",
        Scheme::Hss => b"hss",
    }
}

fn role_word(corrupt: bool) -> &'static [u8]
    ensures { result.now ≡ plain.role_word corrupt }
{
    if corrupt { b"corrupt" } else { b"correct" }
}

// The batch limit, where it is not 1.
fn push_limit(out: &mut Vec<u8>, limit: u8) -> Result<(), NoMemory>
    ensures { OnOk result (out.new.items ≡ out.old.items ++ behind (plain.limit_tokens limit)) }
{
    if limit == 1 {
        return Ok(());
    }
    push_behind(out, &[Token::Word(b"batch"), Token::Number(limit.into())])
}

/// Appends the line of the group.
pub fn push_group(out: &mut Vec<u8>, header: &Header) -> Result<(), NoMemory>
    ensures { OnOk result (out.new.items ≡ out.old.items ++ plain.token_line (plain.group_tokens (views.header header.now))) }
{
    begin_line(out, b"group")?;
    push_behind(
        out,
        &[
            Token::Bytes(header.group.bytes()),
            Token::Word(scheme_word(header.scheme)),
        ],
    )?;
    push_limit(out, header.batch)?;
    end_line(out)
}

// A plain key and its total; a key of 32 bytes of its process's number is not written.
fn push_plain(out: &mut Vec<u8>, p: Pid, key: &[u8; 32], total: u32) -> Result<(), NoMemory>
    ensures { OnOk result (out.new.items ≡ out.old.items ++ behind (plain.plain_tokens p key.now ++ plain.number total ∷ [])) }
{
    if *key == [p.get(); 32] {
        return push_behind(out, &[Token::Number(total.into())]);
    }
    push_behind(out, &[Token::Bytes(key), Token::Number(total.into())])
}

// The parameters of a tree.
fn push_tree<'a>(
    out: &mut Vec<u8>,
    height: u8,
    ots: OtsType,
    id: &'a [u8; 16],
    seed: &'a [u8; 32],
) -> Result<(), NoMemory>
    ensures { OnOk result (out.new.items ≡ out.old.items ++ behind (plain.tree_tokens height ots id.now seed.now)) }
{
    push_behind(
        out,
        &[
            Token::Number(height.into()),
            Token::Number(ots_typecode(ots).into()),
            Token::Bytes(id),
            Token::Bytes(seed),
        ],
    )
}

fn push_key(out: &mut Vec<u8>, p: Pid, key: &Key) -> Result<(), NoMemory>
    ensures { OnOk result (out.new.items ≡ out.old.items ++ behind (plain.key_tokens p (views.key key.now))) }
{
    match key {
        Key::Plain { key, total } => {
            push_behind(out, &[Token::Word(b"plain")])?;
            push_plain(out, p, key, *total)
        }
        Key::Lms {
            height,
            ots,
            id,
            seed,
        } => {
            push_behind(out, &[Token::Word(b"lms")])?;
            push_tree(out, *height, *ots, id, seed)
        }
        Key::Hss {
            levels,
            height,
            ots,
            id,
            seed,
        } => {
            push_behind(out, &[Token::Word(b"hss"), Token::Number((*levels).into())])?;
            push_tree(out, *height, *ots, id, seed)
        }
    }
}

fn push_listed(out: &mut Vec<u8>, listed: &Listed) -> Result<(), NoMemory>
    ensures { OnOk result (out.new.items ≡ out.old.items ++ plain.token_line (plain.listed_tokens (views.listed listed.now))) }
{
    begin_line(out, b"process")?;
    push_behind(
        out,
        &[
            Token::Number(listed.process.get().into()),
            Token::Word(role_word(listed.corrupt)),
        ],
    )?;
    push_key(out, listed.process, &listed.key)?;
    end_line(out)
}

/// Appends a line for each process.
pub fn push_all_listed(out: &mut Vec<u8>, processes: &[Listed]) -> Result<(), NoMemory>
    ensures { OnOk result (out.new.items ≡ out.old.items
        ++ flat_map plain.token_line (map plain.listed_tokens (map views.listed processes.now))) }
{
    'processes: for listed in processes {
        push_listed(out, listed)?;
    }
    Ok(())
}

fn push_members(out: &mut Vec<u8>, members: &[Pid]) -> Result<(), NoMemory>
    ensures { OnOk result (out.new.items ≡ out.old.items ++ behind (plain.numbers members.now)) }
{
    'members: for member in members {
        push_behind(out, &[Token::Number(member.get().into())])?;
    }
    Ok(())
}

/// Appends the line of the first view.
pub fn push_genesis(out: &mut Vec<u8>, members: &[Pid]) -> Result<(), NoMemory>
    ensures { OnOk result (out.new.items ≡ out.old.items ++ plain.token_line (plain.genesis_tokens members.now)) }
{
    begin_line(out, b"genesis")?;
    push_members(out, members)?;
    end_line(out)
}
