//! The line of a view.
ghost use Rattle.std.specs.Prelude.{◌≡◌, ◌++◌, ◌∷◌, [], codes, IfOk, OnOk};
ghost use Rattle.std.specs.List.{flat_map, join_with_byte};
ghost use Rattle.std.specs.Fmt.{decimal};
ghost use Rattle.text_defs.specs.Words.{space};
ghost use Rattle.chain_text_defs.specs.Chains as plain;

use rp_base::{NoMemory, Pid};
use std::alloc::Global;
use text_codec::push_number;
use view_table::View;

// The words of a view's line before its members.
fn named(alloc: Global, view: &View) -> Result<Vec<u8>, NoMemory>
    ensures { IfOk result (λ text. text.items
        ≡ join_with_byte space (codes "view" ∷ decimal view.now.number ∷ codes ":" ∷ [])) }
{
    let mut text = b"view ".to_vec(alloc)?;
    push_number(&mut text, view.number().into())?;
    text.extend_from_slice(b" :")?;
    Ok(text)
}

fn push_member(out: &mut Vec<u8>, member: Pid) -> Result<(), NoMemory>
    ensures { OnOk result (out.new.items ≡ out.old.items ++ space ∷ decimal member) }
{
    out.push(b' ')?;
    push_number(out, member.get().into())
}

fn push_members(out: &mut Vec<u8>, members: &[Pid]) -> Result<(), NoMemory>
    ensures { OnOk result (out.new.items ≡ out.old.items ++ flat_map (λ m. space ∷ decimal m) members.now) }
{
    for member in members {
        push_member(out, *member)?;
    }
    Ok(())
}

/// The line of a view: its number, and its members in rank order.
pub(crate) fn view_line(alloc: Global, view: &View) -> Result<Vec<u8>, NoMemory>
    ensures { IfOk result (λ text. text.items ≡ plain.view_line view.now) }
{
    let mut text = named(alloc, view)?;
    push_members(&mut text, view.members())?;
    text.push(b'\n')?;
    Ok(text)
}
