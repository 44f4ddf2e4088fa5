//! The views that a process installed, and what it delivered in them.
ghost use Rattle.std.specs.Prelude.{◌≡◌, ◌++◌, ◌∷◌, [], codes, map, OnOk};
ghost use Rattle.std.specs.List.{flat_map, enumerate_from, join_with_byte};
ghost use Rattle.std.specs.Fmt.{decimal};
ghost use Rattle.text_defs.specs.Words.{space, line_text};
ghost use Rattle.replay_defs.specs.Reports as plain;
ghost use Rattle.accounts.specs.Views.{delivery};

use crate::words::{end_line, push_number_word};
use accounts::Delivered;
use rp_base::{NoMemory, Pid};
use text_codec::push_byte_list;
use view_table::View;

// The words of a view's line before its members.
fn push_view_name(out: &mut Vec<u8>, me: Pid, view: &View) -> Result<(), NoMemory>
    ensures { OnOk result (out.new.items
        ≡ out.old.items ++ join_with_byte space (codes "view" ∷ decimal me ∷ decimal view.now.number ∷ codes ":" ∷ [])) }
{
    out.extend_from_slice(b"view")?;
    push_number_word(out, me.get().into())?;
    push_number_word(out, view.number().into())?;
    out.extend_from_slice(b" :")?;
    Ok(())
}

fn push_members(out: &mut Vec<u8>, members: &[Pid]) -> Result<(), NoMemory>
    ensures { OnOk result (out.new.items ≡ out.old.items ++ flat_map (λ m. space ∷ decimal m) members.now) }
{
    for member in members {
        push_number_word(out, member.get().into())?;
    }
    Ok(())
}

// A view: its members in rank order.
fn push_view(out: &mut Vec<u8>, me: Pid, view: &View) -> Result<(), NoMemory>
    ensures { OnOk result (out.new.items ≡ out.old.items ++ plain.view_line me view.now) }
{
    push_view_name(out, me, view)?;
    push_members(out, view.members())?;
    end_line(out)?;
    Ok(())
}

/// The views that the process of this number installed.
pub(crate) fn push_views(out: &mut Vec<u8>, me: Pid, views: &[View]) -> Result<(), NoMemory>
    ensures { OnOk result (out.new.items ≡ out.old.items ++ flat_map (plain.view_line me) views.now) }
{
    for view in views {
        push_view(out, me, view)?;
    }
    Ok(())
}

// The words of a message's line before its sender.
fn push_place(out: &mut Vec<u8>, me: Pid, x: u64, place: u16) -> Result<(), NoMemory>
    ensures { OnOk result (out.new.items
        ≡ out.old.items ++ join_with_byte space (codes "message" ∷ decimal me ∷ decimal x ∷ decimal place ∷ [])) }
{
    out.extend_from_slice(b"message")?;
    push_number_word(out, me.get().into())?;
    push_number_word(out, x)?;
    push_number_word(out, place.into())
}

// The payload as a word, and the line feed.
fn push_payload(out: &mut Vec<u8>, payload: &[u8]) -> Result<(), NoMemory>
    ensures { OnOk result (out.new.items ≡ out.old.items ++ space ∷ line_text (plain.payload_word payload.now ∷ [])) }
{
    out.push(b' ')?;
    push_byte_list(out, payload)?;
    end_line(out)?;
    Ok(())
}

// A message that was delivered in the view of this number.
fn push_message(out: &mut Vec<u8>, me: Pid, x: u64, d: &Delivered) -> Result<(), NoMemory>
    ensures { OnOk result (out.new.items ≡ out.old.items ++ plain.message_line me x (delivery d.now)) }
{
    push_place(out, me, x, d.place)?;
    push_number_word(out, d.sender.get().into())?;
    push_number_word(out, d.number.into())?;
    push_payload(out, d.payload.bytes())
}

// What was delivered in the view of this number.
fn push_messages(
    out: &mut Vec<u8>,
    me: Pid,
    x: u64,
    delivered: &[Delivered],
) -> Result<(), NoMemory>
    ensures { OnOk result (out.new.items ≡ out.old.items ++ flat_map (plain.message_line me x) (map delivery delivered.now)) }
{
    for d in delivered {
        push_message(out, me, x, d)?;
    }
    Ok(())
}

/// What the process of this number delivered, by view.
pub(crate) fn push_deliveries(
    out: &mut Vec<u8>,
    me: Pid,
    delivered: &[Vec<Delivered>],
) -> Result<(), NoMemory>
    ensures { OnOk result (out.new.items ≡ out.old.items
        ++ flat_map (plain.message_lines me) (enumerate_from 0 (map (λ ds. map delivery ds.items) delivered.now))) }
{
    for (x, of_view) in delivered.iter().enumerate() {
        push_messages(out, me, x as u64, of_view)?;
    }
    Ok(())
}
