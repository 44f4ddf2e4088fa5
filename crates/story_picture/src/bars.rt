//! A bar for each view, from its installation on.
ghost use Rattle.std.specs.Prelude.{◌≡◌, ◌++◌, map, OnOk};
ghost use Rattle.std.specs.List.{flat_map};
ghost use Rattle.schedule_file.specs.Views.{listed};
ghost use Rattle.happenings.specs.Events.{note as note_of};
ghost use Rattle.happenings.specs.Reported.{happening as happening_of};
ghost use Rattle.picture_defs.specs.Drawing as plain;
ghost use Rattle.picture_defs.specs.Pictures.{each_row};
ghost use Rattle.story_picture.specs.Views.{row as row_of};

use crate::rows::Row;
use happenings::{Happening, Seen};
use member_events::Note;
use picture_labels::{Point, between, left_of, place, push_bar, push_stroke, row};
use rp_base::{NoMemory, Pid};
use schedule_file::Listed;

// Views take turns in four colours.
fn view_class(view: u16) -> &'static [u8]
    ensures { result.now ≡ plain.view_class view }
{
    if view % 4 == 0 {
        return b"view0";
    }
    if view % 4 == 1 {
        return b"view1";
    }
    if view % 4 == 2 { b"view2" } else { b"view3" }
}

// The bar of a view that is installed in row k, down to the last of n rows; that of its next view covers the rest of it.
fn push_view_bar(
    out: &mut Vec<u8>,
    processes: &[Listed],
    n: u64,
    p: Pid,
    view: u16,
    k: u64,
) -> Result<(), NoMemory>
    ensures { OnOk result (out.new.items ≡ out.old.items ++ plain.view_bar (map listed processes.now) n p view k) }
{
    let at = Point {
        x: left_of(processes, p, 4)?,
        y: row(k)?,
    };
    let tall = between(k, n)?;
    push_bar(out, view_class(view), at, 8, tall)
}

// The line of a corrupt process.
fn push_liar(out: &mut Vec<u8>, processes: &[Listed], n: u64, p: Pid) -> Result<(), NoMemory>
    ensures { OnOk result (out.new.items ≡ out.old.items ++ plain.liar_line (map listed processes.now) n p) }
{
    let from = place(processes, p, 0)?;
    let to = place(processes, p, n)?;
    push_stroke(out, b"liar", from, to)
}

// The life of a process in n rows.
fn push_life(out: &mut Vec<u8>, processes: &[Listed], n: u64, one: &Listed) -> Result<(), NoMemory>
    ensures { OnOk result (out.new.items ≡ out.old.items ++ plain.life (map listed processes.now) n (listed one.now)) }
{
    if one.corrupt {
        return push_liar(out, processes, n, one.process);
    }
    push_view_bar(out, processes, n, one.process, 0, 0)
}

/// The lives of all processes.
pub(crate) fn push_lives(out: &mut Vec<u8>, processes: &[Listed], n: u64) -> Result<(), NoMemory>
    ensures { OnOk result (out.new.items ≡ out.old.items
        ++ flat_map (plain.life (map listed processes.now) n) (map listed processes.now)) }
{
    for one in processes {
        push_life(out, processes, n, one)?;
    }
    Ok(())
}

// The bar of what process p reports in row k, where it is a view.
fn push_note_bar(
    out: &mut Vec<u8>,
    processes: &[Listed],
    n: u64,
    p: Pid,
    k: u64,
    note: &Note,
) -> Result<(), NoMemory>
    ensures { OnOk result (out.new.items ≡ out.old.items ++ plain.note_bar (map listed processes.now) n p k (note_of note.now)) }
{
    match note {
        Note::Installed { view, .. } => push_view_bar(out, processes, n, p, *view, k),
        _ => Ok(()),
    }
}

// The bars of what process p reports in row k.
fn push_note_bars(
    out: &mut Vec<u8>,
    processes: &[Listed],
    n: u64,
    p: Pid,
    k: u64,
    notes: &[Note],
) -> Result<(), NoMemory>
    ensures { OnOk result (out.new.items ≡ out.old.items
        ++ flat_map (plain.note_bar (map listed processes.now) n p k) (map note_of notes.now)) }
{
    for note in notes {
        push_note_bar(out, processes, n, p, k, note)?;
    }
    Ok(())
}

// The bars of what is seen of process p in row k.
fn push_seen_bars(
    out: &mut Vec<u8>,
    processes: &[Listed],
    n: u64,
    p: Pid,
    k: u64,
    seen: &Seen,
) -> Result<(), NoMemory>
    ensures { OnOk result (out.new.items ≡ out.old.items
        ++ flat_map (plain.note_bar (map listed processes.now) n p k) (map note_of seen.now.notes.items)) }
{
    push_note_bars(out, processes, n, p, k, &seen.notes)?;
    Ok(())
}

// The bars of what happens in row k.
fn push_row_bars(
    out: &mut Vec<u8>,
    processes: &[Listed],
    n: u64,
    k: u64,
    what: &Happening,
) -> Result<(), NoMemory>
    ensures { OnOk result (out.new.items ≡ out.old.items ++ plain.bars (map listed processes.now) n k (happening_of what.now)) }
{
    match what {
        Happening::Takes { at, seen, .. } => push_seen_bars(out, processes, n, *at, k, seen),
        _ => Ok(()),
    }
}

/// The bars of the views that are installed.
pub(crate) fn push_bars(
    out: &mut Vec<u8>,
    processes: &[Listed],
    n: u64,
    rows: &[Row],
) -> Result<(), NoMemory>
    ensures { OnOk result (out.new.items ≡ out.old.items
        ++ each_row (λ k e what. plain.bars (map listed processes.now) n k what) (map row_of rows.now)) }
{
    for (k, one) in rows.iter().enumerate() {
        push_row_bars(out, processes, n, k as u64, &one.what)?;
    }
    Ok(())
}
