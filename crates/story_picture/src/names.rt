//! The names of processes and of events.
ghost use Rattle.std.specs.Prelude.{◌≡◌, ◌++◌, ◌==◌, codes, map, OnOk};
ghost use Rattle.std.specs.List.{flat_map, list_any};
ghost use Rattle.std.specs.Fmt.{decimal};
ghost use Rattle.schedule_file.specs.Views.{listed};
ghost use Rattle.picture_defs.specs.Elements as elements;
ghost use Rattle.picture_defs.specs.Pictures as plain;
ghost use Rattle.story_picture.specs.Views.{row as row_view};

use crate::rows::{Row, rows_before};
use picture_labels::{
    Point, above, begin_text, below, end_text, left_of, push_one_span, push_spaced, push_stroke,
    push_text, width,
};
use rp_base::{NoMemory, Pid};
use schedule_file::Listed;
use story_trace::{Word, process_word, push_pieces};

// Whether it is corrupt.
fn push_role(out: &mut Vec<u8>, corrupt: bool) -> Result<(), NoMemory>
    ensures { OnOk result (out.new.items ≡ out.old.items ++ plain.role corrupt) }
{
    if corrupt {
        return push_one_span(out, b"bad", b"corrupt");
    }
    Ok(())
}

// The number of a process, and whether it is corrupt.
fn push_who(out: &mut Vec<u8>, one: &Listed) -> Result<(), NoMemory>
    ensures { OnOk result (out.new.items ≡ out.old.items ++ (decimal one.now.process ++ plain.role one.now.corrupt)) }
{
    push_pieces(out, &[process_word(one.process)])?;
    push_role(out, one.corrupt)
}

fn push_name(out: &mut Vec<u8>, processes: &[Listed], one: &Listed) -> Result<(), NoMemory>
    ensures { OnOk result (out.new.items ≡ out.old.items ++ plain.name (map listed processes.now) (listed one.now)) }
{
    let at = Point {
        x: left_of(processes, one.process, 4)?,
        y: 22,
    };
    begin_text(out, b"title", at)?;
    push_who(out, one)?;
    end_text(out)
}

/// The names of the processes.
pub(crate) fn push_names(out: &mut Vec<u8>, processes: &[Listed]) -> Result<(), NoMemory>
    ensures { OnOk result (out.new.items ≡ out.old.items
        ++ flat_map (plain.name (map listed processes.now)) (map listed processes.now)) }
{
    for one in processes {
        push_name(out, processes, one)?;
    }
    Ok(())
}

fn push_members(out: &mut Vec<u8>, members: &[Pid]) -> Result<(), NoMemory>
    ensures { OnOk result (out.new.items ≡ out.old.items ++ (codes "view 0:" ++ elements.spaced members.now)) }
{
    push_pieces(out, &[Word::Text(b"view 0:")])?;
    push_spaced(out, members)
}

/// The members of view 0.
pub(crate) fn push_genesis(out: &mut Vec<u8>, members: &[Pid]) -> Result<(), NoMemory>
    ensures { OnOk result (out.new.items ≡ out.old.items ++ plain.genesis members.now) }
{
    begin_text(out, b"view", Point { x: 90, y: 42 })?;
    push_members(out, members)?;
    end_text(out)
}

// A rule over row k.
fn push_rule(out: &mut Vec<u8>, processes: &[Listed], k: u64) -> Result<(), NoMemory>
    ensures { OnOk result (out.new.items ≡ out.old.items ++ plain.event_rule (map listed processes.now) k) }
{
    let y = above(k, 8)?;
    let x = width(processes)?;
    push_stroke(out, b"rule", Point { x: 8, y }, Point { x, y })
}

// The number of an event at row k.
fn push_number(out: &mut Vec<u8>, k: u64, event: u64) -> Result<(), NoMemory>
    ensures { OnOk result (out.new.items ≡ out.old.items ++ plain.event_number k event) }
{
    let y = below(k, 4)?;
    push_text(
        out,
        b"event",
        Point { x: 8, y },
        &[Word::Text(b"event "), Word::Number(event)],
    )
}

fn push_event(out: &mut Vec<u8>, processes: &[Listed], k: u64, event: u64) -> Result<(), NoMemory>
    ensures { OnOk result (out.new.items ≡ out.old.items ++ plain.event_name (map listed processes.now) k event) }
{
    push_rule(out, processes, k)?;
    push_number(out, k, event)
}

// One of the rows is of this event.
fn has_event(rows: &[Row], event: u64) -> bool
    ensures { result ≡ list_any (λ r. r.event == event) rows.now }
{
    rows.iter().any(|row| row.event == event)
}

// One of the rows before row k is of this event.
fn is_begun(rows: &[Row], k: usize, event: u64) -> bool
    ensures { result ≡ plain.is_begun (map row_view rows.now) k event }
{
    has_event(rows_before(rows, k), event)
}

// The number of the event of row k, where no row before is of it.
fn begin_event(
    out: &mut Vec<u8>,
    processes: &[Listed],
    rows: &[Row],
    k: usize,
    event: u64,
) -> Result<(), NoMemory>
    ensures { OnOk result (out.new.items ≡ out.old.items
        ++ plain.event_begin (map listed processes.now) (map row_view rows.now) k event) }
{
    if is_begun(rows, k, event) {
        return Ok(());
    }
    push_event(out, processes, k as u64, event)
}

/// The numbers of the events.
pub(crate) fn push_events(
    out: &mut Vec<u8>,
    processes: &[Listed],
    rows: &[Row],
) -> Result<(), NoMemory>
    ensures { OnOk result (out.new.items ≡ out.old.items
        ++ plain.each_row (λ k e what. plain.event_begin (map listed processes.now) (map row_view rows.now) k e) (map row_view rows.now)) }
{
    for (k, one) in rows.iter().enumerate() {
        begin_event(out, processes, rows, k, one.event)?;
    }
    Ok(())
}
