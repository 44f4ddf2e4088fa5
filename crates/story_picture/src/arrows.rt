//! An arrow for each frame that is handed over; one that is lost ends in the open, before the bar.
ghost use Rattle.std.specs.List.{list_any};
ghost use Rattle.std.specs.Prelude.{◌≡◌, ◌++◌, ◌+◌, ◌-◌, ◌==◌, ◌&&◌, nat_lt, if◌then◌else◌, map, replicate, slice_index_or, IfOk, OnOk};
ghost use Rattle.schedule_file.specs.Views.{listed};
ghost use Rattle.replay_defs.specs.Schedules.{is_corrupt as is_corrupt_of};
ghost use Rattle.happenings.specs.Reported.{handed as handed_of, happening as happening_of};
ghost use Rattle.picture_defs.specs.Drawing as plain;
ghost use Rattle.picture_defs.specs.Pictures as pictures;
ghost use Rattle.picture_labels.specs.Views.{point};
ghost use Rattle.story_picture.specs.Views.{row as row_view};

use crate::rows::Row;
use happenings::{Handed, Happening};
use picture_labels::{Point, place, push_dot, push_stroke};
use rp_base::{NoMemory, Pid};
use schedule_file::Listed;
use std::alloc::Global;

/// How many pixels before its bar a lost frame ends.
const SHORT: u64 = 30;

// How many frames are sent in what happens.
fn frames_in(what: &Happening) -> usize
    ensures { result ≡ plain.frames_in (happening_of what.now) }
{
    match what {
        Happening::Takes { seen, .. } => seen.to.len(),
        Happening::Lies { .. } => 1,
        _ => 0,
    }
}

// Row k, once for each of `count` frames.
fn push_sent(rows: &mut Vec<u64>, k: u64, count: usize) -> Result<(), NoMemory>
    ensures { OnOk result (rows.new.items ≡ rows.old.items ++ replicate count k) }
{
    for i in 0..count {
        rows.push(k)?;
    }
    Ok(())
}

/// The row in which each frame is sent, by the frames' numbers.
pub(crate) fn sent_rows(alloc: Global, rows: &[Row]) -> Result<Vec<u64>, NoMemory>
    ensures { IfOk result (λ sent. sent.items ≡ pictures.sent_rows (map row_view rows.now)) }
{
    let mut sent = Vec::new(alloc);
    for (k, one) in rows.iter().enumerate() {
        push_sent(&mut sent, k as u64, frames_in(&one.what))?;
    }
    Ok(sent)
}

// The row in which the frame is sent; row k, where it is sent in none.
fn row_of(sent: &[u64], frame: u64, k: u64) -> u64
    ensures { result ≡ slice_index_or sent.now frame k }
{
    match sent.get(frame as usize) {
        Some(row) => *row,
        None => k,
    }
}

// One of them has this number, and is corrupt.
fn has_corrupt(processes: &[Listed], p: Pid) -> bool
    ensures { result ≡ list_any (λ l. (l.process == p) && l.corrupt) processes.now }
{
    processes.iter().any(|l| l.process == p && l.corrupt)
}

fn is_corrupt(processes: &[Listed], p: Pid) -> bool
    ensures { result ≡ is_corrupt_of (map listed processes.now) p }
{
    has_corrupt(processes, p)
}

// Frames of corrupt processes are lies.
fn arrow_class(processes: &[Listed], from: Pid) -> &'static [u8]
    ensures { result.now ≡ plain.arrow_class (map listed processes.now) from }
{
    if is_corrupt(processes, from) {
        b"lie"
    } else {
        b"sent"
    }
}

// Beside a column, on the side from which the frame comes.
fn beside_column(from: u64, to: u64) -> Result<u64, NoMemory>
    ensures { IfOk result (λ x. x ≡ (if nat_lt from to then to - 30 else to + 30)) }
{
    if from < to {
        Ok(to.saturating_sub(SHORT))
    } else {
        to.checked_add(SHORT).ok_or(NoMemory)
    }
}

// Where an arrow from one point to another ends that does not arrive.
fn before_bar(from: Point, to: Point) -> Result<Point, NoMemory>
    ensures { IfOk result (λ at. point at ≡ plain.before_bar (point from) (point to)) }
{
    let x = beside_column(from.x, to.x)?;
    Ok(Point { x, y: to.y })
}

// Where the frame is sent.
fn departure(
    processes: &[Listed],
    sent: &[u64],
    k: u64,
    frame: u64,
    from: Pid,
) -> Result<Point, NoMemory>
    ensures { IfOk result (λ at. point at ≡ plain.departure (map listed processes.now) sent.now k frame from) }
{
    place(processes, from, row_of(sent, frame, k))
}

// The arrow of a frame that process p is handed.
fn push_frame(
    out: &mut Vec<u8>,
    processes: &[Listed],
    sent: &[u64],
    k: u64,
    p: Pid,
    frame: u64,
    from: Pid,
) -> Result<(), NoMemory>
    ensures { OnOk result (out.new.items ≡ out.old.items
        ++ plain.frame_arrow (map listed processes.now) sent.now k p frame from) }
{
    let begin = departure(processes, sent, k, frame, from)?;
    let end = place(processes, p, k)?;
    push_stroke(out, arrow_class(processes, from), begin, end)
}

// The arrow of bytes that process p is handed as a frame.
fn push_bytes(
    out: &mut Vec<u8>,
    processes: &[Listed],
    k: u64,
    p: Pid,
    from: Pid,
) -> Result<(), NoMemory>
    ensures { OnOk result (out.new.items ≡ out.old.items ++ plain.bytes_arrow (map listed processes.now) k p from) }
{
    let begin = place(processes, from, k)?;
    let end = place(processes, p, k)?;
    push_stroke(out, b"lie", begin, end)
}

// The arrow of what process p is handed in row k.
fn push_handed(
    out: &mut Vec<u8>,
    processes: &[Listed],
    sent: &[u64],
    k: u64,
    p: Pid,
    handed: Handed,
) -> Result<(), NoMemory>
    ensures { OnOk result (out.new.items ≡ out.old.items
        ++ plain.handed_arrow (map listed processes.now) sent.now k p (handed_of handed)) }
{
    match handed {
        Handed::Frame { number, from } => push_frame(out, processes, sent, k, p, number, from),
        Handed::Bytes { from } => push_bytes(out, processes, k, p, from),
        _ => Ok(()),
    }
}

// An arrow that ends in the open.
#[tactic(auto, unfolding(picture_defs::specs::Drawing::lost_arrow))]
fn push_lost(out: &mut Vec<u8>, from: Point, to: Point) -> Result<(), NoMemory>
    ensures { OnOk result (out.new.items ≡ out.old.items ++ plain.lost_arrow (point from) (point to)) }
{
    let end = before_bar(from, to)?;
    push_stroke(out, b"lost", from, end)?;
    push_dot(out, b"gone", end, 3)
}

// The arrow of a frame that is lost in row k.
fn push_loss(
    out: &mut Vec<u8>,
    processes: &[Listed],
    sent: &[u64],
    k: u64,
    frame: u64,
    from: Pid,
    to: Pid,
) -> Result<(), NoMemory>
    ensures { OnOk result (out.new.items ≡ out.old.items
        ++ plain.loss_arrow (map listed processes.now) sent.now k frame from to) }
{
    let begin = departure(processes, sent, k, frame, from)?;
    let aim = place(processes, to, k)?;
    push_lost(out, begin, aim)
}

// The arrow of what happens in row k.
fn push_arrow(
    out: &mut Vec<u8>,
    processes: &[Listed],
    sent: &[u64],
    k: u64,
    what: &Happening,
) -> Result<(), NoMemory>
    ensures { OnOk result (out.new.items ≡ out.old.items
        ++ plain.arrow (map listed processes.now) sent.now k (happening_of what.now)) }
{
    match what {
        Happening::Takes { at, handed, .. } => push_handed(out, processes, sent, k, *at, *handed),
        Happening::Loses { frame, from, to } => {
            push_loss(out, processes, sent, k, *frame, *from, *to)
        }
        _ => Ok(()),
    }
}

/// The arrows.
pub(crate) fn push_arrows(
    out: &mut Vec<u8>,
    processes: &[Listed],
    sent: &[u64],
    rows: &[Row],
) -> Result<(), NoMemory>
    ensures { OnOk result (out.new.items ≡ out.old.items
        ++ pictures.each_row (λ k e what. plain.arrow (map listed processes.now) sent.now k what) (map row_view rows.now)) }
{
    for (k, one) in rows.iter().enumerate() {
        push_arrow(out, processes, sent, k as u64, &one.what)?;
    }
    Ok(())
}
