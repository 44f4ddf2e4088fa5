//! Where things are in the picture, in pixels. More than fits into a number can't be drawn: then, too, the answer is `NoMemory`.
ghost use Rattle.std.specs.Prelude.{◌≡◌, ◌+◌, ◌-◌, nat_lt, map, count_by, IfOk};
ghost use Rattle.schedule_file.specs.Views.{listed};
ghost use Rattle.picture_defs.specs.Layout as plain;
ghost use Rattle.picture_labels.specs.Views.{point};

use crate::elements::Point;
use rp_base::{NoMemory, Pid};
use schedule_file::Listed;

/// The column of the first process.
const LEFT: u64 = 90;

/// The row of the first thing that happens.
const TOP: u64 = 60;

/// From one row to the next.
const ROW: u64 = 15;

/// For two lines of text below the rows, and the ten lines of the legend.
const ROOM: u64 = 210;

// From one column to the next: with many processes they are closer.
fn gap(processes: &[Listed]) -> u64
    ensures { result ≡ plain.gap (map listed processes.now) }
{
    let count = processes.len();
    if count <= 4 {
        return 200;
    }
    if count <= 8 {
        return 150;
    }
    110
}

// How many processes have a lower number.
fn rank(processes: &[Listed], p: Pid) -> u64
    ensures { result ≡ count_by (λ l. nat_lt l.process p) processes.now }
{
    processes.iter().filter(|l| l.process < p).count() as u64
}

/// The column of a process.
pub(crate) fn column(processes: &[Listed], p: Pid) -> Result<u64, NoMemory>
    ensures { IfOk result (λ x. x ≡ plain.column (map listed processes.now) p) }
{
    let behind = gap(processes)
        .checked_mul(rank(processes, p))
        .ok_or(NoMemory)?;
    LEFT.checked_add(behind).ok_or(NoMemory)
}

/// `by` pixels to the left of the column of a process, and 0 at least.
pub fn left_of(processes: &[Listed], p: Pid, by: u64) -> Result<u64, NoMemory>
    ensures { IfOk result (λ x. x ≡ plain.column (map listed processes.now) p - by) }
{
    let x = column(processes, p)?;
    Ok(x.saturating_sub(by))
}

/// How far down the row of this number is; the first has number 0.
pub fn row(k: u64) -> Result<u64, NoMemory>
    ensures { IfOk result (λ y. y ≡ plain.row k) }
{
    let below = ROW.checked_mul(k).ok_or(NoMemory)?;
    TOP.checked_add(below).ok_or(NoMemory)
}

/// `by` pixels below a row.
pub fn below(k: u64, by: u64) -> Result<u64, NoMemory>
    ensures { IfOk result (λ y. y ≡ plain.row k + by) }
{
    let y = row(k)?;
    y.checked_add(by).ok_or(NoMemory)
}

/// `by` pixels above a row, and 0 at least.
pub fn above(k: u64, by: u64) -> Result<u64, NoMemory>
    ensures { IfOk result (λ y. y ≡ plain.row k - by) }
{
    let y = row(k)?;
    Ok(y.saturating_sub(by))
}

/// How many pixels it is from row k down to row n; 0, where that is not below.
pub fn between(k: u64, n: u64) -> Result<u64, NoMemory>
    ensures { IfOk result (λ y. y ≡ plain.row n - plain.row k) }
{
    let from = row(k)?;
    let to = row(n)?;
    Ok(to.saturating_sub(from))
}

/// Where a process is in row k: processes go from left to right by their numbers.
pub fn place(processes: &[Listed], p: Pid, k: u64) -> Result<Point, NoMemory>
    ensures { IfOk result (λ at. point at ≡ plain.place (map listed processes.now) p k) }
{
    Ok(Point {
        x: column(processes, p)?,
        y: row(k)?,
    })
}

/// How wide the picture of these processes is.
pub fn width(processes: &[Listed]) -> Result<u64, NoMemory>
    ensures { IfOk result (λ x. x ≡ plain.width (map listed processes.now)) }
{
    let all = gap(processes)
        .checked_mul(processes.len() as u64)
        .ok_or(NoMemory)?;
    LEFT.checked_add(all).ok_or(NoMemory)
}

/// How high a picture of `rows` rows is.
pub fn height(rows: u64) -> Result<u64, NoMemory>
    ensures { IfOk result (λ y. y ≡ plain.height rows) }
{
    below(rows, ROOM)
}
