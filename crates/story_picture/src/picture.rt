//! The whole picture.
ghost use Rattle.std.specs.Prelude.{◌≡◌, ◌++◌, ◌-◌, map, option_map, OnOk};
ghost use Rattle.schedule_file.specs.Views as views;
ghost use Rattle.happenings.specs.Reported.{happening, stopped};
ghost use Rattle.picture_defs.specs.Pictures as plain;
ghost use Rattle.picture_defs.specs.Pictures.{picture};
ghost use Rattle.story_picture.specs.Views.{row as row_view};

use crate::arrows::{push_arrows, sent_rows};
use crate::bars::{push_bars, push_lives};
use crate::edges::{begin_picture, push_below};
use crate::labels::push_labels;
use crate::names::{push_events, push_genesis, push_names};
use crate::rows::{Row, drawn, rows_of};
use happenings::{Happening, Stopped};
use picture_labels::{height, width};
use rp_base::{NoMemory, Pid};
use schedule_file::{Header, Listed};
use std::alloc::Global;

// The beginning of a picture of `n` rows.
fn push_begin(out: &mut Vec<u8>, processes: &[Listed], n: u64) -> Result<(), NoMemory>
    ensures { OnOk result (out.new.items ≡ out.old.items ++ plain.begin_rows (map views.listed processes.now) n) }
{
    let wide = width(processes)?;
    let high = height(n)?;
    begin_picture(out, wide, high)?;
    Ok(())
}

// Events, lives and views.
fn push_background(out: &mut Vec<u8>, processes: &[Listed], rows: &[Row]) -> Result<(), NoMemory>
    ensures { OnOk result (out.new.items ≡ out.old.items
        ++ plain.background (map views.listed processes.now) (map row_view rows.now)) }
{
    push_events(out, processes, rows)?;
    push_lives(out, processes, rows.len() as u64)?;
    push_bars(out, processes, rows.len() as u64, rows)?;
    Ok(())
}

// The arrows of all frames.
fn push_frames(
    alloc: Global,
    out: &mut Vec<u8>,
    processes: &[Listed],
    rows: &[Row],
) -> Result<(), NoMemory>
    ensures { OnOk result (out.new.items ≡ out.old.items
        ++ plain.arrows (map views.listed processes.now) (map row_view rows.now)) }
{
    let sent = sent_rows(alloc, rows)?;
    push_arrows(out, processes, &sent, rows)?;
    Ok(())
}

// The names of the processes, and the members of view 0.
fn push_cast(out: &mut Vec<u8>, processes: &[Listed], genesis: &[Pid]) -> Result<(), NoMemory>
    ensures { OnOk result (out.new.items ≡ out.old.items ++ plain.cast (map views.listed processes.now) genesis.now) }
{
    push_names(out, processes)?;
    push_genesis(out, genesis)
}

// Arrows, marks and texts, and the names of the processes.
fn push_foreground(
    alloc: Global,
    out: &mut Vec<u8>,
    processes: &[Listed],
    genesis: &[Pid],
    rows: &[Row],
) -> Result<(), NoMemory>
    ensures { OnOk result (out.new.items ≡ out.old.items
        ++ plain.foreground (map views.listed processes.now) genesis.now (map row_view rows.now)) }
{
    push_frames(alloc, out, processes, rows)?;
    push_labels(out, processes, rows)?;
    push_cast(out, processes, genesis)?;
    Ok(())
}

// How many of all are not drawn.
fn left_out(all: u64, n: u64) -> u64
    ensures { result ≡ all - n }
{
    all.saturating_sub(n)
}

// The picture of these rows, of all that there are.
fn push_rows(
    alloc: Global,
    out: &mut Vec<u8>,
    processes: &[Listed],
    genesis: &[Pid],
    rows: &[Row],
    all: u64,
    stop: Option<Stopped>,
) -> Result<(), NoMemory>
    ensures { OnOk result (out.new.items ≡ out.old.items
        ++ plain.drawing (map views.listed processes.now) genesis.now (map row_view rows.now) all (option_map stopped stop)) }
{
    let n = rows.len() as u64;
    push_begin(out, processes, n)?;
    push_background(out, processes, rows)?;
    push_foreground(alloc, out, processes, genesis, rows)?;
    push_below(out, n, left_out(all, n), stop)?;
    Ok(())
}

// The picture of all rows, as far as they are drawn.
fn push_all(
    alloc: Global,
    out: &mut Vec<u8>,
    processes: &[Listed],
    genesis: &[Pid],
    rows: &[Row],
    stop: Option<Stopped>,
) -> Result<(), NoMemory>
    ensures { OnOk result (out.new.items ≡ out.old.items
        ++ plain.picture_of (map views.listed processes.now) genesis.now (map row_view rows.now) (option_map stopped stop)) }
{
    let all = rows.len() as u64;
    push_rows(alloc, out, processes, genesis, drawn(rows), all, stop)?;
    Ok(())
}

/// The picture of what happens in each event of a run, and of why the run stops, where an event stops it.
pub fn push_picture(
    alloc: Global,
    out: &mut Vec<u8>,
    header: &Header,
    reported: Vec<Vec<Happening>>,
    stop: Option<Stopped>,
) -> Result<(), NoMemory>
    ensures { OnOk result (out.new.items ≡ out.old.items
        ++ picture (views.header header.now) (map (λ t. map happening t.items) reported.items) (option_map stopped stop)) }
{
    let rows = rows_of(alloc, reported)?;
    push_all(
        alloc,
        out,
        &header.processes,
        header.genesis.as_slice(),
        &rows,
        stop,
    )?;
    Ok(())
}
