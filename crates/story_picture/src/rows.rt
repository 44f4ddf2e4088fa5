//! All that happens, in order, each with the number of its event.
ghost use Rattle.std.specs.Prelude.{◌≡◌, ◌++◌, map, take, IfOk, OnOk};
ghost use Rattle.happenings.specs.Reported.{happening};
ghost use Rattle.picture_defs.specs.Pictures as plain;
ghost use Rattle.picture_defs.specs.Pictures.{most_drawn};
ghost use Rattle.story_picture.specs.Views.{row};

use happenings::Happening;
use rp_base::NoMemory;
use std::alloc::Global;

/// What happens in the event of this number.
#[derive(Drop)]
pub(crate) struct Row {
    pub event: u64,
    pub what: Happening,
}

/// The most rows that are drawn.
const MOST_DRAWN: usize = 2000;

// What happens in the event of this number, after all before.
fn add_event(rows: &mut Vec<Row>, event: u64, reported: Vec<Happening>) -> Result<(), NoMemory>
    ensures { OnOk result (map row rows.new.items ≡ map row rows.old.items ++ plain.rows_in event (map happening reported.items)) }
{
    'reported: for what in reported {
        rows.push(Row { event, what })?;
    }
    Ok(())
}

/// All that happens in these events.
pub(crate) fn rows_of(alloc: Global, reported: Vec<Vec<Happening>>) -> Result<Vec<Row>, NoMemory>
    ensures { IfOk result (λ rows. map row rows.items ≡ plain.rows_of (map (λ t. map happening t.items) reported.items)) }
{
    let mut rows = Vec::new(alloc);
    let mut number = 0u64;
    'events: for event in reported {
        add_event(&mut rows, number, event)?;
        number = number.checked_add(1).ok_or(NoMemory)?;
    }
    Ok(rows)
}

/// The rows before row k.
pub(crate) fn rows_before(rows: &[Row], k: usize) -> &[Row]
    ensures { result.now ≡ take k rows.now }
{
    &rows[..k.min(rows.len())]
}

/// Those of the rows that are drawn.
#[tactic(auto, unfolding(picture_defs::specs::Pictures::most_drawn))]
pub(crate) fn drawn(rows: &[Row]) -> &[Row]
    ensures { result.now ≡ take most_drawn rows.now }
{
    rows_before(rows, MOST_DRAWN)
}
