//! The whole trace of a schedule.
ghost use Rattle.std.specs.Prelude.{◌≡◌, ◌++◌, ◌∷◌, [], length, map, option_map, OnOk};
ghost use Rattle.std.specs.List.{flat_map};
ghost use Rattle.text_defs.specs.Words.{line_text};
ghost use Rattle.schedule_file.specs.Views as views;
ghost use Rattle.trace_defs.specs.Events.{cast_lines, event_line, fault_line};
ghost use Rattle.reported_defs.specs.Reported.{reported_lines, stop_lines};
ghost use Rattle.happenings.specs.Reported.{happening as happening_of, stopped as stopped_of};

use crate::events::{push_cast, push_event};
use crate::steps::push_reported;
use happenings::{Happening, Stopped};
use rp_base::NoMemory;
use schedule_file::{Schedule, ScheduleEvent};
use story_words::{Word, push_line};

// The events, each with what happens in it.
fn push_events(
    out: &mut Vec<u8>,
    events: &[ScheduleEvent],
    reported: &[Vec<Happening>],
) -> Result<(), NoMemory>
    ensures { OnOk result (out.new.items ≡ out.old.items
        ++ flat_map line_text (reported_lines (map views.event events.now) (map (λ t. map happening_of t.items) reported.now))) }
{
    for (i, all) in reported.iter().enumerate() {
        let Some(event) = events.get(i) else {
            return Ok(());
        };
        push_reported(out, i as u64, event, all)?;
    }
    Ok(())
}

// Why the run stops.
fn push_fault(out: &mut Vec<u8>, stop: Stopped) -> Result<(), NoMemory>
    ensures { OnOk result (out.new.items ≡ out.old.items ++ line_text (fault_line (stopped_of stop))) }
{
    match stop {
        Stopped::NoSuchFrame { frame, sent, .. } => push_line(
            out,
            Word::Text(b" "),
            &[
                Word::Text(b"the run stops here: frame"),
                Word::Number(frame.into()),
                Word::Text(b"is not sent yet; frames sent so far:"),
                Word::Number(sent as u64),
            ],
        ),
        Stopped::TooMuchSent { bytes, .. } => push_line(
            out,
            Word::Text(b" "),
            &[
                Word::Text(
                    b"the run stops here: all frames may have 1073741824 bytes, and with the next they have",
                ),
                Word::Number(bytes),
            ],
        ),
    }
}

// The event that stops the run, and why it does.
fn push_last(
    out: &mut Vec<u8>,
    n: u64,
    event: &ScheduleEvent,
    stop: Stopped,
) -> Result<(), NoMemory>
    ensures { OnOk result (out.new.items ≡ out.old.items
        ++ flat_map line_text (event_line n (views.event event.now) ∷ fault_line (stopped_of stop) ∷ [])) }
{
    push_event(out, n, event)?;
    push_fault(out, stop)?;
    Ok(())
}

// Where the event of this number stops the run, its line, and why.
fn push_stop(
    out: &mut Vec<u8>,
    events: &[ScheduleEvent],
    n: usize,
    stop: Option<Stopped>,
) -> Result<(), NoMemory>
    ensures { OnOk result (out.new.items ≡ out.old.items
        ++ flat_map line_text (stop_lines (map views.event events.now) n (option_map stopped_of stop))) }
{
    let Some(stop) = stop else {
        return Ok(());
    };
    let Some(event) = events.get(n) else {
        return Ok(());
    };
    push_last(out, n as u64, event, stop)
}

/// The trace of a schedule, of what happens in each event, up to one that stops the run, and why it stops.
pub fn push_trace(
    out: &mut Vec<u8>,
    schedule: &Schedule,
    reported: &[Vec<Happening>],
    stop: Option<Stopped>,
) -> Result<(), NoMemory>
    ensures { OnOk result (out.new.items ≡ out.old.items ++ flat_map line_text (cast_lines (views.schedule schedule.now).header
        ++ (reported_lines (views.schedule schedule.now).events (map (λ t. map happening_of t.items) reported.now)
        ++ stop_lines (views.schedule schedule.now).events (length reported.now) (option_map stopped_of stop)))) }
{
    push_cast(out, &schedule.header)?;
    push_events(out, &schedule.events, reported)?;
    push_stop(out, &schedule.events, reported.len(), stop)?;
    Ok(())
}
