//! What a picture begins and ends with.
ghost use Rattle.std.specs.Prelude.{◌≡◌, ◌++◌, codes, option_map, OnOk};
ghost use Rattle.replay_defs.specs.Worlds as worlds;
ghost use Rattle.happenings.specs.Reported.{stopped};
ghost use Rattle.picture_defs.specs.Elements.{text_at};
ghost use Rattle.picture_defs.specs.Styles as styles;
ghost use Rattle.picture_defs.specs.Pictures as plain;
ghost use Rattle.picture_labels.specs.Views.{point};

use crate::legend::push_legend;
use happenings::Stopped;
use picture_labels::{Point, below, push_text};
use rp_base::NoMemory;
use story_trace::{Word, push_pieces};

/// The colours, on white and on dark.
const STYLE: &[u8] = b"<style>
.paper { fill: #ffffff; }
text { font: 11px 'DejaVu Sans', Verdana, sans-serif; fill: #1f2328; }
text { paint-order: stroke; stroke: #ffffff; stroke-width: 6px; stroke-linejoin: round; }
.title { font-size: 14px; font-weight: bold; }
.bad { fill: #b04a4a; }
.said, .event { fill: #59636e; }
.got { fill: #1f6f38; font-weight: bold; }
.view { fill: #2f5f94; font-weight: bold; }
.sent { stroke: #8c959f; marker-end: url(#head); }
.lie { stroke: #b04a4a; stroke-width: 1.3; stroke-dasharray: 5 3; marker-end: url(#lying); }
.lost { stroke: #b07a1e; stroke-dasharray: 2 3; }
.gone { fill: none; stroke: #b07a1e; stroke-width: 1.2; }
.liar { stroke: #b04a4a; stroke-dasharray: 2 4; }
.rule { stroke: #d8dee4; }
.step { fill: #59636e; }
.asked { fill: #4a78a8; }
.delivered { fill: #3f8a55; }
.wrong, .lying { fill: #b04a4a; }
.head { fill: #8c959f; }
.view0 { fill: #b6cde6; }
.view1 { fill: #bfe0c6; }
.view2 { fill: #f0d9ab; }
.view3 { fill: #d9c7ec; }
@media (prefers-color-scheme: dark) {
.paper { fill: #0d1117; }
text { fill: #e6edf3; stroke: #0d1117; }
.bad { fill: #ff8f8f; }
.said, .event { fill: #9198a1; }
.got { fill: #7ad396; }
.view { fill: #8fbdf0; }
.sent { stroke: #6e7681; }
.lie, .liar { stroke: #e07a7a; }
.rule { stroke: #30363d; }
.step { fill: #9198a1; }
.view0 { fill: #24415f; }
.view1 { fill: #1f4a2c; }
.view2 { fill: #55411a; }
.view3 { fill: #43305a; }
}
</style>
";

/// The heads of arrows, and the paper under all.
const HEADS: &[u8] = b"<defs>
<marker id='head' viewBox='0 0 10 10' refX='10' refY='5' markerWidth='7' markerHeight='7' orient='auto'>
<path class='head' d='M0 1 L10 5 L0 9 z'/></marker>
<marker id='lying' viewBox='0 0 10 10' refX='10' refY='5' markerWidth='7' markerHeight='7' orient='auto'>
<path class='lying' d='M0 1 L10 5 L0 9 z'/></marker>
</defs>
<rect class='paper' width='100%' height='100%'/>
";

#[tactic(auto, unfolding(picture_defs::specs::Styles::style))]
fn style() -> &'static [u8]
    ensures { result.now ≡ styles.style }
{
    STYLE
}

#[tactic(auto, unfolding(picture_defs::specs::Styles::heads))]
fn heads() -> &'static [u8]
    ensures { result.now ≡ styles.heads }
{
    HEADS
}

#[tactic(auto, unfolding(picture_defs::specs::Pictures::frame_begin))]
fn begin_frame(out: &mut Vec<u8>, wide: u64, high: u64) -> Result<(), NoMemory>
    ensures { OnOk result (out.new.items ≡ out.old.items ++ plain.frame_begin wide high) }
{
    push_pieces(
        out,
        &[
            Word::Text(b"<svg xmlns='http://www.w3.org/2000/svg' viewBox='0 0 "),
            Word::Number(wide),
            Word::Text(b" "),
            Word::Number(high),
            Word::Text(b"' width='"),
            Word::Number(wide),
            Word::Text(b"' height='"),
            Word::Number(high),
            Word::Text(
                b"' role='img' xml:space='preserve'>\n<title>A run, process by process</title>\n",
            ),
        ],
    )
}

// The colours, the heads of arrows, and the paper.
fn push_styles(out: &mut Vec<u8>) -> Result<(), NoMemory>
    ensures { OnOk result (out.new.items ≡ out.old.items ++ (styles.style ++ styles.heads)) }
{
    out.extend_from_slice(style())?;
    out.extend_from_slice(heads())?;
    Ok(())
}

/// The beginning of a picture of this size.
pub(crate) fn begin_picture(out: &mut Vec<u8>, wide: u64, high: u64) -> Result<(), NoMemory>
    ensures { OnOk result (out.new.items ≡ out.old.items ++ plain.picture_begin wide high) }
{
    begin_frame(out, wide, high)?;
    push_styles(out)
}

// The end of a picture.
fn end_picture(out: &mut Vec<u8>) -> Result<(), NoMemory>
    ensures { OnOk result (out.new.items ≡ out.old.items ++ plain.picture_end) }
{
    out.extend_from_slice(b"</svg>\n")?;
    Ok(())
}

// `more` things are left out.
fn push_more(out: &mut Vec<u8>, n: u64, more: u64) -> Result<(), NoMemory>
    ensures { OnOk result (out.new.items ≡ out.old.items ++ plain.more_text n more) }
{
    if more == 0 {
        return Ok(());
    }
    let y = below(n, 18)?;
    push_text(
        out,
        b"bad",
        Point { x: 90, y },
        &[
            Word::Text(b"The picture ends here. Things left out: "),
            Word::Number(more),
        ],
    )
}

// A frame is not sent yet.
fn push_no_frame(out: &mut Vec<u8>, at: Point, event: u64, frame: u64) -> Result<(), NoMemory>
    ensures { OnOk result (out.new.items ≡ out.old.items
        ++ text_at (codes "bad") (point at) (plain.fault_words (worlds.NoSuchFrame event frame 0))) }
{
    push_text(
        out,
        b"bad",
        at,
        &[
            Word::Text(b"The run stops at event "),
            Word::Number(event),
            Word::Text(b": frame "),
            Word::Number(frame),
            Word::Text(b" is not sent yet"),
        ],
    )
}

// The frames have too many bytes.
fn push_too_much(out: &mut Vec<u8>, at: Point, event: u64) -> Result<(), NoMemory>
    ensures { OnOk result (out.new.items ≡ out.old.items
        ++ text_at (codes "bad") (point at) (plain.fault_words (worlds.TooMuchSent event 0))) }
{
    push_text(
        out,
        b"bad",
        at,
        &[
            Word::Text(b"The run stops at event "),
            Word::Number(event),
            Word::Text(b": the frames have too many bytes"),
        ],
    )
}

// Why the run stops.
fn push_fault(out: &mut Vec<u8>, at: Point, fault: Stopped) -> Result<(), NoMemory>
    ensures { OnOk result (out.new.items ≡ out.old.items
        ++ text_at (codes "bad") (point at) (plain.fault_words (stopped fault))) }
{
    match fault {
        Stopped::NoSuchFrame { event, frame, .. } => push_no_frame(out, at, event, frame.into()),
        Stopped::TooMuchSent { event, .. } => push_too_much(out, at, event),
    }
}

// Why the run stops, below the n rows.
fn push_fault_below(out: &mut Vec<u8>, n: u64, fault: Stopped) -> Result<(), NoMemory>
    ensures { OnOk result (out.new.items ≡ out.old.items ++ plain.stop_text n (Some (stopped fault))) }
{
    let y = below(n, 36)?;
    push_fault(out, Point { x: 90, y }, fault)
}

fn push_stop(out: &mut Vec<u8>, n: u64, stop: Option<Stopped>) -> Result<(), NoMemory>
    ensures { OnOk result (out.new.items ≡ out.old.items ++ plain.stop_text n (option_map stopped stop)) }
{
    match stop {
        Some(fault) => push_fault_below(out, n, fault),
        None => Ok(()),
    }
}

/// The end below n rows: what is left out, why the run stops, and the legend.
pub(crate) fn push_below(
    out: &mut Vec<u8>,
    n: u64,
    more: u64,
    stop: Option<Stopped>,
) -> Result<(), NoMemory>
    ensures { OnOk result (out.new.items ≡ out.old.items ++ plain.below n more (option_map stopped stop)) }
{
    push_more(out, n, more)?;
    push_stop(out, n, stop)?;
    push_legend(out, n)?;
    end_picture(out)
}
