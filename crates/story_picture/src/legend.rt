//! The legend: of each thing that is drawn a sample, and what it means.
ghost use Rattle.std.specs.Prelude.{◌≡◌, ◌++◌, OnOk};
ghost use Rattle.picture_defs.specs.Legends as plain;

use picture_labels::below;
use rp_base::NoMemory;
use story_trace::{Word, push_pieces};

/// How many pixels below the rows it begins: two lines of text may be between.
const ROOM: u64 = 50;

/// Samples, and words beside them.
const SAMPLES: &[u8] = b"<rect class='view0' x='11' y='1' width='8' height='14'/>
<text class='said' x='36' y='12'>correct, in a view</text>
<line class='liar' x1='15' y1='16' x2='15' y2='30'/>
<text class='said' x='36' y='27'>corrupt</text>
<line class='sent' x1='0' y1='38' x2='30' y2='38'/>
<text class='said' x='36' y='42'>a frame that arrives</text>
<line class='lie' x1='0' y1='53' x2='30' y2='53'/>
<text class='said' x='36' y='57'>a liar's frame</text>
<line class='lost' x1='0' y1='68' x2='27' y2='68'/>
<circle class='gone' cx='27' cy='68' r='3'/>
<text class='said' x='36' y='72'>a frame that is lost</text>
<circle class='step' cx='15' cy='83' r='2'/>
<text class='said' x='36' y='87'>a frame is taken</text>
<circle class='delivered' cx='15' cy='98' r='5'/>
<text class='said' x='36' y='102'>a delivery, at its place</text>
<circle class='asked' cx='15' cy='113' r='4'/>
<text class='said' x='36' y='117'>asked for something</text>
<circle class='wrong' cx='15' cy='128' r='4'/>
<text class='said' x='36' y='132'>a refusal, or a lie</text>
<circle class='gone' cx='15' cy='143' r='4'/>
<text class='said' x='36' y='147'>no signature left</text>
";

#[tactic(auto, unfolding(picture_defs::specs::Legends::samples))]
fn samples() -> &'static [u8]
    ensures { result.now ≡ plain.samples }
{
    SAMPLES
}

#[tactic(auto, unfolding(picture_defs::specs::Legends::legend_begin))]
fn begin_legend(out: &mut Vec<u8>, y: u64) -> Result<(), NoMemory>
    ensures { OnOk result (out.new.items ≡ out.old.items ++ plain.legend_begin y) }
{
    push_pieces(
        out,
        &[
            Word::Text(b"<svg x='90' y='"),
            Word::Number(y),
            Word::Text(b"'>\n"),
        ],
    )
}

// The legend, from this height on.
fn push_legend_at(out: &mut Vec<u8>, y: u64) -> Result<(), NoMemory>
    ensures { OnOk result (out.new.items ≡ out.old.items ++ plain.legend_at y) }
{
    begin_legend(out, y)?;
    out.extend_from_slice(samples())?;
    out.extend_from_slice(b"</svg>\n")?;
    Ok(())
}

/// The legend of a picture of n rows.
pub(crate) fn push_legend(out: &mut Vec<u8>, n: u64) -> Result<(), NoMemory>
    ensures { OnOk result (out.new.items ≡ out.old.items ++ plain.legend n) }
{
    let y = below(n, ROOM)?;
    push_legend_at(out, y)
}
