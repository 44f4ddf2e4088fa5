ghost use Rattle.std.specs.Prelude.{◌≡◌, ◌++◌, ◌∷◌, [], ℕ, map, take, IfOk};
ghost use Rattle.rp_devices.specs.Links.{link_coming, link_sent, on_port, ported};
ghost use Rattle.interop_runs.specs.Questions.{question as plain};
ghost use Rattle.interop_runs.specs.Runs.{IsSetUp};

use crate::calls::{Kind, Nth};
use crate::disk::FailingDisk;
use crate::link::FailingLink;
use crate::numbers::numbers_of;
use crate::questions::Question;
use rp_base::{Link, MemSink, MemSource, NoMemory};
use rp_devices::{Datagram, MemDisk, MemLink};
use std::alloc::Global;

/// The outside of a run: its input, its output, its disk and its link, all in memory.
#[derive(Drop)]
pub struct Outside {
    pub input: MemSource,
    pub output: MemSink,
    pub disk: FailingDisk<MemDisk>,
    pub link: FailingLink<MemLink>,
}

// A link on which these datagrams wait. They count as sent.
fn link_with(alloc: Global, coming: &[Datagram]) -> Result<MemLink, NoMemory>
    ensures sent { IfOk result (λ link. link_sent link ≡ map ported coming.now) }
    ensures coming { IfOk result (λ link. (port : ℕ) → link_coming link port ≡ on_port (map ported coming.now) port) }
{
    let mut link = MemLink::new(alloc, Vec::new(alloc));
    for datagram in coming {
        if link.send(datagram.port, &datagram.bytes).is_err() {
            return Err(NoMemory);
        }
    }
    Ok(link)
}

/// The outside as the question wants it.
pub(crate) fn set_up(alloc: Global, asked: &Question) -> Result<Outside, NoMemory>
    ensures { IfOk result (λ outside. IsSetUp (plain asked.now) outside) }
{
    let disk = MemDisk::new(alloc, asked.journal.to_vec(alloc)?, Vec::new(alloc))?;
    let link = link_with(alloc, &asked.coming)?;
    let failing = asked.failing.as_slice();
    Ok(Outside {
        input: MemSource::new(
            asked.input.to_vec(alloc)?,
            numbers_of(alloc, failing, Kind::Source)?,
        ),
        output: MemSink::new(alloc, numbers_of(alloc, failing, Kind::Sink)?),
        disk: FailingDisk::new(alloc, disk, failing, asked.cut)?,
        link: FailingLink::new(alloc, link, failing)?,
    })
}
