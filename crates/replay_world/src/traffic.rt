//! What was sent, and what of it waits to be delivered.
ghost use Rattle.std.specs.Prelude.{◌≡◌, ◌++◌, ◌∷◌, [], if◌then◌else◌, map, filter, OnOk, IfErr};
ghost use Rattle.std.specs.VecDeque.{deque_items};
ghost use Rattle.byte_defs.specs.Members.{has};
ghost use Rattle.replay_defs.specs.Worlds as plain;
ghost use Rattle.happenings.specs.Events.{frame_to};
ghost use Rattle.replay_cast.specs.Players.{process_of};
ghost use Rattle.replay_world.specs.Traffic.{delivery, sends_all, Carries, Sends, SendsTooMuch};
ghost use Rattle.replay_world.specs.Handing.{handed_frames};

use crate::fault::WorldFault;
use member_events::{Payload, Sending};
use replay_cast::Player;
use rp_base::{NoMemory, Pid, PidSet};
use std::collections::VecDeque;
use std::mem;

/// The most bytes that may be sent in all.
const MOST_SENT: u64 = 1_073_741_824;

/// A frame that was sent. Frames are numbered from 0 in order of sending.
#[derive(Drop)]
pub struct Sent {
    pub sender: Pid,
    pub bytes: Payload,

    /// Whether a correct process took it.
    pub handed: bool,
}

/// A frame that waits to be delivered to one process, by its number.
#[derive(Clone, Copy)]
pub struct Delivery {
    pub frame: usize,
    pub to: Pid,
}

/// The frames, each kept once, and the deliveries that wait.
pub struct Traffic {
    pub frames: Vec<Sent>,

    /// The deliveries that wait, the oldest first.
    pub pending: VecDeque<Delivery>,

    /// How many bytes the frames have.
    pub bytes: u64,
}

// Written out, so that whoever drops a value makes one call (docs/CONTRIBUTING.md).
impl Drop for Traffic {
    fn drop(self) {
        let Traffic {
            frames,
            pending,
            bytes: _,
        } = self;
        mem::drop(frames);
        mem::drop(pending);
    }
}

// A delivery of the frame waits for the process, if it is addressed.
fn wait_for(
    pending: &mut VecDeque<Delivery>,
    frame: usize,
    to: PidSet,
    process: Pid,
) -> Result<(), NoMemory>
    ensures { OnOk result (map delivery (deque_items pending.new) ≡ map delivery (deque_items pending.old)
        ++ (if has to process then (frame, process) ∷ [] else [])) }
{
    if !to.contains(process) {
        return Ok(());
    }
    pending.push_back(Delivery { frame, to: process })?;
    Ok(())
}

// A delivery of the frame waits for each of the players that are addressed, after the others.
fn wait(
    pending: &mut VecDeque<Delivery>,
    players: &[Player],
    frame: usize,
    to: PidSet,
) -> Result<(), NoMemory>
    ensures { OnOk result (map delivery (deque_items pending.new) ≡ map delivery (deque_items pending.old)
        ++ map (λ p. (frame, p)) (filter (has to) (map process_of players.now))) }
{
    for player in players {
        wait_for(pending, frame, to, player.process)?;
    }
    Ok(())
}

impl Traffic {
    /// A frame gets the next number, once for all its addressees.
    #[tactic(auto, unfolding(replay_defs::specs::Worlds::most_sent))]
    pub fn send(
        &mut self,
        players: &[Player],
        event: u64,
        sender: Pid,
        to: PidSet,
        bytes: Payload,
    ) -> Result<(), WorldFault>
        ensures sends { OnOk result (Sends players.now self.old self.new (λ v. plain.send sender (has to) v bytes)) }
        ensures too_much { IfErr result (SendsTooMuch players.now event self.old (λ v. plain.send sender (has to) v bytes)) }
        ensures handed { OnOk result (handed_frames self.new.frames.items ≡ handed_frames self.old.frames.items) }
    {
        let total = self.bytes.saturating_add(bytes.bytes().len() as u64);
        if total > MOST_SENT {
            return Err(WorldFault::TooMuchSent {
                event,
                bytes: total,
            });
        }
        let frame = self.frames.len();
        self.frames.push(Sent {
            sender,
            bytes,
            handed: false,
        })?;
        self.bytes = total;
        wait(&mut self.pending, players, frame, to)?;
        Ok(())
    }

    /// The frames of a process go out, in this order.
    pub fn send_all(
        &mut self,
        players: &[Player],
        event: u64,
        sender: Pid,
        sends: Vec<Sending>,
    ) -> Result<(), WorldFault>
        ensures sends { OnOk result (Sends players.now self.old self.new (sends_all sender (map frame_to sends.items))) }
        ensures too_much { IfErr result (SendsTooMuch players.now event self.old (sends_all sender (map frame_to sends.items))) }
        ensures handed { OnOk result (handed_frames self.new.frames.items ≡ handed_frames self.old.frames.items) }
    {
        let mut left = sends.into_iter();
        'sends: while let Some(out) = left.next() {
            self.send(players, event, sender, out.to, out.frame)?;
        }
        Ok(())
    }
}
