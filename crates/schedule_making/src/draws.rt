//! Numbers drawn one after another.
ghost use Rattle.std.specs.Prelude.{◌≡◌, ◌<◌, ◌++◌, OnOk};
ghost use Rattle.replay_defs.specs.Generator.{drawn, draw_below, bytes_drawn};
ghost use Rattle.schedule_making.specs.Behind.{Behind};

use std::alloc::AllocError;

/// The factor from one state to the next.
const FACTOR: u64 = 6_364_136_223_846_793_005;

/// The summand.
const SUMMAND: u64 = 1_442_695_040_888_963_407;

/// A linear congruential generator modulo 2^64.
#[derive(Drop)]
pub struct Draws {
    pub state: u64,
}

impl Draws {
    /// The next draw, a number below the limit.
    #[tactic(auto, unfolding(replay_defs::specs::Generator::drawn))]
    pub fn below(&mut self, limit: u64) -> u64
        requires { 0 < limit }
        ensures state { self.new.state ≡ drawn self.old.state }
        ensures value { result ≡ draw_below limit self.new.state }
        ensures range { result < limit }
    {
        self.state = self.state.wrapping_mul(FACTOR).wrapping_add(SUMMAND);
        (self.state >> 32) % limit
    }

    /// Appends `count` bytes, a draw each.
    pub fn push_bytes(&mut self, count: u64, out: &mut Vec<u8>) -> Result<(), AllocError>
        ensures { OnOk result (Behind out.old.items (bytes_drawn count self.old.state) out.new.items self.new.state) }
    {
        'bytes: for _ in 0..count {
            out.push(self.below(256) as u8)?;
        }
        Ok(())
    }
}
