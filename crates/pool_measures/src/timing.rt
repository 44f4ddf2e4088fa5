//! A pool that hears a number of claims, and the times of what it is asked.
ghost use Rattle.std.specs.Prelude.{◌≤◌};

use crate::claims::{CLAIM_BYTES, CLAIMS, MEMBERS, PLACES, TEXT};
use crate::hearing::{Judge, certify, check_all, hear, walk_placed};
use crate::summing::Summing;
use anyhow::{Result, anyhow};
use arrayvec::ArrayVec;
use bench_parts::{plain_roster, process, seconds};
use claim_pool::{Own, Pool};
use own_place::SignedSlots;
use rp_base::{Pid, PidSet};
use std::alloc::Global;
use std::num::nearest_usize_to_f64;
use std::time::CpuClock;
use view_table::View;

/// How many claims are heard in a run, however few the pool hears at a time.
const RUN: u32 = 100_000;

/// How many runs are made; the quickest counts.
const RUNS: u32 = 5;

/// How many pairs of certificates are asked for, and how often the placed length.
const QUESTIONS: u32 = 100_000;

/// Who hears: the pool, and what `take` looks at besides it.
#[derive(Drop)]
pub(crate) struct Hearer {
    pool: Pool,
    judge: Judge,
}

/// How many claims were heard, and the seconds of taking them and of checking their signatures alone.
#[derive(Clone, Copy)]
pub(crate) struct Heard {
    pub(crate) claims: u32,
    take: f64,
    check: f64,
}

const NOTHING: Heard = Heard {
    claims: 0,
    take: 0.0,
    check: 0.0,
};

impl Heard {
    fn and(self, more: Heard) -> Heard {
        Heard {
            claims: self.claims.wrapping_add(more.claims),
            take: self.take + more.take,
            check: self.check + more.check,
        }
    }

    // The one that took less time to take claims.
    fn or_quicker(self, other: Heard) -> Heard {
        if other.take < self.take { other } else { self }
    }
}

// The view of the members 0 to 15.
fn view() -> Result<View> {
    let mut members = [Pid::default(); 16];
    for n in 0..MEMBERS {
        members[n as usize] = process(n);
    }
    match View::new(0, &members) {
        Some(view) => Ok(view),
        None => Err(anyhow!("no view")),
    }
}

// The place of a process that has delivered so much that no number of a view is beyond its window.
fn own(alloc: Global) -> Own {
    Own {
        me: process(0),
        position: Some(0),
        keyed: PidSet::new(),
        signed: SignedSlots::new(alloc),
        ended: false,
        rank: 0,
        ready: None,
        ordered: 0,
        orders: ArrayVec::from([0; 16]),
        delivered: 1_000,
        counts: ArrayVec::from([1_000; 16]),
        earlier: 0,
    }
}

// How many places have all their claims among `claims`.
fn places_of(claims: u32) -> u32 {
    claims / CLAIMS
}

impl Hearer {
    /// Nothing is heard yet.
    pub(crate) fn new(alloc: Global) -> Result<Hearer> {
        let Ok(pool) = Pool::new(alloc, view()?) else {
            return Err(anyhow!("no memory"));
        };
        let Ok(roster) = plain_roster(alloc, MEMBERS) else {
            return Err(anyhow!("no memory"));
        };
        Ok(Hearer {
            pool,
            judge: Judge {
                scheme: Summing::new(),
                roster,
                own: own(alloc),
            },
        })
    }

    // Hears `count` claims of a place, timed.
    fn hear_some(&mut self, rt: &impl CpuClock, place: u16, count: u32) -> Result<Heard>
        requires { place ≤ 1023 }
    {
        let Ok(()) = self
            .pool
            .reserve(count as usize, count as usize * CLAIM_BYTES)
        else {
            return Err(anyhow!("no memory"));
        };
        if self.judge.own.counts.len() != self.pool.view().members().len() {
            return Err(anyhow!("not as many counts as members"));
        }
        let begun = seconds(rt)?;
        let heard = hear(&mut self.pool, &self.judge, &TEXT, place, count);
        let taken = seconds(rt)?;
        let valid = check_all(&self.judge, &TEXT, place, count);
        let checked = seconds(rt)?;
        Ok(Heard {
            claims: heard.min(valid),
            take: taken - begun,
            check: checked - taken,
        })
    }

    /// Forgets what is heard, and hears the first `claims` claims.
    pub(crate) fn hear_all(&mut self, rt: &impl CpuClock, claims: u32) -> Result<Heard> {
        self.pool.turn_to(view()?);
        let mut heard = NOTHING;
        let mut left = claims;
        for place in 0..PLACES {
            if left == 0 {
                break;
            }
            heard = heard.and(self.hear_some(rt, place, left.min(CLAIMS))?);
            left = left.saturating_sub(CLAIMS);
        }
        Ok(heard)
    }

    // Hears as many claims as a run does, `claims` at a time.
    fn run(&mut self, rt: &impl CpuClock, claims: u32) -> Result<Heard> {
        let mut heard = NOTHING;
        for _ in 0..(RUN / claims.max(1)).max(1) {
            heard = heard.and(self.hear_all(rt, claims)?);
        }
        Ok(heard)
    }

    // The quickest of the runs.
    fn quickest(&mut self, rt: &impl CpuClock, claims: u32) -> Result<Heard> {
        let mut quickest = self.run(rt, claims)?;
        for _ in 1..RUNS {
            quickest = quickest.or_quicker(self.run(rt, claims)?);
        }
        Ok(quickest)
    }

    /// Asks for `times` pairs of certificates of the places that `claims` claims fill, and says how many it got.
    pub(crate) fn certificates(&self, claims: u32, times: u32) -> u32 {
        certify(&self.pool, places_of(claims), times)
    }

    // How many seconds it takes to get one certificate. All that are asked for must be there.
    fn time_certificate(&self, rt: &impl CpuClock, claims: u32) -> Result<f64> {
        let begun = seconds(rt)?;
        let found = self.certificates(claims, QUESTIONS);
        let ended = seconds(rt)?;
        if found != 2 * QUESTIONS {
            return Err(anyhow!("not all are certified"));
        }
        Ok((ended - begun) / f64::from(found))
    }

    /// How many places are certified in a row, from the first on.
    pub(crate) fn places(&self) -> u16 {
        self.pool.placed_len()
    }

    // How many seconds it takes to ask for the placed length and one batch below it. Each batch must have a message of each member.
    fn time_placed(&self, rt: &impl CpuClock) -> Result<f64> {
        let begun = seconds(rt)?;
        let messages = walk_placed(&self.pool, QUESTIONS);
        let ended = seconds(rt)?;
        if messages != u32::from(MEMBERS) * QUESTIONS {
            return Err(anyhow!("not all are placed"));
        }
        Ok((ended - begun) / f64::from(QUESTIONS))
    }

    // The mean of the bytes of a heard claim's statement and signature.
    fn bytes_a_claim(&self) -> f64 {
        let (claims, bytes) = self.pool.size();
        nearest_usize_to_f64(bytes) / nearest_usize_to_f64(claims)
    }
}

/// Prints the times of a pool that hears `claims` claims, in nanoseconds, and its bytes a claim.
pub(crate) fn times(rt: &(impl Print + CpuClock + AllocGlobal), claims: u32) -> Result<()> {
    let mut hearer = Hearer::new(rt.alloc())?;
    let heard = hearer.quickest(rt, claims)?;
    let take = heard.take * 1e9 / f64::from(heard.claims);
    let check = heard.check * 1e9 / f64::from(heard.claims);
    let certificate = hearer.time_certificate(rt, claims)? * 1e9;
    let placed = hearer.time_placed(rt)? * 1e9;
    let bytes = hearer.bytes_a_claim();
    let sum = hearer.judge.scheme.sum();
    println!(rt;
        "take {take:.1} check {check:.1} certificate {certificate:.1} placed {placed:.2} bytes {bytes:.1} sum {sum}"
    )?;
    Ok(())
}
