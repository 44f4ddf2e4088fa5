//! A group whose cores hand each other their frames.
use anyhow::{Result, anyhow};
use bench_parts::{Counted, Work, key_of, plain_roster};
use replay_cast::{Core, Event, Outcome, OwnClaim, Payload, Sending};
use rp_base::{GroupId, Pid, PidSet, PlainScheme, PlainSigner};
use std::alloc::Global;
use std::collections::VecDeque;
use view_table::View;

const GROUP: GroupId = GroupId([7; 16]);

/// How many statements a key signs.
const SIGNATURES: u32 = 1_000_000;

/// A frame that waits.
#[derive(Drop)]
struct Waiting {
    from: Pid,
    to: PidSet,
    frame: Payload,
}

/// The cores of processes 0, 1, 2 and so on, and what happened between them.
#[derive(Drop)]
pub(crate) struct Group {
    members: Vec<Pid>,
    cores: Vec<Core<PlainSigner>>,
    scheme: Counted<PlainScheme>,
    waiting: VecDeque<Waiting>,

    /// The claims that were signed, and how often one was heard.
    signed: Work,
    heard: u64,
}

// The process of this number.
fn process(n: usize) -> Result<Pid> {
    let number = u8::try_from(n).ok().and_then(Pid::new);
    number.ok_or_else(|| anyhow!("no process"))
}

// The first `count` processes; at most 16 are members of a view and have a key.
fn processes(alloc: Global, count: usize) -> Result<Vec<Pid>> {
    let mut all = Vec::new(alloc);
    for n in 0..count {
        all.push(process(n)?)?;
    }
    Ok(all)
}

// The core of a member, as it starts. An own Order has at most 16 messages.
fn core_of(alloc: Global, members: &[Pid], me: Pid) -> Result<Core<PlainSigner>> {
    let Some(genesis) = View::new(0, members) else {
        return Err(anyhow!("no view"));
    };
    let Ok(roster) = plain_roster(alloc, 16) else {
        return Err(anyhow!("no memory"));
    };
    let signer = PlainSigner::new(key_of(me), SIGNATURES);
    match Core::new(alloc, GROUP, roster, genesis, me, 16, signer) {
        Ok(core) => Ok(core),
        Err(_) => Err(anyhow!("no memory")),
    }
}

// And these claims.
fn and_signed(work: Work, signed: &[OwnClaim]) -> Work {
    let mut work = work;
    for claim in signed {
        work = work.and_signed(claim.statement.bytes());
    }
    work
}

impl Group {
    /// A group of `members` members, as it starts.
    pub(crate) fn new(alloc: Global, members: usize) -> Result<Group> {
        let members = processes(alloc, members)?;
        let mut cores = Vec::new(alloc);
        for me in &members {
            cores.push(core_of(alloc, &members, *me)?)?;
        }
        Ok(Group {
            members,
            cores,
            scheme: Counted::new(PlainScheme),
            waiting: VecDeque::new(alloc),
            signed: Work::none(),
            heard: 0,
        })
    }

    /// How many claims were signed, and how often one was heard, together.
    pub(crate) fn claims(&self) -> u64 {
        self.signed.signatures.wrapping_add(self.heard)
    }

    /// How many claims were signed.
    pub(crate) fn signed(&self) -> u64 {
        self.signed.signatures
    }

    /// How many signatures were checked.
    pub(crate) fn checks(&self) -> u64 {
        self.scheme.checked().signatures
    }

    /// How many blocks were hashed to sign and to check signatures.
    pub(crate) fn blocks(&self) -> u64 {
        self.signed
            .blocks
            .wrapping_add(self.scheme.checked().blocks)
    }

    /// The fewest messages that a member has delivered in the first view.
    pub(crate) fn delivered(&self) -> usize {
        let mut fewest = usize::MAX;
        for core in &self.cores {
            fewest = fewest.min(delivered_by(core));
        }
        fewest
    }

    /// Hands a payload to a member, and then all frames to those that they go to.
    pub(crate) fn submit(&mut self, member: usize, payload: &[u8]) -> Result<()> {
        self.step(member, &Event::Submit(payload))?;
        self.hand_over()
    }

    // Hands over the frames that wait, and those that come of it, until none waits.
    fn hand_over(&mut self) -> Result<()> {
        for _ in 0..u64::MAX {
            let Some(next) = self.waiting.pop_front() else {
                return Ok(());
            };
            self.deliver(&next)?;
        }
        Ok(())
    }

    fn deliver(&mut self, next: &Waiting) -> Result<()> {
        let event = Event::Frame {
            from: next.from,
            bytes: next.frame.bytes(),
        };
        for n in 0..self.cores.len() {
            if self.is_addressed(next.to, n) {
                self.step(n, &event)?;
            }
        }
        Ok(())
    }

    // Whether the member is one of these.
    fn is_addressed(&self, to: PidSet, member: usize) -> bool {
        match self.members.get(member) {
            Some(pid) => to.contains(*pid),
            None => false,
        }
    }

    // A member takes an event.
    fn step(&mut self, member: usize, event: &Event<'_>) -> Result<()> {
        let Some(me) = self.members.get(member).copied() else {
            return Err(anyhow!("no member"));
        };
        let Some(core) = self.cores.get_mut(member) else {
            return Err(anyhow!("no core"));
        };
        let Ok(outcome) = core.step(&self.scheme, event) else {
            return Err(anyhow!("no memory"));
        };
        self.note(me, outcome)
    }

    // Counts what a member signed and heard, and keeps the frames that it sends.
    fn note(&mut self, from: Pid, outcome: Outcome) -> Result<()> {
        self.heard = self.heard.wrapping_add(u64::from(outcome.heard));
        let (signed, sends, _notes) = outcome.into_parts();
        self.signed = and_signed(self.signed, &signed);
        self.keep(from, sends)
    }

    fn keep(&mut self, from: Pid, sends: Vec<Sending>) -> Result<()> {
        for Sending { to, frame } in sends {
            self.waiting.push_back(Waiting { from, to, frame })?;
        }
        Ok(())
    }
}

// How many messages the member has delivered in the first view.
fn delivered_by(core: &Core<PlainSigner>) -> usize {
    match core.account().delivered.first() {
        Some(delivered) => delivered.len(),
        None => 0,
    }
}
