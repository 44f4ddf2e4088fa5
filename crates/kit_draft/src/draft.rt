//! What was read of a kit so far, and where the next line belongs.
ghost use Rattle.std.specs.Prelude.{◌≡◌, ◌==◌, ◌&&◌, ◌||◌, not, nat_lt, length, is_some, drop, option_map, IfOk};
ghost use Rattle.std.specs.List.{list_any};
ghost use Rattle.byte_defs.specs.Choices.{is_some_and};
ghost use Rattle.byte_defs.specs.Members.{has};
ghost use Rattle.text_codec.specs.Views.{parts_left};
ghost use Rattle.kit_defs.specs.Kits.{roster_of, others_than};
ghost use Rattle.kit_defs.specs.KitReading as plain;
ghost use Rattle.kit_lines.specs.FirstWords.{first_process};
ghost use Rattle.kit_lines.specs.LineViews.{line, may};

use arrayvec::ArrayVec;
use kit_file::Host;
use kit_lines::{FirstWord, KitLine, Reported, Version, first_word, next_process};
use rp_base::{GroupId, NoMemory, Pid, PidSet, Roster};
use sig_scheme::AnyScheme;
use std::alloc::Global;
use std::marker::Model;
use text_codec::Parts as Words;

/// What was read of a kit so far. Contracts see it as the plain draft.
#[derive(Drop)]
pub struct Draft {
    pub version: Option<Version>,
    pub scheme: Option<AnyScheme>,
    pub group: Option<GroupId>,
    pub roster: Roster,

    /// In rank order; empty where the line was not read.
    pub genesis: ArrayVec<Pid, 16>,

    /// By rising process number.
    pub ports: Vec<(Pid, u16)>,

    /// By rising process number. The pair lines of the last one may be on their way.
    pub hosts: Vec<Host>,
}

impl Model for Draft {
    ghost use Rattle.kit_defs.specs.KitReading as plain;
    ghost use Rattle.kit_draft.specs.Drafts as views;

    ghost Value = { plain.Draft };

    ghost view = { λ d. views.draft d.version d.scheme d.group d.roster d.genesis.items d.ports.items d.hosts.items };

    ghost invariant = { λ d. views.IsDraft (views.draft d.version d.scheme d.group d.roster d.genesis.items d.ports.items d.hosts.items) };
}

impl Draft {
    ghost use Rattle.kit_draft.specs.Drafts.{IsDraft};

    /// The draft before the first line.
    pub fn new(alloc: Global) -> Result<Draft, NoMemory>
        ensures { IfOk result (λ d. d ≡ plain.nothing) }
    {
        Ok(Draft {
            version: None,
            scheme: None,
            group: None,
            roster: Roster::new(alloc)?,
            genesis: ArrayVec::new(),
            ports: Vec::new(alloc),
            hosts: Vec::new(alloc),
        })
    }

    /// What the lines so far say of the scheme.
    pub fn reported(&self) -> Reported
        ensures value { may result ≡ plain.may_of self.now }
        ensures holds { IsDraft self.now }
    {
        Reported {
            version: self.version,
            scheme: self.scheme,
        }
    }

    /// Whether the genesis line was read.
    pub fn has_genesis(&self) -> bool
        ensures { result ≡ plain.has_genesis self.now }
    {
        !self.genesis.is_empty()
    }

    fn is_listed(&self, p: Pid) -> bool
        ensures { result ≡ has (roster_of self.now.keys) p }
    {
        self.roster.processes().contains(p)
    }

    fn has_port(&self, p: Pid) -> bool
        ensures { result ≡ list_any (λ port. port.0 == p) self.now.ports }
    {
        self.ports.iter().any(|port| port.0 == p)
    }

    fn is_hosted(&self, p: Pid) -> bool
        ensures { result ≡ plain.is_hosted self.now p }
    {
        is_among(&self.hosts, p)
    }

    fn has_pair(&self, p: Pid, q: Pid) -> bool
        ensures { result ≡ list_any (λ host. (host.process == p) && list_any (λ pair. pair.0 == q) host.pairs) self.now.hosts }
    {
        are_paired(&self.hosts, p, q)
    }

    /// A line was read that begins with the same word, and with the same process numbers after `key`, `port`, `host` and
    /// `pair`.
    pub fn is_repeated(&self, mut words: Words<'_>) -> bool
        ensures { result ≡ plain.is_repeated self.now (parts_left words.entry) }
    {
        let Some(word) = words.next() else {
            return false;
        };
        match first_word(word) {
            Some(FirstWord::Rampart) => self.version.is_some(),
            Some(FirstWord::Scheme) => self.scheme.is_some(),
            Some(FirstWord::Group) => self.group.is_some(),
            Some(FirstWord::Key) => self.is_key_again(words),
            Some(FirstWord::Genesis) => self.has_genesis(),
            Some(FirstWord::Port) => self.is_port_again(words),
            Some(FirstWord::Host) => self.is_host_again(words),
            Some(FirstWord::Pair) => self.is_pair_again(words),
            None => false,
        }
    }

    // The key line of the process that the first word names was read.
    fn is_key_again(&self, mut words: Words<'_>) -> bool
        ensures { result ≡ is_some_and (first_process (parts_left words.entry)) (has (roster_of self.now.keys)) }
    {
        match next_process(&mut words) {
            Some(p) => self.is_listed(p),
            None => false,
        }
    }

    // Its port line was read.
    fn is_port_again(&self, mut words: Words<'_>) -> bool
        ensures { result ≡ is_some_and (first_process (parts_left words.entry)) (λ p. list_any (λ port. port.0 == p) self.now.ports) }
    {
        match next_process(&mut words) {
            Some(p) => self.has_port(p),
            None => false,
        }
    }

    // Its host line was read.
    fn is_host_again(&self, mut words: Words<'_>) -> bool
        ensures { result ≡ is_some_and (first_process (parts_left words.entry)) (plain.is_hosted self.now) }
    {
        match next_process(&mut words) {
            Some(p) => self.is_hosted(p),
            None => false,
        }
    }

    // The pair line of the processes that the first two words name was read.
    fn is_pair_again(&self, mut words: Words<'_>) -> bool
        ensures { result ≡ is_some_and (first_process (parts_left words.entry))
            (λ p. is_some_and (first_process (drop 1 (parts_left words.entry)))
            (λ q. list_any (λ host. (host.process == p) && list_any (λ pair. pair.0 == q) host.pairs) self.now.hosts)) }
    {
        let Some(p) = next_process(&mut words) else {
            return false;
        };
        match next_process(&mut words) {
            Some(q) => self.has_pair(p, q),
            None => false,
        }
    }

    /// The genesis was read, and the line names a process outside the roster.
    pub fn is_outside(&self, said: &KitLine) -> bool
        ensures { result ≡ plain.is_outside self.now (line said.now) }
    {
        self.has_genesis() && self.names_a_stranger(said)
    }

    fn names_a_stranger(&self, said: &KitLine) -> bool
        ensures { result ≡ list_any (λ p. not (has (roster_of self.now.keys) p)) (plain.named_by (line said.now)) }
    {
        match said {
            KitLine::Port { process, .. }
            | KitLine::PlainHost { process, .. }
            | KitLine::LmsHost { process, .. }
            | KitLine::HssHost { process, .. } => !self.is_listed(*process),
            KitLine::Pair { process, other, .. } => {
                !self.is_listed(*process) || !self.is_listed(*other)
            }
            _ => false,
        }
    }

    // A key line of a process above this one was read.
    fn key_above(&self, p: Pid) -> bool
        ensures { result ≡ list_any (λ k. nat_lt p k.0) self.now.keys }
    {
        has_above(self.roster.processes(), p)
    }

    // A host line of a process above this one was read.
    fn host_above(&self, p: Pid) -> bool
        ensures { result ≡ plain.host_above self.now p }
    {
        is_below_one(&self.hosts, p)
    }

    /// The line belongs before one that was read.
    pub fn is_late(&self, said: &KitLine) -> bool
        ensures { result ≡ plain.is_late self.now (line said.now) }
    {
        match said {
            KitLine::Key { process, .. } => self.has_genesis() || self.key_above(*process),
            KitLine::PlainHost { process, .. }
            | KitLine::LmsHost { process, .. }
            | KitLine::HssHost { process, .. } => self.host_above(*process),
            KitLine::Pair { process, .. } => {
                !self.is_hosted(*process) && self.host_above(*process)
            }
            _ => false,
        }
    }

    // The process of the roster whose port line comes next.
    fn next_port(&self) -> Option<Pid>
        ensures { result ≡ plain.next_port self.now }
    {
        nth(self.roster.processes(), self.ports.len())
    }

    // A line up to the last port line was not read.
    fn lacks_port(&self) -> bool
        ensures { result ≡ plain.lacks_port self.now }
    {
        !self.has_genesis() || self.next_port().is_some()
    }

    // The two processes whose pair line comes next.
    fn next_pair(&self) -> Option<(Pid, Pid)>
        ensures { result ≡ plain.next_pair self.now }
    {
        next_behind(self.hosts.last()?, self.roster.processes())
    }

    /// A line up to the last pair line of the hosts so far was not read.
    pub fn is_unfinished(&self) -> bool
        ensures { result ≡ (plain.lacks_port self.now || is_some (plain.next_pair self.now)) }
    {
        self.lacks_port() || self.next_pair().is_some()
    }

    /// A line that belongs before it was not read.
    pub fn is_early(&self, said: &KitLine) -> bool
        ensures { result ≡ plain.is_early self.now (line said.now) }
    {
        match said {
            KitLine::Version(_) => false,
            KitLine::SchemeIs(_) => self.version.is_none(),
            KitLine::GroupIs(_) => self.scheme.is_none(),
            KitLine::Key { .. } => self.group.is_none(),
            KitLine::Genesis(_) => self.has_no_key(),
            KitLine::Port { process, .. } => !self.has_genesis() || !self.is_next_port(*process),
            KitLine::PlainHost { .. } | KitLine::LmsHost { .. } | KitLine::HssHost { .. } => {
                self.is_unfinished()
            }
            KitLine::Pair { process, other, .. } => {
                self.lacks_port() || !self.is_next_pair(*process, *other)
            }
        }
    }

    fn has_no_key(&self) -> bool
        ensures { result ≡ (length self.now.keys == 0) }
    {
        self.roster.processes().pop_first().is_none()
    }

    fn is_next_port(&self, p: Pid) -> bool
        ensures { result ≡ is_some_and (plain.next_port self.now) (λ q. q == p) }
    {
        match self.next_port() {
            Some(next) => next == p,
            None => false,
        }
    }

    fn is_next_pair(&self, p: Pid, q: Pid) -> bool
        ensures { result ≡ is_some_and (plain.next_pair self.now) (plain.is_pair p q) }
    {
        match self.next_pair() {
            Some((process, other)) => process == p && other == q,
            None => false,
        }
    }

    /// The line is a genesis line, and names a process outside the roster.
    pub fn is_of_strangers(&self, said: &KitLine) -> bool
        ensures { result ≡ plain.is_of_strangers self.now (line said.now) }
    {
        match said {
            KitLine::Genesis(members) => has_other(members, self.roster.processes()),
            _ => false,
        }
    }
}

// The two processes that the next pair line of a host names.
fn next_behind(last: &Host, set: PidSet) -> Option<(Pid, Pid)>
    ensures { result ≡ option_map (λ q. (last.now.process, q))
        (plain.first_of (drop (length last.now.pairs.items) (others_than last.now.process set))) }
{
    let other = nth_other(set, last.process, last.pairs.len())?;
    Some((last.process, other))
}

// Whether the process is one of the hosts.
fn is_among(hosts: &[Host], p: Pid) -> bool
    ensures { result ≡ list_any (λ host. host.process == p) hosts.now }
{
    hosts.iter().any(|host| host.process == p)
}

// Whether one of the hosts is above the process.
fn is_below_one(hosts: &[Host], p: Pid) -> bool
    ensures { result ≡ list_any (λ host. nat_lt p host.process) hosts.now }
{
    hosts.iter().any(|host| p < host.process)
}

// Whether the first is one of the hosts and has a key for the second.
fn are_paired(hosts: &[Host], p: Pid, q: Pid) -> bool
    ensures { result ≡ list_any (λ host. (host.process == p) && list_any (λ pair. pair.0 == q) host.pairs.items) hosts.now }
{
    hosts
        .iter()
        .any(|host| host.process == p && shares_with(&host.pairs, q))
}

// Whether one of the set is above the process.
fn has_above(set: PidSet, p: Pid) -> bool
    ensures { result ≡ list_any (λ q. nat_lt p q) set }
{
    let mut rest = set;
    'rest: while let Some(q) = rest.pop_first() {
        if p < q {
            return true;
        }
    }
    false
}

// Whether a key for the process is among them.
fn shares_with(pairs: &[(Pid, [u8; 32])], q: Pid) -> bool
    ensures { result ≡ list_any (λ pair. pair.0 == q) pairs.now }
{
    pairs.iter().any(|pair| pair.0 == q)
}

// Whether one of them is not in the set.
fn has_other(members: &[Pid], set: PidSet) -> bool
    ensures { result ≡ list_any (λ p. not (has set p)) members.now }
{
    members.iter().any(|p| !set.contains(*p))
}

// The n-th process of the set, from 0.
fn nth(set: PidSet, n: usize) -> Option<Pid>
    ensures { result ≡ plain.first_of (drop n set) }
{
    let mut rest = set;
    let mut left = n;
    'rest: while let Some(p) = rest.pop_first() {
        if left == 0 {
            return Some(p);
        }
        left -= 1;
    }
    None
}

// The n-th process of the set, from 0, with `own` left out.
fn nth_other(set: PidSet, own: Pid, n: usize) -> Option<Pid>
    ensures { result ≡ plain.first_of (drop n (others_than own set)) }
{
    let mut rest = set;
    let mut left = n;
    'rest: while let Some(p) = rest.pop_first() {
        if p == own {
            continue;
        }
        if left == 0 {
            return Some(p);
        }
        left -= 1;
    }
    None
}
