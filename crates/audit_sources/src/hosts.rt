//! Which journal hosts a process.
ghost use Rattle.std.specs.Prelude.{◌≡◌, ◌≤◌, IfSome, count_by, find, map, option_map};
ghost use Rattle.std.specs.List.{enumerate_from};
ghost use Rattle.byte_defs.specs.Members.{has};
ghost use Rattle.journal_defs.specs.Journals.{batch_limit as limit_of};
ghost use Rattle.audit_defs.specs.Players as plain;
ghost use Rattle.journal_steps.specs.Views.{source as source_of};
ghost use Rattle.audit_sources.specs.Hosts.{hosted_by, is_host};

use journal_steps::{Source, Version};
use rp_base::{Pid, PidSet};

/// The journal that hosts a process.
#[derive(Clone, Copy)]
pub struct HostedBy {
    /// Its index among the journals.
    pub journal: usize,

    /// How many messages the process orders at one place.
    pub batch_limit: u8,
}

// How many messages a process orders at one place where this journal hosts it.
fn batch_of(source: &Source<'_>) -> u8
    ensures value { result ≡ limit_of (source_of source.now).version }
    ensures some { 1 ≤ result }
    ensures few { result ≤ 16 }
{
    match source.version() {
        Version::One => 1,
        Version::Two => 16,
    }
}

// Whether the journal hosts the process.
fn hosts(source: &Source<'_>, p: Pid) -> bool
    ensures { result ≡ has (source_of source.now).hosted p }
{
    source.hosted().contains(p)
}

// How many of the journals host the process.
fn count_hosts(sources: &[Source<'_>], p: Pid) -> usize
    ensures { result ≡ count_by (λ x. has (source_of x).hosted p) sources.now }
{
    sources.iter().filter(|source| hosts(source, p)).count()
}

// Whether no journal hosts it.
fn is_missing(sources: &[Source<'_>], p: Pid) -> bool
    ensures { result ≡ plain.is_missing (map source_of sources.now) p }
{
    count_hosts(sources, p) == 0
}

// Whether two journals or more host it.
fn is_repeated(sources: &[Source<'_>], p: Pid) -> bool
    ensures { result ≡ plain.is_repeated (map source_of sources.now) p }
{
    count_hosts(sources, p) > 1
}

/// The least of these processes that no journal hosts.
pub fn first_missing(sources: &[Source<'_>], listed: PidSet) -> Option<Pid>
    ensures { result ≡ find (plain.is_missing (map source_of sources.now)) listed }
{
    let mut left = listed;
    'listed: while let Some(p) = left.pop_first() {
        if is_missing(sources, p) {
            return Some(p);
        }
    }
    None
}

/// The least of these processes that two journals or more host.
pub fn first_repeated(sources: &[Source<'_>], listed: PidSet) -> Option<Pid>
    ensures { result ≡ find (plain.is_repeated (map source_of sources.now)) listed }
{
    let mut left = listed;
    'listed: while let Some(p) = left.pop_first() {
        if is_repeated(sources, p) {
            return Some(p);
        }
    }
    None
}

/// The first of the journals that hosts the process.
pub fn host_of(sources: &[Source<'_>], p: Pid) -> Option<HostedBy>
    ensures first { result ≡ option_map hosted_by (find (is_host p) (enumerate_from 0 (map source_of sources.now))) }
    ensures some { IfSome result (λ by. 1 ≤ by.batch_limit) }
    ensures few { IfSome result (λ by. by.batch_limit ≤ 16) }
{
    for (journal, source) in sources.iter().enumerate() {
        if hosts(source, p) {
            return Some(HostedBy {
                journal,
                batch_limit: batch_of(source),
            });
        }
    }
    None
}
