//! A node between two calls.
ghost use Rattle.kit_defs.specs.Kits.{IsKit};

use crate::counts::Counts;
use crate::hosts::Hosts;
use journal_rp::{Journal, Writing};
use node_keys::Kit;

/// A node between two calls: its kit, the processes that it hosts, its journal, which takes in turns, and how many entries of each process
/// that has.
#[derive(Drop)]
pub struct Running<'a> {
    /// Who is in the group, and which of them are hosted here.
    pub kit: &'a Kit,

    /// The hosted processes.
    pub hosts: Hosts,

    /// The journal of all of them.
    pub journal: Journal<Writing>,

    /// How many entries of each process it has.
    pub counts: Counts,
    pub ghost valid: { ∥ IsKit kit.now ∥₁ },
}
