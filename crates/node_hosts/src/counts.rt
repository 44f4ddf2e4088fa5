//! How many entries each process has in the journal.
ghost use Rattle.std.specs.Prelude.{◌≡◌, ◌+◌, ◌<◌, ◌^◌, ◌==◌, ℕ, if◌then◌else◌};
ghost use Rattle.node_hosts.specs.Counts.{count_in};

use rp_base::Pid;

/// How many entries of each process the journal of a node has.
#[derive(Drop)]
pub struct Counts {
    each: [u64; 64],
}

impl Counts {
    /// None of any process.
    pub fn new() -> Counts
        ensures { (p : ℕ) → count_in result p ≡ 0 }
    {
        Counts { each: [0; 64] }
    }

    /// So many of this process, as a node counts them that begins at a place of its journal.
    pub fn begin(&mut self, p: Pid, entries: u64)
        ensures { (q : ℕ) → count_in self.new q ≡ (if p == q then entries else count_in self.old q) }
    {
        self.each[usize::from(p.get())] = entries;
    }

    /// One more of this process.
    pub fn count(&mut self, p: Pid)
        requires { count_in self.old p + 1 < 2 ^ 64 }
        ensures { (q : ℕ) → count_in self.new q ≡ count_in self.old q + (if p == q then 1 else 0) }
    {
        self.each[usize::from(p.get())] += 1;
    }

    /// Those of this process.
    pub fn of(&self, p: Pid) -> u64
        ensures { result ≡ count_in self.now p }
    {
        self.each[usize::from(p.get())]
    }
}
