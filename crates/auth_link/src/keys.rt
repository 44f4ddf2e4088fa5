use rp_base::{GroupId, Pid};
use std::fmt;

/// What a process needs to speak in its group: its number, the group, and a key of 32 bytes for each process that it
/// shares one with. Its `Debug` shows no key.
#[derive(Drop)]
pub struct LinkKeys {
    pub(crate) me: Pid,
    pub(crate) group: GroupId,
    keys: [Option<[u8; 32]>; 64],
}

impl LinkKeys {
    ghost use Rattle.std.specs.Prelude.{◌≡◌, ◌≢◌, ℕ, None, Some, IfSome, IfNone};
    ghost use Rattle.std.specs.Option.{option_copied};
    ghost use Rattle.auth_link.specs.Keys.{own_number, group_of, pair_key};

    /// The keys of this process in this group; it shares none yet.
    pub fn new(me: Pid, group: GroupId) -> LinkKeys
        ensures me { own_number result ≡ me }
        ensures group { group_of result ≡ group }
        ensures keys { (p : ℕ) → pair_key result p ≡ None }
    {
        LinkKeys {
            me,
            group,
            keys: [None; 64],
        }
    }

    /// Shares this key with another process. A key that was shared with it before is given up.
    pub fn add(&mut self, peer: Pid, key: &[u8; 32])
        requires { peer ≢ own_number self.old }
        ensures key { pair_key self.new peer ≡ Some key.now }
        ensures others { (p : ℕ) → p ≢ peer → pair_key self.new p ≡ pair_key self.old p }
        ensures me { own_number self.new ≡ own_number self.old }
        ensures group { group_of self.new ≡ group_of self.old }
    {
        self.keys[usize::from(peer.get())] = Some(*key);
    }

    // The key that is shared with a process.
    pub(crate) fn key(&self, peer: Pid) -> Option<&[u8; 32]>
        ensures { option_copied result ≡ pair_key self.now peer }
    {
        self.keys[usize::from(peer.get())].as_ref()
    }

    // The process of this number. None only where no key is shared with one.
    pub(crate) fn sender(&self, number: u8) -> Option<Pid>
        ensures value { IfSome result (λ p. p ≡ number) }
        ensures none { IfNone result (pair_key self.now number ≡ None) }
    {
        Pid::new(number)
    }
}

impl fmt::Debug for LinkKeys {
    fn fmt<W: fmt::Write>(&self, f: &mut fmt::Formatter<W>) -> fmt::Result {
        f.debug_struct("LinkKeys")
            .field("me", &self.me)
            .field("group", &self.group)
            .finish_non_exhaustive()
    }
}
