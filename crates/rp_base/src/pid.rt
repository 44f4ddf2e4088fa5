ghost use Rattle.std.specs.Prelude.{◌≡◌, ◌<◌, IfSome, IsSome, ◌↔◌};

use std::marker::Model;

/// The number of a process, 0 to 63. Contracts see it as that number.
#[derive(Clone, Copy, Debug, PartialEq, Eq, PartialOrd, Ord, Hash)]
pub struct Pid(u8);

impl Model for Pid {
    ghost use Rattle.std.specs.Prelude.{ℕ, ◌<◌};

    ghost Value = { ℕ };

    ghost view = { λ p. p.0 };

    ghost invariant = { λ p. p.0 < 64 };

    ghost inverse = { λ n. record { 0 = n } };
}

/// Process 0, which fills the unused room of lists of a fixed size.
impl Default for Pid {
    ghost is_default = { λ p. p ≡ 0 };

    fn default() -> Pid {
        Pid(0)
    }
}

impl Pid {
    /// The process with this number; None exactly above 63.
    pub fn new(n: u8) -> Option<Pid>
        ensures value { IfSome result (λ p. p ≡ n) }
        ensures exactly { IsSome result ↔ (n < 64) }
    {
        if n < 64 { Some(Pid(n)) } else { None }
    }

    /// The number, 0 to 63.
    pub fn get(self) -> u8
        ensures value { result ≡ self }
        ensures below { result < 64 }
    {
        self.0
    }
}
