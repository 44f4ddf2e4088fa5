//! Whether pairs rise.
ghost use Rattle.std.specs.Prelude.{◌≡◌, ◌∷◌};
ghost use Rattle.snapshot_defs.specs.Reading as plain;

use crate::claim::KeptClaim;
use rp_base::Update;

/// What has a key: numbers, the first of which counts most.
pub(crate) trait Keyed {
    ghost use Rattle.std.specs.Prelude.{◌≡◌, ℕ, List};
    ghost use Rattle.byte_defs.specs.Orders.{numbers_below};

    ghost key: { Self → List ℕ };

    /// Whether its key is below that of the next.
    fn is_below(&self, next: &Self) -> bool
        ensures { result ≡ numbers_below (key self.now) (key next.now) };
}

impl Keyed for (u16, Update) {
    ghost use Rattle.snapshot_defs.specs.Reading.{perceived_key};
    ghost use Rattle.snapshot_rp.specs.Views.{perceived};

    ghost key = { λ e. perceived_key (perceived e) };

    fn is_below(&self, next: &(u16, Update)) -> bool {
        self.0 < next.0 || self.0 == next.0 && self.1.is_before(next.1)
    }
}

impl Keyed for (KeptClaim, KeptClaim) {
    ghost use Rattle.snapshot_defs.specs.Reading.{conflict_key};

    ghost key = { conflict_key };

    fn is_below(&self, next: &(KeptClaim, KeptClaim)) -> bool {
        self.0.signer() < next.0.signer()
    }
}

/// Whether the key of each is below that of the next.
pub(crate) fn rises<T: Keyed>(items: &[T]) -> bool
    ensures { result ≡ plain.rises T.key items.now }
{
    match items {
        [first, rest @ ..] => rises_from(first, rest),
        [] => true,
    }
}

fn rises_from<T: Keyed>(first: &T, rest: &[T]) -> bool
    ensures { result ≡ plain.rises T.key (first.now ∷ rest.now) }
{
    let mut last = first;
    'rest: for next in rest {
        if !last.is_below(next) {
            return false;
        }
        last = next;
    }
    true
}
