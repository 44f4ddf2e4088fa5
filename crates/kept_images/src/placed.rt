ghost use Rattle.std.specs.Prelude.{◌≡◌, ◌↔◌, ◌<◌, map, IsTrue};
ghost use Rattle.std.specs.List.{list_all};
ghost use Rattle.group_defs.specs.Process.{places_in};
ghost use Rattle.snapshot_rp.specs.Views.{delivered as plain};
ghost use Rattle.kept_images.specs.Facts.{AreByPlace};
ghost use Rattle.kept_images.specs.Tests as tests;

use member_events::{Delivered, MOST_PLACES};
use sound_question::is_by_place;

// The place of the message.
fn place_of(d: &Delivered) -> u32
    ensures value { result ≡ d.now.place }
    ensures below { result < 65536 }
{
    u32::from(d.place)
}

/// How many places were delivered: one more than the greatest of them, or 0.
pub fn count_places(delivered: &[Delivered]) -> u32
    ensures value { result ≡ places_in (map plain delivered.now) }
    ensures below { result < 65537 }
{
    let mut places = 0u32;
    for d in delivered {
        places = places.max(place_of(d) + 1);
    }
    places
}

fn is_placed(delivered: &[Delivered]) -> bool
    ensures { result ≡ tests.is_placed (map plain delivered.now) }
{
    count_places(delivered) <= MOST_PLACES as u32 && is_by_place(delivered)
}

fn each_is_placed(lists: &[Vec<Delivered>]) -> bool
    ensures { result ≡ list_all (λ ds. tests.is_placed (map plain ds.items)) lists.now }
{
    lists.iter().all(|delivered| is_placed(delivered))
}

/// Whether what was delivered in each view is in the order of places: at each place from the first on 1 to 16 messages, one place after the
/// other, and at most 1,024 of them.
pub fn are_by_place(lists: &[Vec<Delivered>]) -> bool
    ensures { IsTrue result ↔ AreByPlace (map (λ ds. map plain ds.items) lists.now) }
{
    each_is_placed(lists)
}
