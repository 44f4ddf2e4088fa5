//! How an image's process left its views: what an image says of it is judged, and made what a member that begins again keeps of them
//! (docs/FORMATS.md, «Images»).
#![tactic(auto)]

mod past;

pub use kept_images::{
    are_accepted, are_by_place, are_conflicts, are_own, are_perceived, count_places, is_halted_so,
};
pub use member_state::{Account, ClaimList, Conflicts, ProcessState, SaidBefore, pair_at};
pub use past::{Left, copied, left_in};
pub use restored_past::{
    Archive, Judge, Phase, Pool, are_heard, are_once, are_paid, are_placed, asked_in, claims_of,
    conflicts_of, hear_list, installed, own_end, phase_of, said_in,
};
pub use restored_place::{Own, note_signed, own_delivered, place_in};
