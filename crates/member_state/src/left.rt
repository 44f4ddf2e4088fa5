use own_place::SignedSlots;
use reliable_mcast::{ClaimList, Displaced};

/// What was the process's in a view that it has left, and the pool that it had kept of the view before that. What it signed there is kept
/// for good, apart from this.
#[derive(Drop)]
pub struct LeftView {
    pub signed: SignedSlots,
    pub older: Displaced,
}

/// What the process has signed in a view that it left, in order of signing. The first `from` of these claims are in the lists before
/// this one too, where the process began again in that view; else `from` is 0.
#[derive(Drop)]
pub struct SaidBefore {
    pub claims: ClaimList,
    pub from: usize,
}
