use crate::claim::KeptClaim;
use member_events::{Delivered, Payload};
use rp_base::{Pid, Update, Value};
use std::mem;

/// How a view was left: the rank and the value of the Ready that decided it, and its commit certificate.
#[derive(Drop)]
pub struct LeftView {
    pub rank: u8,
    pub value: Value,
    pub commit: Vec<KeptClaim>,
}

/// The data of a process, without the group, the roster, its key and its batch limit.
pub struct Image {
    /// The process itself.
    pub me: Pid,

    /// The views that were left, the first one first.
    pub left: Vec<LeftView>,

    /// The updates that were perceived, each with the number of its view.
    pub perceived: Vec<(u16, Update)>,

    /// The payloads that were accepted, in order.
    pub accepted: Vec<Payload>,

    /// What the process signed in all views, in order of signing.
    pub signed: Vec<KeptClaim>,

    /// What was heard in the view that was left last.
    pub previous: Vec<KeptClaim>,

    /// What was heard in the current view.
    pub heard: Vec<KeptClaim>,

    /// The first conflict of each signer, the claim that was heard first.
    pub conflicts: Vec<(KeptClaim, KeptClaim)>,

    /// What was delivered in each view that was installed.
    pub delivered: Vec<Vec<Delivered>>,

    /// The rank and the value of the Ready that decides the current view, once there is one.
    pub decision: Option<(u8, Value)>,

    /// Whether the process halted for good.
    pub halted: bool,
}

// Written out, so that whoever drops a value makes one call (docs/CONTRIBUTING.md).
impl Drop for Image {
    fn drop(self) {
        let Image {
            me: _,
            left,
            perceived,
            accepted,
            signed,
            previous,
            heard,
            conflicts,
            delivered,
            decision: _,
            halted: _,
        } = self;
        mem::drop(left);
        mem::drop(perceived);
        mem::drop(accepted);
        mem::drop(signed);
        mem::drop(previous);
        mem::drop(heard);
        mem::drop(conflicts);
        mem::drop(delivered);
    }
}
