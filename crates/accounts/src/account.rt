use member_events::{Delivered, Payload};
use rp_base::{Pid, Update};
use std::mem;
use view_table::View;

/// What a process reports of itself. The word `account` of the specs gives the definitions' account of it.
#[derive(Debug)]
pub struct Account {
    /// The own number.
    pub me: Pid,

    /// The views that it installed, the current one last. They are numbered in this order, from 0 on.
    pub views: Vec<View>,

    /// For each of these views, what it delivered there, in order.
    pub delivered: Vec<Vec<Delivered>>,

    /// The payloads that were handed in and taken, in order.
    pub accepted: Vec<Payload>,

    /// The updates that it perceived, each with the number of the view: rising, each once.
    pub perceived: Vec<(u16, Update)>,
}

// Written out, so that whoever drops a value makes one call (docs/CONTRIBUTING.md).
impl Drop for Account {
    fn drop(self) {
        let Account {
            me: _,
            views,
            delivered,
            accepted,
            perceived,
        } = self;
        mem::drop(views);
        mem::drop(delivered);
        mem::drop(accepted);
        mem::drop(perceived);
    }
}
