//! UDP on 127.0.0.1 as a link. What the system says of its sockets is trusted; that a fault is counted, and which answer
//! of the system is one, is proved.
#![tactic(auto)]

mod answers;
mod link;

pub use link::UdpLink;
