/// The kinds of statements, in the order in which an event goes through them.
#[derive(Clone, Copy, PartialEq, Eq)]
pub enum Kind {
    Init,
    Echo,
    Order,
    Place,
    Keep,
    Notify,
    End,
    Ready,
    Last,
    Suggest,
    Ack,
}

/// Each kind once, in their order.
pub const KINDS: [Kind; 11] = [
    Kind::Init,
    Kind::Echo,
    Kind::Order,
    Kind::Place,
    Kind::Keep,
    Kind::Notify,
    Kind::End,
    Kind::Ready,
    Kind::Last,
    Kind::Suggest,
    Kind::Ack,
];
