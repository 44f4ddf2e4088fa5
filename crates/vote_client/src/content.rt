//! A place, a position of it and an answer.
ghost use Rattle.std.specs.Prelude.{◌≡◌};
ghost use Rattle.byte_defs.specs.Orders.{numbers_below};
ghost use Rattle.store_defs.specs.Votes as votes;
ghost use Rattle.store_defs.specs.Votes.{content_numbers};
ghost use Rattle.store_records.specs.Views.{reply as reply_of};
ghost use Rattle.vote_client.specs.Views.{content};

use store_records::Reply;

/// What a member answered, and where its group delivered the message: its place and its position of it.
#[derive(Clone, Copy)]
pub struct Content<'a> {
    pub place: u16,
    pub position: u8,
    pub answer: &'a [u8],
}

/// That of a reply.
pub(crate) fn content_of<'a>(reply: &Reply<'a>) -> Content<'a>
    ensures { content result ≡ votes.content_of (reply_of reply.now) }
{
    Content {
        place: reply.place,
        position: reply.position,
        answer: reply.answer,
    }
}

// Both at one lifetime, the only form of the comparison that the borrow checker covers.
fn is_below<'a>(a: &'a [u8], b: &'a [u8]) -> bool
    ensures { result ≡ numbers_below a.now b.now }
{
    a < b
}

/// Whether they are the same.
pub(crate) fn are_same<'a>(a: Content<'a>, b: Content<'a>) -> bool
    ensures { result ≡ votes.same_content (content a.entry) (content b.entry) }
{
    a.place == b.place && a.position == b.position && a.answer == b.answer
}

/// Whether the first comes before the second: by place, then by position, then by answer.
pub(crate) fn is_before<'a>(a: Content<'a>, b: Content<'a>) -> bool
    ensures { result ≡ numbers_below (content_numbers (content a.entry)) (content_numbers (content b.entry)) }
{
    if a.place != b.place {
        return a.place < b.place;
    }
    if a.position != b.position {
        return a.position < b.position;
    }
    is_below(a.answer, b.answer)
}
