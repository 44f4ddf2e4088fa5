ghost use Rattle.std.specs.Prelude.{◌≡◌, ◌==◌, ◌&&◌, IfOk, OnOk, OnErr, option_map, map, filter};
ghost use Rattle.std.specs.List.{list_any};
ghost use Rattle.byte_defs.specs.Orders.{least};
ghost use Rattle.store_defs.specs.Records.{IsReply};
ghost use Rattle.store_defs.specs.Votes as votes;
ghost use Rattle.store_records.specs.Views.{reply as reply_of};
ghost use Rattle.vote_client.specs.Views.{content as content_as};
ghost use Rattle.vote_client.specs.Counted.{given, counted as counted_of};
ghost use Rattle.vote_client.specs.Choosing.{lesser};

use crate::content::{Content, are_same, content_of, is_before};
use rp_base::{GroupId, NoMemory, Pid, Scheme};
use std::alloc::Global;
use std::marker::Model;
use store_defs::Offer;
use store_records::{Reply, push_reply_body};
use view_table::{View, faulty};

// A signer, and what it answered.
#[derive(Drop)]
struct Given {
    signer: Pid,
    place: u16,
    position: u8,
    answer: Vec<u8>,
}

/// What a client asks: how a payload was answered in a view. It keeps whose replies count, with their contents, in order, and contracts see it
/// so.
#[derive(Drop)]
pub struct Vote {
    view: View,
    payload: Vec<u8>,
    counted: Vec<Given>,
}

impl Model for Vote {
    ghost use Rattle.store_defs.specs.Votes as votes;
    ghost use Rattle.vote_client.specs.Counted.{counted as counted_of};

    ghost Value = { votes.Vote };

    ghost view = { λ v. record { view = v.view; payload = v.payload.items; counted = counted_of v.counted.items } };
}

impl Given {
    // A copy of what was answered.
    fn new(alloc: Global, signer: Pid, content: Content<'_>) -> Result<Given, NoMemory>
        ensures { IfOk result (λ g. given g ≡ (signer, content_as content.entry)) }
    {
        let answer = content.answer.to_vec(alloc)?;
        Ok(Given {
            signer,
            place: content.place,
            position: content.position,
            answer,
        })
    }

    fn content(&self) -> Content<'_>
        ensures { content_as result ≡ (given self.now).1 }
    {
        Content {
            place: self.place,
            position: self.position,
            answer: &self.answer,
        }
    }

    // Whether it is this signer's, with this content.
    fn is_of(&self, signer: Pid, content: Content<'_>) -> bool
        ensures { result ≡ (((given self.now).0 == signer) && votes.same_content (content_as content.entry) (given self.now).1) }
    {
        self.signer == signer && are_same(content, self.content())
    }
}

// Whether a reply's signature is valid under its signer's reply key, where there is one.
fn is_signed<V: Scheme>(
    alloc: Global,
    scheme: &V,
    group: &GroupId,
    key: Option<&[u8]>,
    reply: &Reply<'_>,
) -> Result<bool, NoMemory>
    requires { IsReply (reply_of reply.now) }
    ensures { IfOk result (λ b. b
        ≡ votes.is_signed (V.valid scheme.now) group.now (option_map (λ k. k.now) key.entry) (reply_of reply.now)) }
{
    let Some(key) = key else {
        return Ok(false);
    };
    let mut body = Vec::new(alloc);
    push_reply_body(&mut body, group, reply)?;
    Ok(scheme.verify(key, &body, reply.signature))
}

// Whether the signer is among these with this content.
fn has_given(counted: &[Given], content: Content<'_>, signer: Pid) -> bool
    ensures { result ≡ list_any (λ g. (g.0 == signer) && votes.same_content (content_as content.entry) g.1) (counted_of counted.now) }
{
    'counted: for given in counted {
        if given.is_of(signer, content) {
            return true;
        }
    }
    false
}

impl Vote {
    /// Nobody is counted yet.
    ///
    /// # Errors
    /// [`NoMemory`] where room for the payload is refused.
    pub fn new(alloc: Global, view: View, payload: &[u8]) -> Result<Vote, NoMemory>
        ensures { IfOk result (λ v. v ≡ votes.new_vote view payload.now) }
    {
        let payload = payload.to_vec(alloc)?;
        Ok(Vote {
            view,
            payload,
            counted: Vec::new(alloc),
        })
    }

    // It answers this payload, in this view.
    fn is_asked(&self, reply: &Reply<'_>) -> bool
        ensures { result ≡ votes.is_asked self.now.view self.now.payload (reply_of reply.now) }
    {
        reply.payload == self.payload.as_slice() && reply.view == self.view.number()
    }

    // What the client makes of a reply.
    #[tactic(auto, unfolding(store_defs::specs::Votes::offer))]
    fn judge<V: Scheme>(
        &self,
        alloc: Global,
        scheme: &V,
        group: &GroupId,
        key: Option<&[u8]>,
        reply: &Reply<'_>,
    ) -> Result<Offer, NoMemory>
        requires { IsReply (reply_of reply.now) }
        ensures { IfOk result (λ o. o
            ≡ votes.offer (V.valid scheme.now) group.now (option_map (λ k. k.now) key.entry) self.now (reply_of reply.now)) }
    {
        if !self.is_asked(reply) {
            return Ok(Offer::OtherRequest);
        }
        if !self.view.is_member(reply.signer) {
            return Ok(Offer::Stranger);
        }
        if !is_signed(alloc, scheme, group, key, reply)? {
            return Ok(Offer::Unsigned);
        }
        if has_given(&self.counted, content_of(reply), reply.signer) {
            return Ok(Offer::Known);
        }
        Ok(Offer::Counted)
    }

    // Counts the reply.
    fn count(&mut self, alloc: Global, reply: &Reply<'_>) -> Result<(), NoMemory>
        ensures counted { OnOk result (self.new ≡ votes.with_reply self.old (reply_of reply.now) Offer.Counted) }
        ensures unchanged { OnErr result (self.new ≡ self.old) }
    {
        let given = Given::new(alloc, reply.signer, content_of(reply))?;
        self.counted.push(given)?;
        Ok(())
    }

    /// Offers a reply, with the reply key of its signer where the client has one. It counts where it answers the payload in the view, its
    /// signer is a member, its signature is valid under the key, and its signer is not counted with this content; else the answer is the
    /// first reason why not, and nothing has changed.
    ///
    /// # Errors
    /// [`NoMemory`] where room for what is signed or for the content is refused; nothing has changed then.
    pub fn offer<V: Scheme>(
        &mut self,
        alloc: Global,
        scheme: &V,
        group: &GroupId,
        key: Option<&[u8]>,
        reply: &Reply<'_>,
    ) -> Result<Offer, NoMemory>
        requires { IsReply (reply_of reply.now) }
        ensures answer { IfOk result (λ o. o
            ≡ votes.offer (V.valid scheme.now) group.now (option_map (λ k. k.now) key.entry) self.old (reply_of reply.now)) }
        ensures vote { OnOk result (self.new
            ≡ votes.offered (V.valid scheme.now) group.now (λ _. option_map (λ k. k.now) key.entry) self.old (reply_of reply.now)) }
        ensures unchanged { OnErr result (self.new ≡ self.old) }
    {
        let offer = self.judge(alloc, scheme, group, key, reply)?;
        let Offer::Counted = offer else {
            return Ok(offer);
        };
        self.count(alloc, reply)?;
        Ok(Offer::Counted)
    }

    // How many members gave the content.
    fn voters(&self, content: Content<'_>) -> usize
        ensures { result ≡ votes.voters self.now (content_as content.entry) }
    {
        let counted = self.counted.as_slice();
        let members = self.view.members();
        members
            .iter()
            .filter(|m| has_given(counted, content, **m))
            .count()
    }

    // Whether more than f members gave the content.
    fn is_enough(&self, content: Content<'_>) -> bool
        ensures { result ≡ votes.is_enough self.now (content_as content.entry) }
    {
        let members = self.view.members();
        let many = self.voters(content);
        faulty(members.len()) < many
    }

    // The content where it is enough and the least so far, or what was.
    fn lesser<'a>(&self, least: Option<Content<'a>>, content: Content<'a>) -> Option<Content<'a>>
        ensures { option_map content_as result ≡ lesser self.now (option_map content_as least.entry) (content_as content.entry) }
    {
        if !self.is_enough(content) {
            return least;
        }
        let Some(lower) = least else {
            return Some(content);
        };
        if is_before(content, lower) {
            return Some(content);
        }
        least
    }

    /// The least place, position and answer that more than f members gave, where there is one.
    #[tactic(auto, unfolding(store_defs::specs::Votes::accepted))]
    pub fn accepted(&self) -> Option<Content<'_>>
        ensures { option_map content_as result ≡ votes.accepted self.now }
    {
        least_of(self, &self.counted)
    }
}

// The least of these contents that is enough, where there is one.
fn least_of<'a>(vote: &Vote, counted: &'a [Given]) -> Option<Content<'a>>
    ensures { option_map content_as result
        ≡ least votes.content_numbers (filter (votes.is_enough vote.now) (map (λ g. g.1) (counted_of counted.now))) }
{
    let mut least = None;
    'counted: for given in counted {
        least = vote.lesser(least, given.content());
    }
    least
}
