ghost use Rattle.std.specs.Prelude.{◌≡◌, ◌≤◌, ◌+◌, None, min, if◌then◌else◌};
ghost use Rattle.store_keys.specs.Keys.{next, signs};
ghost use Rattle.store_replies.specs.Words.{most_counted};

use crate::saying::{answer, tell};
use kv_service::Store;
use rp_base::{GroupId, NoMemory, Pid};
use std::alloc::Global;
use store_keys::LeafKey;
use store_records::Reply;
use store_words::push_hex_line;

/// What a process replies to the messages that it delivers: the key that signs, how many messages it delivered so far, and the store that
/// answers, where the process holds it. `IsReplying` of the specs says what the definitions' server has of these.
#[derive(Drop)]
pub struct Replies {
    me: Pid,
    group: GroupId,
    key: LeafKey,

    // How many messages the process delivered in all its views: the next leaf. The count stays at the last u32, and no key has that leaf.
    delivered: u32,

    // The place of the message that was delivered last in this run and view, and its position there.
    last: Option<(u16, u8)>,
    store: Option<Store>,
    ghost unused: { next key ≤ delivered },
    ghost few: { (signs key).total ≤ most_counted },
}

// One more, up to the last u32.
#[tactic(auto, unfolding(crate::specs::Words::most_counted))]
fn one_more(count: u32) -> u32
    ensures { result ≡ min (count + 1) most_counted }
{
    count.saturating_add(1)
}

// The store, where it is kept.
fn kept_if(store: Option<Store>, keep: bool) -> Option<Store>
    ensures { result ≡ if keep then store else None }
{
    if keep { store } else { None }
}

// The greatest number of a view or a place.
const LAST_NUMBER: u16 = 1023;

// The last position at a place.
const LAST_POSITION: u8 = 15;

const PAYLOAD_BYTES: usize = 1024;

impl Replies {
    ghost use Rattle.std.specs.Prelude.{◌⊎◌, ◌++◌, ◌↔◌, IsTrue, OnOk, OnErr, option_map, is_some};
    ghost use Rattle.group_defs.specs.Views.{View, is_member};
    ghost use Rattle.message_defs.specs.Statements.{Message};
    ghost use Rattle.store_defs.specs.Serving.{Place, Server, ReportedReply, after_message, after_view, position_at, reply_to};
    ghost use Rattle.store_defs.specs.Words.{reply_key_text, reported_text};
    ghost use Rattle.store_replies.specs.Words.{HasSpelling, message_at};
    ghost use Rattle.store_replies.specs.Replying.{Fits, IsReplying, key_in, me_in, next_position};

    /// For a process of this group, whose key has signed nothing yet: `delivered` messages came before this run (the last u32, where it
    /// is more), and it holds the store or not.
    #[tactic(auto, unfolding(crate::specs::Words::most_counted))]
    pub fn new(
        me: Pid,
        group: GroupId,
        key: LeafKey,
        delivered: u32,
        store: Option<Store>,
    ) -> Replies
        requires unused { next key ≡ 0 }
        ensures { (q : Place) (s : Server) → q.me ≡ me → q.group ≡ group → q.replies ≡ signs key
            → delivered ≡ min s.delivered most_counted → s.last ≡ None → s.store ≡ store → IsReplying q s result }
    {
        let _total = key.total();
        Replies {
            me,
            group,
            key,
            delivered,
            last: None,
            store,
        }
    }

    // The position of the next message, at this place.
    fn position(&self, place: u16) -> u8
        requires { next_position self.now place ≤ 15 }
        ensures { result ≡ next_position self.now place }
    {
        match self.last {
            Some((before, position)) if before == place => position + 1,
            _ => 0,
        }
    }

    /// Whether the reply to the next message, of this place and payload in the view of this number, is in its ranges: view and place to
    /// 1,023, its position to 15, its payload to 1,024 bytes.
    pub fn fits(&self, view: u16, place: u16, payload: &[u8]) -> bool
        ensures { IsTrue result ↔ Fits self.now view place payload.now }
    {
        let follows = match self.last {
            Some((before, position)) if before == place => position < LAST_POSITION,
            _ => true,
        };
        follows && view <= LAST_NUMBER && place <= LAST_NUMBER && payload.len() <= PAYLOAD_BYTES
    }

    /// Takes a message that the process delivers at this place, in the view of this number: the store carries its payload out, and the line
    /// of the reply is appended. The reply is signed with the leaf whose number is how many messages were delivered before.
    ///
    /// # Errors
    /// [`NoMemory`] where room for the store, for what is signed or for the line is refused. Nothing is appended then; either nothing has
    /// changed, or the message is taken, its reply is lost, and nothing else is signed with its leaf.
    pub fn deliver(
        &mut self,
        alloc: Global,
        view: u16,
        place: u16,
        payload: &[u8],
        out: &mut Vec<u8>,
    ) -> Result<(), NoMemory>
        requires fits { Fits self.old view place payload.now }
        ensures after { (q : Place) (s : Server) (m : Message) → IsReplying q s self.old
            → OnOk result (IsReplying q (after_message s (message_at place payload.now m)) self.new) }
        ensures reported { (q : Place) (s : Server) (m : Message) → IsReplying q s self.old
            → OnOk result (out.new.items
            ≡ out.old.items ++ reported_text q.me (ReportedReply (reply_to q s view (message_at place payload.now m)))) }
        ensures untold { OnErr result (out.new.items ≡ out.old.items) }
        ensures lost { (q : Place) (s : Server) (m : Message) → IsReplying q s self.old
            → OnErr result (IsReplying q s self.new ⊎ IsReplying q (after_message s (message_at place payload.now m)) self.new) }
    {
        // Read, so that it is known to be at most 63.
        let _number = self.me.get();
        let position = self.position(place);
        let asked = Reply {
            signer: self.me,
            view,
            place,
            position,
            payload,
            answer: &[],
            signature: &[],
        };
        let answered = answer(&mut self.store, alloc, payload)?;
        let reported = tell(
            &mut self.key,
            alloc,
            &self.group,
            self.delivered,
            &asked,
            &answered,
            out,
        );
        self.delivered = one_more(self.delivered);
        self.last = Some((place, position));
        reported?;
        Ok(())
    }

    /// A view begins: its messages begin at position 0 again, and the process holds the store further where it stays, which is where it is
    /// a member of the view.
    pub fn begin_view(&mut self, stays: bool)
        ensures { (q : Place) (s : Server) (v : View) → IsReplying q s self.old → is_member v q.me ≡ stays
            → IsReplying q (after_view q s v) self.new }
    {
        self.last = None;
        self.store = kept_if(self.store.take(), stays);
    }

    /// The process has this store now, or none.
    pub fn take_over(&mut self, store: Option<Store>)
        ensures { (q : Place) (s : Server) → IsReplying q s self.old → IsReplying q (record s { store = store }) self.new }
    {
        self.store = store;
    }

    /// Whether the process holds the store.
    pub fn holds(&self) -> bool
        ensures { (q : Place) (s : Server) → IsReplying q s self.now → result ≡ is_some s.store }
    {
        self.store.is_some()
    }

    /// The store, where the process holds it and stays.
    pub fn kept(&self, stays: bool) -> Option<&Store>
        ensures { (q : Place) (s : Server) → IsReplying q s self.now
            → option_map (λ t. t.now) result ≡ if stays then s.store else None }
    {
        if !stays {
            return None;
        }
        match &self.store {
            Some(store) => Some(store),
            None => None,
        }
    }

    /// Who replies.
    pub fn me(&self) -> Pid
        ensures { result ≡ me_in self.now }
    {
        self.me
    }

    /// Appends the line of the key that signs the replies.
    ///
    /// # Errors
    /// [`NoMemory`] where room for it is refused; nothing is appended then.
    pub fn push_key(&self, out: &mut Vec<u8>) -> Result<(), NoMemory>
        ensures pushed { OnOk result (out.new.items ≡ out.old.items ++ reply_key_text (me_in self.now) (key_in self.now).public) }
        ensures unchanged { OnErr result (out.new.items ≡ out.old.items) }
    {
        push_hex_line(out, b"replykey", self.me, self.key.public())
    }
}
