//! Lines of a script that say something to the server.
ghost use Rattle.std.specs.Prelude.{◌≡◌, ◌++◌, ◌∷◌, [], List, map, IfOk, OnOk, OnErr};
ghost use Rattle.accounts.specs.Views.{account, delivery};
ghost use Rattle.group_defs.specs.Accounts.{account_of};
ghost use Rattle.group_defs.specs.Process as process;
ghost use Rattle.kit_defs.specs.Kits.{Kit};
ghost use Rattle.signature_defs.specs.Schemes.{is_valid};
ghost use Rattle.sig_scheme.specs.Views.{scheme as scheme_in};
ghost use Rattle.store_defs.specs.Holding.{payloads_of};
ghost use Rattle.store_defs.specs.Serving as plain;
ghost use Rattle.store_defs.specs.Serving.{Place, after_offer, offer_word};
ghost use Rattle.store_defs.specs.Services.{line_worded, worded};
ghost use Rattle.store_defs.specs.Words.{offered_text};
ghost use Rattle.store_giving.specs.Offers.{store_by};
ghost use Rattle.store_words.specs.Views.{word as word_of};
ghost use Rattle.store_server.specs.Beginning.{lists_of};
ghost use Rattle.store_server.specs.Serving.{IsCutOff, IsCutOffAt, IsHeard, IsServer, transfer_of};

use crate::server::Server;
use accounts::{Account, Delivered};
use sig_scheme::AnyScheme;
use std::alloc::Global;
use store_giving::{Offered, Taken, reserve_offered};
use store_replies::{NoMemory, Roster};
use store_words::{Word, read_word};

// What was delivered in the current view, which is the last one.
fn last_of(lists: &[Vec<Delivered>]) -> &[Delivered]
    ensures { (before : List (List process.Delivered)) (last : List process.Delivered)
        → lists_of lists.now ≡ before ++ last ∷ [] → map delivery result.now ≡ last }
{
    match lists.split_last() {
        Some((delivered, _)) => delivered,
        None => &[],
    }
}

impl Server {
    // Takes the store over where a state is ready.
    fn settle(
        &mut self,
        alloc: Global,
        here: &[Delivered],
        offered: Offered,
    ) -> Result<(), NoMemory>
        ensures settled { (q : Place) (s : plain.Server) → IsServer q s self.old → OnOk result (IsServer q
            (record s { store = store_by (payloads_of (map delivery here.now)) s.store offered (transfer_of self.old) }) self.new) }
        ensures unchanged { (q : Place) (s : plain.Server) → IsServer q s self.old → OnErr result (IsServer q s self.new) }
    {
        if let Offered::Offered(Taken::Ready) = offered {
            let store = self.giving.ready(alloc, here)?;
            self.replies.take_over(store);
        }
        Ok(())
    }

    // Offers a state, and appends the line of what became of it.
    fn offer(
        &mut self,
        alloc: Global,
        scheme: AnyScheme,
        here: &[Delivered],
        bytes: &[u8],
        out: &mut Vec<u8>,
    ) -> Result<(), NoMemory>
        ensures written { (q : Place) (s : plain.Server) → IsServer q s self.old → OnOk result (out.new.items
            ≡ out.old.items ++ offered_text q.me (offer_word (is_valid (scheme_in scheme)) q s bytes.now)) }
        ensures after { (q : Place) (s : plain.Server) → IsServer q s self.old → OnOk result (IsServer q
            (after_offer (is_valid (scheme_in scheme)) q (payloads_of (map delivery here.now)) s bytes.now) self.new) }
        ensures unwritten { OnErr result (out.new.items ≡ out.old.items) }
        ensures lost { (q : Place) (s : plain.Server) → IsServer q s self.old → OnErr result (IsCutOff q s
            (after_offer (is_valid (scheme_in scheme)) q (payloads_of (map delivery here.now)) s bytes.now) self.new) }
    {
        reserve_offered(out)?;
        let holds = self.replies.holds();
        let offered = self.giving.offer(alloc, &scheme, holds, bytes)?;
        self.settle(alloc, here, offered)?;
        self.giving.append_offered(out, offered);
        Ok(())
    }

    // Does what a word asks for.
    #[tactic(auto, unfolding(store_defs::specs::Services::worded))]
    fn answer(
        &mut self,
        alloc: Global,
        scheme: AnyScheme,
        here: &[Delivered],
        word: &Word,
        out: &mut Vec<u8>,
    ) -> Result<(), NoMemory>
        ensures written { (q : Place) (s : plain.Server) → IsServer q s self.old → OnOk result (out.new.items
            ≡ out.old.items ++ (worded (is_valid (scheme_in scheme)) q (payloads_of (map delivery here.now)) s (word_of word.now)).0) }
        ensures after { (q : Place) (s : plain.Server) → IsServer q s self.old → OnOk result (IsServer q
            (worded (is_valid (scheme_in scheme)) q (payloads_of (map delivery here.now)) s (word_of word.now)).1 self.new) }
        ensures unwritten { OnErr result (out.new.items ≡ out.old.items) }
        ensures lost { (q : Place) (s : plain.Server) → IsServer q s self.old → OnErr result (IsCutOff q s
            (worded (is_valid (scheme_in scheme)) q (payloads_of (map delivery here.now)) s (word_of word.now)).1 self.new) }
    {
        match word {
            Word::Give => self.giving.give(alloc, out),
            Word::State(bytes) => self.offer(alloc, scheme, here, bytes, out),
            Word::StateKey { process, key } => {
                self.giving.hand(*process, *key);
                Ok(())
            }
        }
    }

    /// Does what a line of a script asks of the server, in a group of this scheme and roster, and appends what is written then; `reported` is
    /// what the process reports of itself. False where the line has no word for a server; nothing has changed then.
    ///
    /// # Errors
    /// [`NoMemory`] where room for a state, for what is signed, for the store or for the line is refused. Nothing is appended then, and
    /// either nothing has changed, or the state is counted, and a store that it makes ready is not taken over.
    #[tactic(auto, unfolding(store_defs::specs::Services::line_worded))]
    pub fn word(
        &mut self,
        alloc: Global,
        scheme: AnyScheme,
        roster: &Roster,
        reported: &Account,
        line: &[u8],
        out: &mut Vec<u8>,
    ) -> Result<bool, NoMemory>
        ensures heard { (kit : Kit) (p : process.Process) (q : Place) (s : plain.Server)
            → kit.scheme ≡ scheme_in scheme → kit.keys ≡ roster.now → account_of p ≡ account reported.now → IsServer q s self.old
            → IfOk result (λ heard. IsHeard q s out.old.items out.new.items self.new heard
            (line_worded kit q (payloads_of p.delivered) s line.now)) }
        ensures unwritten { OnErr result (out.new.items ≡ out.old.items) }
        ensures lost { (kit : Kit) (p : process.Process) (q : Place) (s : plain.Server)
            → kit.scheme ≡ scheme_in scheme → kit.keys ≡ roster.now → account_of p ≡ account reported.now → IsServer q s self.old
            → OnErr result (IsCutOffAt q s self.new (line_worded kit q (payloads_of p.delivered) s line.now)) }
    {
        let Some(word) = read_word(alloc, scheme, roster, line)? else {
            return Ok(false);
        };
        self.answer(alloc, scheme, last_of(&reported.delivered), &word, out)?;
        Ok(true)
    }
}
