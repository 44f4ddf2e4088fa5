ghost use Rattle.std.specs.Prelude.{◌≡◌, ◌++◌, List, OnOk, OnErr};
ghost use Rattle.std.specs.List.{flat_map};
ghost use Rattle.store_defs.specs.Services.{keys_text};
ghost use Rattle.store_defs.specs.Words.{most_state_line_bytes, reply_key_text, state_key_text};
ghost use Rattle.store_defs.specs.Serving.{Place};
ghost use Rattle.store_giving.specs.Given.{giver_in, state_key_in};
ghost use Rattle.store_replies.specs.Replying.{key_in, me_in};
ghost use Rattle.store_server.specs.Serving.{AreServers, Begins};

use store_giving::Giving;
use store_replies::{NoMemory, Pid, Replies};

/// The server of one hosted process: what it replies, and what it gives. `IsServer` of the specs says that it keeps what the
/// definitions' server keeps.
#[derive(Drop)]
pub struct Server {
    pub(crate) replies: Replies,
    pub(crate) giving: Giving,
}

/// How many bytes a line of a script may have that says something to a server: 8,388,608.
#[tactic(auto, unfolding(store_defs::specs::Words::most_state_line_bytes))]
pub fn longest() -> usize
    ensures { result ≡ most_state_line_bytes }
{
    8_388_608
}

// Appends the keys of the replies of these servers.
fn push_reply_keys(servers: &[Server], out: &mut Vec<u8>) -> Result<(), NoMemory>
    ensures pushed { OnOk result (out.new.items
        ≡ out.old.items ++ flat_map (λ x. reply_key_text (me_in x.replies) (key_in x.replies).public) servers.now) }
    ensures begun { OnErr result (Begins out.old.items out.new.items) }
{
    'servers: for server in servers {
        server.replies.push_key(out)?;
    }
    Ok(())
}

// Appends the keys of the states of these servers.
fn push_state_keys(servers: &[Server], out: &mut Vec<u8>) -> Result<(), NoMemory>
    ensures pushed { OnOk result (out.new.items
        ≡ out.old.items ++ flat_map (λ x. state_key_text (giver_in x.giving) (state_key_in x.giving).public) servers.now) }
    ensures begun { OnErr result (Begins out.old.items out.new.items) }
{
    'servers: for server in servers {
        server.giving.push_key(out)?;
    }
    Ok(())
}

// Appends all keys.
fn push_all(servers: &[Server], out: &mut Vec<u8>) -> Result<(), NoMemory>
    ensures pushed { (qs : List Place) → AreServers qs servers.now → OnOk result (out.new.items ≡ out.old.items ++ keys_text qs) }
    ensures begun { OnErr result (Begins out.old.items out.new.items) }
{
    push_reply_keys(servers, out)?;
    push_state_keys(servers, out)
}

/// Appends the public keys of these servers, a line each: those of their replies first, and then those of their states. They are servers of
/// these places, in order.
///
/// # Errors
/// [`NoMemory`] where room for a line is refused; nothing is appended then.
pub fn push_keys(servers: &[Server], out: &mut Vec<u8>) -> Result<(), NoMemory>
    ensures pushed { (qs : List Place) → AreServers qs servers.now → OnOk result (out.new.items ≡ out.old.items ++ keys_text qs) }
    ensures unchanged { OnErr result (out.new.items ≡ out.old.items) }
{
    let start = out.len();
    let pushed = push_all(servers, out);
    if pushed.is_err() {
        out.truncate(start);
    }
    pushed
}

impl Server {
    /// Whose server it is.
    pub fn me(&self) -> Pid
        ensures { result ≡ me_in self.now.replies }
    {
        self.replies.me()
    }
}
