//! A line of the script that is for the service.
ghost use Rattle.std.specs.Prelude.{◌≡◌, ◌≤◌, ◌∷◌, ◌++◌, [], ℕ, List, length, All, IfErr, IfOk, None, OnErr, OnOk, IsTrue};
ghost use Rattle.std.specs.Str.{is_utf8};
ghost use Rattle.byte_defs.specs.Members.{has};
ghost use Rattle.kit_defs.specs.Kits.{IsKit};
ghost use Rattle.group_defs.specs.Process.{Process};
ghost use Rattle.journal_defs.specs.declared.Version.{Version};
ghost use Rattle.node_defs.specs.Casts.{cast_of};
ghost use Rattle.node_defs.specs.Nodes as nodes;
ghost use Rattle.node_defs.specs.Nodes.{Node, Snapper, Task, Word, Words};
ghost use Rattle.node_traces.specs.Goes.{Goes};
ghost use Rattle.node_traces.specs.Outside.{LinkSeen, SourceSeen};
ghost use Rattle.node_traces.specs.Seen.{link_seen, sink_seen};
ghost use Rattle.node_traces.specs.Service.{Asked, HeardBy, one_asked};
ghost use Rattle.letting_laws.specs.Letting.{edge, HasBegun, LetOut, sends_of};
ghost use Rattle.script_laws.specs.Script.{StopsWith};
ghost use Rattle.node_receiving.specs.Service.{CanBeSent, letters_in};
ghost use Rattle.node_receiving.specs.Hosts.{AreHosts, IsAt, numbers_of};
ghost use Rattle.node_receiving.specs.Stops.{stop as stop_of};
ghost use Rattle.node_receiving.specs.Taking.{HasDiskCause, outside};
ghost use Rattle.node_receiving.specs.Turns.{HasHosts};
ghost use Rattle.node_serving.specs.Serving.{HasNoAnswer};

use node_receiving::{Running, Sending, Service, Speaker, Stop, let_frames_out, say};
use rp_base::{Link, NoMemory, Pid, Sink};
use std::alloc::Global;

/// What the service answers to a line.
#[derive(Drop)]
struct Reply {
    text: Vec<u8>,
    sends: Vec<Sending>,
}

// Hands the line to the service. It is text: else it is none of the script.
fn hear<V: Service>(
    alloc: Global,
    running: &Running<'_>,
    me: Pid,
    line: &[u8],
    number: u64,
    service: &mut V,
) -> Result<Reply, Stop>
    requires hosts { HasHosts running.now.kit.now running.now.hosts }
    requires hosted { IsTrue (has (numbers_of running.now.hosts) me) }
    requires text { IsTrue (is_utf8 line.now) }
    ensures says { (version : Version) (now : ℕ → Process) (h : List Asked) → V.heard service.old h
        → AreHosts (cast_of running.now.kit.now version) running.now.kit.now now None running.now.hosts
        → IfOk result (λ reply. V.heard service.new
        (h ++ one_asked (cast_of running.now.kit.now version) (now me ∷ []) (Words me line.now)
        (nodes.Said reply.text.items (letters_in reply.sends.items)))) }
    ensures can { (version : Version) (now : ℕ → Process)
        → AreHosts (cast_of running.now.kit.now version) running.now.kit.now now None running.now.hosts
        → IfOk result (λ reply. All (CanBeSent (cast_of running.now.kit.now version) me) (letters_in reply.sends.items)) }
    ensures none { (version : Version) (now : ℕ → Process) (h : List Asked) → V.heard service.old h
        → AreHosts (cast_of running.now.kit.now version) running.now.kit.now now None running.now.hosts
        → IfErr result (λ why. HasNoAnswer V.heard service.new h (cast_of running.now.kit.now version) (now me) me line.now number
        (stop_of why)) }
    ensures cause { (faults : ℕ) → HasDiskCause faults faults result }
{
    let Ok(text) = std::str::from_utf8(line) else {
        unreachable!();
    };
    let Some(host) = running.hosts.host(me) else {
        unreachable!();
    };
    let mut said = Vec::new(alloc);
    let mut sends = Vec::new(alloc);
    match service.word(running.kit, &host.process, text, &mut said, &mut sends) {
        Ok(true) => Ok(Reply { text: said, sends }),
        Ok(false) => Err(Stop::BadLine(number)),
        Err(NoMemory) => Err(Stop::NoMemory),
    }
}

// Seals and sends what the service has this process send, and answers the lines of failed sends.
fn post<L: Link>(
    alloc: Global,
    running: &Running<'_>,
    me: Pid,
    sends: &[Sending],
    link: &mut L,
    room: &mut [u8],
) -> Result<Vec<u8>, NoMemory>
    requires hosts { HasHosts running.now.kit.now running.now.hosts }
    requires hosted { IsTrue (has (numbers_of running.now.hosts) me) }
    requires can { (version : Version) → All (CanBeSent (cast_of running.now.kit.now version) me) (letters_in sends.now) }
    requires room { 61054 ≤ length room.old }
    ensures out { (version : Version) (at : ℕ → Process) (h : List Asked) → IfOk result (λ late. LetOut (cast_of running.now.kit.now version) at
        (sends_of me (letters_in sends.now)) (edge (link_seen L.sent L.coming L.faults link.old) [] [] h)
        (edge (link_seen L.sent L.coming L.faults link.new) [] late.items h)) }
    ensures begun { (version : Version) (at : ℕ → Process) (h : List Asked) → OnErr result (HasBegun (cast_of running.now.kit.now version) at
        (sends_of me (letters_in sends.now)) (link_seen L.sent L.coming L.faults link.old) h
        (link_seen L.sent L.coming L.faults link.new) h) }
{
    let Some(host) = running.hosts.host(me) else {
        unreachable!();
    };
    let speaker = Speaker {
        me,
        kit: running.kit,
        keys: &host.keys,
    };
    let mut late = Vec::new(alloc);
    let out = let_frames_out(&speaker, sends, link, room, &mut late);

    // A speaker is not let go, but taken apart.
    let Speaker {
        me: _me,
        kit: _kit,
        keys: _keys,
    } = speaker;
    out?;
    Ok(late)
}

/// A line for the service, which has this number: what it says is written, what it sends is sealed and sent, and then the lines of failed
/// sends are written. The room has at least 61,054 bytes.
///
/// # Errors
/// `BadLine` where the service has no such line; `NoMemory`; `WriteFailed`.
pub fn serve<L: Link, K: Sink, V: Service>(
    alloc: Global,
    running: &Running<'_>,
    me: Pid,
    line: &[u8],
    number: u64,
    link: &mut L,
    output: &mut K,
    room: &mut [u8],
    service: &mut V,
) -> Result<(), Stop>
    requires hosts { HasHosts running.now.kit.now running.now.hosts }
    requires hosted { IsTrue (has (numbers_of running.now.hosts) me) }
    requires text { IsTrue (is_utf8 line.now) }
    requires room { 61054 ≤ length room.old }
    ensures serves { (version : Version) (snap : Snapper) (most : ℕ) (source : SourceSeen) (h : List Asked) (n : Node) (ts : List Task)
        → V.heard service.old h → AreHosts (cast_of running.now.kit.now version) running.now.kit.now n.now None running.now.hosts
        → IsAt n (Word me line.now ∷ ts)
        → OnOk result (HeardBy V.heard service.new (λ i. Goes (cast_of running.now.kit.now version) snap most n
        (outside (link_seen L.sent L.coming L.faults link.old) (sink_seen K.written K.faults output.old) source h)
        (record n { tasks = ts })
        (outside (link_seen L.sent L.coming L.faults link.new) (sink_seen K.written K.faults output.new) source i))) }
    ensures stops { (version : Version) (snap : Snapper) (most : ℕ) (source : SourceSeen) (h : List Asked) (n : Node) (ts : List Task)
        → V.heard service.old h → AreHosts (cast_of running.now.kit.now version) running.now.kit.now n.now None running.now.hosts
        → IsAt n (Word me line.now ∷ ts) → n.lines ≡ number
        → IfErr result (λ why. HeardBy V.heard service.new (λ i. StopsWith (cast_of running.now.kit.now version) snap most n
        (outside (link_seen L.sent L.coming L.faults link.old) (sink_seen K.written K.faults output.old) source h) (stop_of why)
        (outside (link_seen L.sent L.coming L.faults link.new) (sink_seen K.written K.faults output.new) source i))) }

    // The disk is not to blame.
    ensures cause { (faults : ℕ) → HasDiskCause faults faults result }
{
    let reply = hear(alloc, running, me, line, number, service)?;
    say(output, reply.text.as_slice())?;
    let late = post(alloc, running, me, reply.sends.as_slice(), link, room)?;
    say(output, late.as_slice())
}
