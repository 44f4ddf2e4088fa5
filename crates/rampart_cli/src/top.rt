ghost use Rattle.std.specs.Prelude.{◌≡◌, ◌≢◌, ◌↔◌, ◌⊎◌, [], ℕ, Bool, List, codes, None, IsOk, IsErr, IsSomeAnd};
ghost use Rattle.std.specs.Io.KnownBytes.{Appends, Consumes, Keeps};
ghost use Rattle.rp_base.specs.Causes.{Rose};
ghost use Rattle.replay_defs.specs.Reports.{report_of};
ghost use Rattle.chain_laws.specs.Reported.{AnswerReports};
ghost use Rattle.chain_words.specs.Running as chains;
ghost use Rattle.chain_words.specs.Running.{Answered, HasStatus, ShownAndSays, ShownInPart, SomeShown};
ghost use Rattle.audit_words.specs.Running as audits;
ghost use Rattle.audit_words.specs.Running.{HasFindings, HasNoFindings, Unfound};
ghost use Rattle.store_asking.specs.Answers as answers;
ghost use Rattle.store_asking.specs.Answers.{AnsweredInPart, AsksNothing};
ghost use Rattle.command_line.specs.Commands.{KitOrder, Replay, Chain, Gen, Keygen, Node, Resume, Guard, Serve, Ask, Audit};
ghost use Rattle.guarding_laws.specs.Laws.{AreOfGuards};
ghost use Rattle.store_defs.specs.Words.{most_state_line_bytes};
ghost use Rattle.serve_laws.specs.Laws.{ServesStore};
ghost use Rattle.node_defs.specs.Lives.{Found};
ghost use Rattle.node_traces.specs.Seen.{link_seen, sink_seen, source_seen};
ghost use Rattle.node_loop.specs.Ended.{HasEndedAlone, SaysLast};
ghost use Rattle.node_loop.specs.Inputs.{TellInOrder, TellInOrderResuming, most_line_bytes};
ghost use Rattle.rp_base.specs.Streams.{AppendsPrefix, WritesLine};
ghost use Rattle.replay_words.specs.Answers.{Reported, ReportedInPart, Stopped, kit_of_order, schedule_of_number};
ghost use Rattle.rampart_cli.specs.Hosts.{HasEndedWith, HasResumedAlone};
ghost use Rattle.rampart_cli.specs.Reported.{AskReports};
ghost use Rattle.rampart_cli.specs.Top.{Asks, AskAny, AskAudit, AskHost};

use crate::asking::run_ask;
use audit_words::run_audit;
use chain_words::chain;
use command_line::{Command, listed_in, read_command};
use node_loop::{NoService, host, resume_host};
use replay_words::{Stop, run_gen, run_keygen, run_replay, tell};
use rp_base::{Disk, Link, Sink, Source};
use serve_laws::Servers;
use std::alloc::Global;

/// The name of the file that is a node's journal: the word after `node`, `resume`, `guard` or `serve`, and empty where the words ask for
/// none of these.
pub fn journal_name(words: &[String]) -> &str
    ensures node { (file : List ℕ) → Asks words.now (Node file) → result.now ≡ file }
    ensures resume { (file : List ℕ) → Asks words.now (Resume file) → result.now ≡ file }
    ensures guard { (file : List ℕ) → Asks words.now (Guard file) → result.now ≡ file }
    ensures serve { (file : List ℕ) → Asks words.now (Serve file) → result.now ≡ file }
    ensures other { ¬ AskHost words.now → result.now ≡ [] }
{
    match read_command(words) {
        Some(Command::Node(file)) => file,
        Some(Command::Resume(file)) => file,
        Some(Command::Guard(file)) => file,
        Some(Command::Serve(file)) => file,
        _ => "",
    }
}

/// The whole program: `words` are those after the program's name, and the answer is the status that it ends with.
pub fn rampart<S: Source, K: Sink, D: Disk, L: Link>(
    alloc: Global,
    words: &[String],
    input: &mut S,
    output: &mut K,
    disk: &mut D,
    link: &mut L,
) -> u8
    // replay, 0: a schedule was read to its end, and the report of its own family was written, long or short, and nothing else; and the
    // headline holds of this family.
    ensures done { (short : Bool) → Asks words.now (Replay short) → result ≡ 0
        → Reported short (S.left input.old) (S.left input.new) (K.written output.old) (K.written output.new) }

    // gen, 0: the schedule that the number makes was written, and nothing else.
    ensures generated { (number : ℕ) → Asks words.now (Gen number) → result ≡ 0
        → Appends (K.written output.old) (K.written output.new) (schedule_of_number number) }

    // keygen, 0: the text of the kit that the words order was written with the line that ends it, and nothing else.
    ensures made { (order : KitOrder) → Asks words.now (Keygen order) → result ≡ 0
        → Appends (K.written output.old) (K.written output.new) (kit_of_order order) }

    // chain, 0: the input was read to its end, and each proof in it shows a view; the line of each view was written, and nothing else.
    ensures shown { Asks words.now Chain → result ≡ 0
        → Answered (S.left input.old) (S.left input.new) (K.written output.old) (K.written output.new) }

    // ask, 0: the input was read to its end, and the line of what enough members of its view answered to the payload, in valid replies, or that
    // there is no such answer, was written, and nothing else.
    ensures answered { (payload : List ℕ) → Asks words.now (Ask payload) → result ≡ 0
        → answers.Answered payload (S.left input.old) (S.left input.new) (K.written output.old) (K.written output.new) }

    // node, whatever the status: what was done is a run of the node of the definitions, up to a stop with this status, and then the stop's
    // line. Whatever its service was asked was answered with nothing: it says nothing, names nobody and has no line.
    ensures ended { (file : List ℕ) → Asks words.now (Node file) → (f : Found)
        → HasEndedAlone D.seen D.may_leave D.moment D.left_since f (source_seen S.left S.faults input.old)
        (link_seen L.sent L.coming L.faults link.old) (sink_seen K.written K.faults output.old) disk.old (S.left input.new) (S.faults input.new)
        (link_seen L.sent L.coming L.faults link.new) (sink_seen K.written K.faults output.new) disk.new result }

    // resume, whatever the status: there was no kit, or the line after it is no snapshot by which the kit's node may begin, and nothing else was
    // touched; or what was done is a run of the node of the definitions that begins by this snapshot, at its place of the journal, with the
    // processes of its images and its counts of entries, up to a stop with this status. And then comes the stop's line. It has no service.
    ensures ended_resume { (file : List ℕ) → Asks words.now (Resume file) → (f : Found)
        → HasResumedAlone D.seen D.may_leave D.moment D.left_since f (source_seen S.left S.faults input.old)
        (link_seen L.sent L.coming L.faults link.old) (sink_seen K.written K.faults output.old) disk.old (S.left input.new) (S.faults input.new)
        (link_seen L.sent L.coming L.faults link.new) (sink_seen K.written K.faults output.new) disk.new result }

    // guard, whatever the status: as by node, but its service answered each of these calls as a guard does: after a frame it names whom the
    // frame shows and its process may expel, and by a line of its own a process sends the others what convicts one. So each hosted process is a
    // guard of the definitions: if it was one by the entries that the run found, it is one by those that the journal holds then.
    ensures ended_guard { (file : List ℕ) → Asks words.now (Guard file) → (f : Found)
        → HasEndedWith AreOfGuards D.seen D.may_leave D.moment D.left_since most_line_bytes f (source_seen S.left S.faults input.old)
        (link_seen L.sent L.coming L.faults link.old) (sink_seen K.written K.faults output.old) disk.old (S.left input.new) (S.faults input.new)
        (link_seen L.sent L.coming L.faults link.new) (sink_seen K.written K.faults output.new) disk.new result }

    // serve, whatever the status: the same, but its service answered each of these calls as the servers of a store do, one for each hosted
    // process: they write a reply after each message, and answer lines of their own. Their lines may be longer. So for each correct process
    // of a family the laws of the store hold (`StoreLaws`): a reply is the store's answer, a leaf signs one body,
    // and a joiner has the store of the group.
    ensures ended_serve { (file : List ℕ) → Asks words.now (Serve file) → (f : Found)
        → HasEndedWith ServesStore D.seen D.may_leave D.moment D.left_since most_state_line_bytes f
        (source_seen S.left S.faults input.old)
        (link_seen L.sent L.coming L.faults link.old) (sink_seen K.written K.faults output.old) disk.old (S.left input.new) (S.faults input.new)
        (link_seen L.sent L.coming L.faults link.new) (sink_seen K.written K.faults output.new) disk.new result }

    // audit, 0: the input was read to its end, and the line of what an audit of it finds was written, and nothing else. Findings that are
    // honest and bounded agree and are sound.
    ensures audited { (listed : List ℕ) → Asks words.now (Audit listed) → result ≡ 0
        → audits.Found listed (S.left input.old) (S.left input.new) (K.written output.old) (K.written output.new) }

    // 0: no read and no write failed.
    ensures steady { result ≡ 0
        → (S.faults input.new ≡ S.faults input.old) × (K.faults output.new ≡ K.faults output.old) }

    // 1: no memory is left, or chain has read 2^64 - 2 lines; nothing was written, but by chain the lines of views, and by a node its lines. No
    // clause says when memory is left: a body that answered 1 always, or for inputs of its choice, would meet this contract, and tests show
    // otherwise of their inputs (docs/TESTED.md).
    ensures silent { ¬ Asks words.now Chain → ¬ AskHost words.now → result ≡ 1 → Keeps (K.written output.old) (K.written output.new) }
    ensures some { Asks words.now Chain → result ≡ 1
        → SomeShown (S.left input.old) (S.left input.new) (K.written output.old) (K.written output.new) }

    // 2: exactly where the words are no command; nothing was read.
    ensures words { (result ≡ 2) ↔ (¬ AskAny words.now) }
    ensures asked { result ≢ 2 → AskAny words.now }
    ensures unread { result ≡ 2 → input.new ≡ input.old }
    ensures words_line { result ≡ 2 → WritesLine (codes "stop 2 words\n")
        (K.written output.old) (K.written output.new) (K.faults output.old) (K.faults output.new) }

    // 3: only where the source failed. The line that says so was written and nothing else, but by chain the lines of views before it, and by
    // a node its lines.
    ensures read { result ≡ 3 → Rose (S.faults input.old) (S.faults input.new) }
    ensures read_line { ¬ Asks words.now Chain → ¬ AskHost words.now → result ≡ 3 → WritesLine (codes "stop 3 read\n")
        (K.written output.old) (K.written output.new) (K.faults output.old) (K.faults output.new) }
    ensures read_behind_views { Asks words.now Chain → result ≡ 3
        → ShownAndSays (codes "stop 3 read\n") (S.left input.old) (S.left input.new)
        (K.written output.old) (K.written output.new) (K.faults output.old) (K.faults output.new) }

    // 4: only where the sink failed; a prefix of the report, of the schedule, of the kit's text, of the lines of views or of the line of the
    // answer or the findings was written and nothing else, or lines of a node and a prefix of one text more.
    ensures write { result ≡ 4 → Rose (K.faults output.old) (K.faults output.new) }
    ensures part { (short : Bool) → Asks words.now (Replay short) → result ≡ 4
        → ReportedInPart short (S.left input.old) (S.left input.new) (K.written output.old) (K.written output.new) }
    ensures part_of_schedule { (number : ℕ) → Asks words.now (Gen number) → result ≡ 4
        → AppendsPrefix (K.written output.old) (K.written output.new) (schedule_of_number number) }
    ensures part_of_kit { (order : KitOrder) → Asks words.now (Keygen order) → result ≡ 4
        → AppendsPrefix (K.written output.old) (K.written output.new) (kit_of_order order) }
    ensures part_of_chain { Asks words.now Chain → result ≡ 4
        → ShownInPart (S.left input.old) (S.left input.new) (K.written output.old) (K.written output.new) }
    ensures part_of_answer { (payload : List ℕ) → Asks words.now (Ask payload) → result ≡ 4
        → AnsweredInPart payload (S.left input.old) (S.left input.new) (K.written output.old) (K.written output.new) }
    ensures part_of_findings { (listed : List ℕ) → Asks words.now (Audit listed) → result ≡ 4
        → audits.FoundInPart listed (S.left input.old) (S.left input.new) (K.written output.old) (K.written output.new) }

    // But for 1, each read and each call of the disk that fails ends the run with its own status.
    ensures no_read { result ≢ 1 → result ≢ 3 → S.faults input.new ≡ S.faults input.old }
    ensures no_disk { result ≢ 1 → result ≢ 5 → D.faults disk.new ≡ D.faults disk.old }

    // 5, 6: only where a call of the disk or a bind failed; at 6 nothing was sent, and nothing written but the line that says so.
    ensures kept { result ≡ 5 → Rose (D.faults disk.old) (D.faults disk.new) }
    ensures bound { result ≡ 6 → Rose (L.faults link.old) (L.faults link.new) }
    ensures untold { result ≡ 6 → (L.sent link.new ≡ L.sent link.old)
        × SaysLast (codes "stop 6 link\n") (sink_seen K.written K.faults output.old) (sink_seen K.written K.faults output.new) }

    // 7: what was read has no report, long or short, and the line says why. By chain: it has a fault, and the lines of the views before
    // the fault were written, and then its own. By ask: it has a fault, whatever comes after it, and the line says which. By a node: its kit
    // has one, the line after that is no snapshot for it, or a line of its script is none.
    ensures input { (short : Bool) → Asks words.now (Replay short) → result ≡ 7 → Stopped (S.left input.old) (S.left input.new)
        (K.written output.old) (K.written output.new) (K.faults output.old) (K.faults output.new) }
    ensures fault { Asks words.now Chain → result ≡ 7 → chains.Refused (S.left input.old) (S.left input.new)
        (K.written output.old) (K.written output.new) (K.faults output.old) (K.faults output.new) }

    ensures unasked { (payload : List ℕ) → Asks words.now (Ask payload) → result ≡ 7 → answers.Refused (S.left input.old) (S.left input.new)
        (K.written output.old) (K.written output.new) (K.faults output.old) (K.faults output.new) }

    // audit, 7 and 8: what was read has no findings, whatever comes after it, for a reason of this status: 7 where a line is faulty or a listed
    // process is not hosted by exactly one journal, 8 where a journal is refused. The line that says why was written and nothing else.
    ensures audit_stops { (listed : List ℕ) → Asks words.now (Audit listed) → (result ≡ 7) ⊎ (result ≡ 8)
        → Unfound listed result (S.left input.old) (S.left input.new)
        (K.written output.old) (K.written output.new) (K.faults output.old) (K.faults output.new) }

    // replay: an input with a report gives 0, and other input 7, where memory is left and nothing failed. No status but 0, 1, 3, 4 and 7
    // comes.
    ensures completes { (short : Bool) → Asks words.now (Replay short)
        → IsSomeAnd (S.left input.old) (λ reported. IsOk (report_of short reported))
        → ¬ Rose (S.faults input.old) (S.faults input.new) → ¬ Rose (K.faults output.old) (K.faults output.new)
        → (result ≡ 0) ⊎ (result ≡ 1) }
    ensures refuses { (short : Bool) → Asks words.now (Replay short)
        → IsSomeAnd (S.left input.old) (λ reported. IsErr (report_of short reported))
        → ¬ Rose (S.faults input.old) (S.faults input.new)
        → (result ≡ 7) ⊎ (result ≡ 1) }
    ensures only_replayed { (short : Bool) → Asks words.now (Replay short)
        → (result ≡ 0) ⊎ (result ≡ 1) ⊎ (result ≡ 3) ⊎ (result ≡ 4) ⊎ (result ≡ 7) }

    // gen: 0 where memory is left and nothing failed. It reads nothing, and no status but 0, 1 and 4 comes.
    ensures generates { (number : ℕ) → Asks words.now (Gen number)
        → ¬ Rose (K.faults output.old) (K.faults output.new) → (result ≡ 0) ⊎ (result ≡ 1) }
    ensures leaves_input { (number : ℕ) → Asks words.now (Gen number) → input.new ≡ input.old }
    ensures only_generated { (number : ℕ) → Asks words.now (Gen number) → (result ≡ 0) ⊎ (result ≡ 1) ⊎ (result ≡ 4) }

    // keygen: 0 where memory is left and nothing failed. It reads nothing, and no status but 0, 1 and 4 comes.
    ensures makes { (order : KitOrder) → Asks words.now (Keygen order)
        → ¬ Rose (K.faults output.old) (K.faults output.new) → (result ≡ 0) ⊎ (result ≡ 1) }
    ensures reads_nothing { (order : KitOrder) → Asks words.now (Keygen order) → input.new ≡ input.old }
    ensures only_made { (order : KitOrder) → Asks words.now (Keygen order) → (result ≡ 0) ⊎ (result ≡ 1) ⊎ (result ≡ 4) }

    // chain: an input whose answer has status 0 gives 0, and one whose answer has status 7 gives 7, where memory is left and nothing failed.
    // No status but 0, 1, 3, 4 and 7 comes.
    ensures shows { Asks words.now Chain → HasStatus 0 (S.left input.old)
        → ¬ Rose (S.faults input.old) (S.faults input.new) → ¬ Rose (K.faults output.old) (K.faults output.new)
        → (result ≡ 0) ⊎ (result ≡ 1) }
    ensures breaks { Asks words.now Chain → HasStatus 7 (S.left input.old)
        → ¬ Rose (S.faults input.old) (S.faults input.new) → ¬ Rose (K.faults output.old) (K.faults output.new)
        → (result ≡ 7) ⊎ (result ≡ 1) }
    ensures only_shown { Asks words.now Chain
        → (result ≡ 0) ⊎ (result ≡ 1) ⊎ (result ≡ 3) ⊎ (result ≡ 4) ⊎ (result ≡ 7) }

    // chain, whatever the status: the answer to what was read; all of it or its beginning was written. Where a kit was read, it is the
    // line of each view of a chain and at most one line more; and these are the views of the group, where the proofs quote its correct
    // processes truly.
    ensures views { Asks words.now Chain → (read : List ℕ) → Consumes (S.left input.old) (S.left input.new) read → AnswerReports read }

    // ask: an input that has a question gives 0, and one that has a fault gives 7, where memory is left and nothing failed. No status but
    // 0, 1, 3, 4 and 7 comes.
    ensures ask_completes { (payload : List ℕ) → Asks words.now (Ask payload) → answers.Asks (S.left input.old)
        → ¬ Rose (S.faults input.old) (S.faults input.new) → ¬ Rose (K.faults output.old) (K.faults output.new)
        → (result ≡ 0) ⊎ (result ≡ 1) }
    ensures ask_refuses { (payload : List ℕ) → Asks words.now (Ask payload) → AsksNothing (S.left input.old)
        → ¬ Rose (S.faults input.old) (S.faults input.new)
        → (result ≡ 7) ⊎ (result ≡ 1) }
    ensures only_answered { (payload : List ℕ) → Asks words.now (Ask payload)
        → (result ≡ 0) ⊎ (result ≡ 1) ⊎ (result ≡ 3) ⊎ (result ≡ 4) ⊎ (result ≡ 7) }

    // ask, whatever the status: the answer to what was read. Where that has a question, it is an answer exactly where more than f members
    // of the view gave one in valid replies; and this is the store's, where a correct process installed the view and the valid replies of
    // correct processes are their own.
    ensures accepted { (payload : List ℕ) → Asks words.now (Ask payload)
        → (read : List ℕ) → Consumes (S.left input.old) (S.left input.new) read → AskReports payload read }

    // audit: an input with findings gives 0, and one without them gives the status of the reason, where memory is left and nothing failed.
    // No status but 0, 1, 3, 4, 7 and 8 comes.
    ensures audit_completes { (listed : List ℕ) → Asks words.now (Audit listed) → HasFindings listed (S.left input.old)
        → ¬ Rose (S.faults input.old) (S.faults input.new) → ¬ Rose (K.faults output.old) (K.faults output.new)
        → (result ≡ 0) ⊎ (result ≡ 1) }
    ensures audit_refuses { (listed : List ℕ) (status : ℕ) → Asks words.now (Audit listed) → HasNoFindings listed status (S.left input.old)
        → ¬ Rose (S.faults input.old) (S.faults input.new)
        → (result ≡ status) ⊎ (result ≡ 1) }
    ensures only_audited { (listed : List ℕ) → Asks words.now (Audit listed)
        → (result ≡ 0) ⊎ (result ≡ 1) ⊎ (result ≡ 3) ⊎ (result ≡ 4) ⊎ (result ≡ 7) ⊎ (result ≡ 8) }

    // node, guard, serve: an input in the node's own words and a journal in order give 0, where memory and room are left and nothing
    // failed; a send or receive that fails changes no status. resume: the same of an input with a snapshot after its kit, and a journal that
    // is in order from the snapshot's place on.
    ensures hosts { (file : List ℕ) → Asks words.now (Node file) → TellInOrder most_line_bytes (S.left input.old) (D.seen disk.old)
        → ¬ Rose (S.faults input.old) (S.faults input.new) → ¬ Rose (K.faults output.old) (K.faults output.new)
        → ¬ Rose (D.faults disk.old) (D.faults disk.new) → (result ≡ 0) ⊎ (result ≡ 1) ⊎ (result ≡ 6) ⊎ (result ≡ 9) }
    ensures hosts_resume { (file : List ℕ) → Asks words.now (Resume file)
        → TellInOrderResuming most_line_bytes (S.left input.old) (D.seen disk.old)
        → ¬ Rose (S.faults input.old) (S.faults input.new) → ¬ Rose (K.faults output.old) (K.faults output.new)
        → ¬ Rose (D.faults disk.old) (D.faults disk.new) → (result ≡ 0) ⊎ (result ≡ 1) ⊎ (result ≡ 6) ⊎ (result ≡ 9) }
    ensures hosts_guard { (file : List ℕ) → Asks words.now (Guard file) → TellInOrder most_line_bytes (S.left input.old) (D.seen disk.old)
        → ¬ Rose (S.faults input.old) (S.faults input.new) → ¬ Rose (K.faults output.old) (K.faults output.new)
        → ¬ Rose (D.faults disk.old) (D.faults disk.new) → (result ≡ 0) ⊎ (result ≡ 1) ⊎ (result ≡ 6) ⊎ (result ≡ 9) }
    ensures hosts_serve { (file : List ℕ) → Asks words.now (Serve file) → TellInOrder most_state_line_bytes (S.left input.old) (D.seen disk.old)
        → ¬ Rose (S.faults input.old) (S.faults input.new) → ¬ Rose (K.faults output.old) (K.faults output.new)
        → ¬ Rose (D.faults disk.old) (D.faults disk.new) → (result ≡ 0) ⊎ (result ≡ 1) ⊎ (result ≡ 6) ⊎ (result ≡ 9) }

    // No other status comes, 5, 6 and 9 only by node, resume, guard and serve, and 8 only by these and audit; and by other words neither disk nor link
    // is touched.
    ensures only { (result ≡ 0) ⊎ (result ≡ 1) ⊎ (result ≡ 2) ⊎ (result ≡ 3) ⊎ (result ≡ 4) ⊎ (result ≡ 5) ⊎ (result ≡ 6) ⊎ (result ≡ 7)
        ⊎ (result ≡ 8) ⊎ (result ≡ 9) }
    ensures by_host { (result ≡ 5) ⊎ (result ≡ 6) ⊎ (result ≡ 9) → AskHost words.now }
    ensures of_journals { result ≡ 8 → AskHost words.now ⊎ AskAudit words.now }
    ensures disk { ¬ AskHost words.now → disk.new ≡ disk.old }
    ensures link { ¬ AskHost words.now → link.new ≡ link.old }
{
    match read_command(words) {
        Some(Command::Replay { short }) => run_replay(alloc, short, input, output),
        Some(Command::Chain) => chain(alloc, input, output),
        Some(Command::Gen(number)) => run_gen(alloc, number, output),
        Some(Command::Keygen(ordered)) => run_keygen(alloc, &ordered, output),
        Some(Command::Ask(_)) => run_ask(alloc, words, input, output),
        Some(Command::Audit(_)) => run_audit(alloc, listed_in(words), input, output),
        Some(Command::Node(_)) => host(alloc, input, output, disk, link, &mut NoService),
        Some(Command::Resume(_)) => resume_host(alloc, input, output, disk, link, &mut NoService),
        Some(Command::Guard(_)) => host(
            alloc,
            input,
            output,
            disk,
            link,
            &mut guarding_laws::Guard,
        ),
        Some(Command::Serve(_)) => host(alloc, input, output, disk, link, &mut Servers::new(alloc)),
        None => tell(output, Stop::Words),
    }
}
