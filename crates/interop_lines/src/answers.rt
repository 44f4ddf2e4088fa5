ghost use Rattle.std.specs.Prelude.{ℕ, List, IfOk, IsErrOf};
ghost use Rattle.interop_lines.specs.Lines.{Answers};

use interop_files::answer_files;
use interop_frames::answer_frames;
use interop_node::answer_nodes;
use interop_pool::answer_pools;
use interop_runs::{Program, answer_runs};
use interop_signatures::answer_signatures;
use interop_store::answer_stores;
use interop_words::{LineFault, words_of};
use std::alloc::Global;

/// The answer to a line, which is given without its line feed.
///
/// | Line | Answer |
/// |---|---|
/// | `verify lms KEY BODY SIG` | `true` or `false`: whether this is an LMS signature under the key on the body (RFC 8554, section 5.4.2) |
/// | `lms H W I SEED Q BODY` | `KEY SIG`: the public key of the tree of typecode H (5 to 7) and one-time typecode W (1 to 4), and its signature on the body with leaf Q (RFC 8554, sections 5.3 and 5.4) |
/// | `verify hss KEY BODY SIG` | `true` or `false`: whether this is an HSS signature under the key on the body (RFC 8554, section 6.3) |
/// | `hss L H W I SEED C BODY` | `KEY SIG`: the public key of L levels (1 to 3) of trees of typecode H (5 to 7) and one-time typecode W (1 to 4), and its signature number C on the body (docs/FORMATS.md, «Trees in levels») |
/// | `frame HEX` | what the bytes say as a frame: the word of their first fault (docs/FORMATS.md, «Frames»), or `bundle` or `proof` and for each claim ` SIGNER STATEMENT SIGNATURE`, or `want VIEW PLACE` |
/// | `statement HEX` | what the bytes say as a statement: the word of their fault (docs/FORMATS.md, «Statements»), or `ok STATEMENT`, spelled from what was read |
/// | `kit HEX` | what the bytes say as a kit: `kit HEX`, the kit spelled again from what was read; or its fault (docs/FORMATS.md, «Kits»): `line N`, `repeated N`, `missing N`, or `mismatch N MADE LISTED` with the public key that the secret makes and the one of the key line. N counts lines from 1 |
/// | `schedule HEX` | what the bytes say as a schedule: `schedule HEX`, the schedule spelled again from what was read; or its fault and place (docs/FORMATS.md, «Schedules»): `WORD PLACE` |
/// | `journal HEX` | what the bytes say as a journal, whose header may be that of any group, processes and digest: `journal LIMIT`, by its magic 1 or 16, and for each entry before the first closed gate ` entry PROCESS EVENT SPENT` and its signatures, each after a space; or `entry PLACE`, the place of an open gate that no whole entry and next gate follow; or `notajournal` (docs/FORMATS.md, «Journals»). EVENT is `submit HEX`, `frame FROM HEX`, `suspect P`, `join P`, `renew` or `tick`, and SPENT 0 or 1 |
/// | `datagram KEY HEX` | what process 2 of the group 000102..0f opens of the bytes as a datagram, which shares the key of 32 bytes with process 1: `opened FROM FRAME`, or the word of their first fault (docs/FORMATS.md, «Datagrams»): `short`, `magic`, `othergroup`, `notforme`, `unknownpeer` or `badtag` |
/// | `pool VIEW MEMBERS COUNTS FRAME` | what a process hears of the claims of a frame, one after the other, in the view of the number VIEW (0 to 1,023) and of MEMBERS, a byte each in rank order, after it has delivered as many messages of each member as its byte of COUNTS says, message l at place l (docs/FORMATS.md, «Questions of one line») |
/// | `convicted HEX` | `convicted` and, each after a space, the processes whom the claims of the frame convict, by rising number; or the word of the bytes' first fault as a frame |
/// | `apply HEX HEX ..` | what a store that has no key answers to these payloads, one after the other: `applied`, each answer, `state` and the store's spelling after the last one (docs/FORMATS.md, «The store») |
/// | `reply HEX` | what the bytes say as a reply: `reply SIGNER VIEW PLACE POSITION PAYLOAD ANSWER SIGNATURE`; or `noreply` |
/// | `state HEX` | what the bytes say as a state record: `state SIGNER VIEW STATE SIGNATURE`, the store spelled again from what was read; or `nostate` |
/// | `run WORDS INPUT JOURNAL FAILS COMING STOP` | what a run of the program comes to, over devices in memory (docs/FORMATS.md, «Questions of one line») |
///
/// Words are parted by single spaces. Bytes are in lower-case hexadecimal, or `-` where there are none; I has 16 bytes and
/// SEED 32. Numbers are decimal, without sign or leading zero. `NoQuestion` comes exactly where the line is none of these.
pub fn answer<P: Program>(alloc: Global, program: &P, line: &[u8]) -> Result<Vec<u8>, LineFault>
    ensures answers { IfOk result (λ reported. Answers (P.comes_to program.now) line.now reported.items) }
    ensures no_question { IsErrOf result LineFault.NoQuestion → (reported : List ℕ) → ¬ Answers (P.comes_to program.now) line.now reported }
{
    let words = words_of(alloc, line)?;
    match answer_signatures(alloc, &words) {
        Err(LineFault::NoQuestion) => match answer_frames(alloc, &words) {
            Err(LineFault::NoQuestion) => match answer_files(alloc, &words) {
                Err(LineFault::NoQuestion) => match answer_nodes(alloc, &words) {
                    Err(LineFault::NoQuestion) => match answer_pools(alloc, &words) {
                        Err(LineFault::NoQuestion) => match answer_stores(alloc, &words) {
                            Err(LineFault::NoQuestion) => answer_runs(alloc, program, &words),
                            answered => answered,
                        },
                        answered => answered,
                    },
                    answered => answered,
                },
                answered => answered,
            },
            answered => answered,
        },
        answered => answered,
    }
}
