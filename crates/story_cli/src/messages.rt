ghost use Rattle.std.specs.Prelude.{◌≡◌};
ghost use Rattle.replay_defs.specs.Reports as plain;
ghost use Rattle.story_cli.specs.Messages as reported;

use replay_defs::FaultKind;
use story_reading::Expected;

/// What was expected, in words.
pub fn expected_words(x: Expected) -> &'static [u8]
    ensures { result.now ≡ reported.expected_words x }
{
    match x {
        Expected::Quote => b"a quote that ends the text, and no control characters in it",
        Expected::Escape => b"a quote or a backslash after the backslash",
        Expected::Group =>
            b"group NAME SCHEME, or group NAME SCHEME batch LIMIT: NAME of 16 bytes, SCHEME plain, lms or hss, LIMIT 2 to 16",
        Expected::Process =>
            b"process P ROLE KEY: P above the process before and at most 63, ROLE correct or corrupt, KEY of the group's scheme: plain TOTAL, plain KEY TOTAL, lms H W ID SEED or hss L H W ID SEED",
        Expected::Genesis =>
            b"process P ROLE KEY, for at most 64 processes, or genesis P ..: 1 to 16 different processes of those above",
        Expected::Event => b"an event: submit, raw, pass, drain, lie, suspect, join, renew or tick",
        Expected::Submit =>
            b"submit P PAYLOAD: P a correct process, PAYLOAD at most 65535 bytes, quoted or in hexadecimal",
        Expected::Raw =>
            b"raw P from Q BYTES: P a correct process, Q at most 63, BYTES at most 61440, quoted or in hexadecimal",
        Expected::Pass => b"pass FRAME to P: FRAME a number below 2^32, P a correct process",
        Expected::Drain =>
            b"drain COUNT to MASK: COUNT a number below 2^32, MASK all, nobody or processes",
        Expected::Lie =>
            b"lie P to MASK: STATEMENT: P a corrupt process, MASK all, nobody or processes, STATEMENT in words or its bytes",
        Expected::Suspect => b"suspect P of Q: P a correct process, Q at most 63",
        Expected::Join => b"join P of Q: P a correct process, Q at most 63",
        Expected::Renew => b"renew P: P a correct process",
        Expected::Tick => b"tick P: P a correct process",
        Expected::Steps =>
            b"at most 1000000 steps: as many as each drain counts, and one for each other event",
        Expected::Size => b"at most 67108864 bytes of a schedule",
    }
}

/// The word of a schedule's fault.
pub fn schedule_word(kind: FaultKind) -> &'static [u8]
    ensures { result.now ≡ plain.schedule_word kind }
{
    match kind {
        FaultKind::Short => b"short",
        FaultKind::Magic => b"magic",
        FaultKind::Scheme => b"scheme",
        FaultKind::Roster => b"roster",
        FaultKind::Key => b"key",
        FaultKind::Tag => b"tag",
        FaultKind::Field => b"field",
        FaultKind::TooLong => b"toolong",
        FaultKind::TooMany => b"toomany",
    }
}
