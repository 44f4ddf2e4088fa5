use command_line::read_command;
use std::alloc::Global;
use std::test::Fail;

const SEED: &str = "000102030405060708090a0b0c0d0e0f101112131415161718191a1b1c1d1eff";

/// The words of a line.
fn words_of(alloc: Global, line: &str) -> Result<Vec<String>, Fail> {
    let mut words = Vec::new(alloc);
    for word in line.split(' ') {
        words.push(String::from_str(alloc, word)?)?;
    }
    Ok(words)
}

/// What the words of the line ask for, as it is printed: a command, or None.
fn asked(alloc: Global, line: &str) -> Result<String, Fail> {
    let words = words_of(alloc, line)?;
    let asked = read_command(&words);
    Ok(format!(in alloc; "{asked:?}")?)
}

/// Whether the words of the line ask for this command.
fn is_asked(alloc: Global, line: &str, command: &str) -> Result<bool, Fail> {
    let asked = asked(alloc, line)?;
    Ok(asked.as_str() == command)
}

/// The words of a new kit: all but the first and the seed are given.
fn keygen(alloc: Global, order: &str) -> Result<String, Fail> {
    Ok(format!(in alloc; "keygen {order} {SEED}")?)
}

/// Whether the words of this order ask for this kit.
fn is_ordered(alloc: Global, order: &str, plan: &str) -> Result<bool, Fail> {
    let line = keygen(alloc, order)?;
    let command = format!(in alloc; "Some(Keygen(KitOrder {{ {plan}, .. }}))")?;
    is_asked(alloc, &line, command.as_str())
}

/// Words, and the command that they ask for.
const COMMANDS: [(&str, &str); 18] = [
    ("replay", "Some(Replay { short: false })"),
    ("replay short", "Some(Replay { short: true })"),
    ("chain", "Some(Chain)"),
    ("gen 0", "Some(Gen(0))"),
    ("gen 1", "Some(Gen(1))"),
    ("gen 4294967295", "Some(Gen(4294967295))"),
    ("node journal", "Some(Node(\"journal\"))"),
    ("node short", "Some(Node(\"short\"))"),
    ("node ", "Some(Node(\"\"))"),
    ("guard journal", "Some(Guard(\"journal\"))"),
    ("guard short", "Some(Guard(\"short\"))"),
    ("serve journal", "Some(Serve(\"journal\"))"),
    ("serve ", "Some(Serve(\"\"))"),
    ("ask 00", "Some(Ask(\"00\"))"),
    ("ask 0162ff", "Some(Ask(\"0162ff\"))"),
    ("audit 0", "Some(Audit(PidSet(1)))"),
    ("audit 0 1 2 63", "Some(Audit(PidSet(9223372036854775815)))"),
    ("audit 9 10", "Some(Audit(PidSet(1536)))"),
];

#[test]
fn the_words_of_a_command_ask_for_it(rt: HostRuntime) -> Result<(), Fail> {
    for (line, command) in COMMANDS {
        assert!(rt; is_asked(rt.alloc(), line, command)?, "{line}");
    }
    Ok(())
}

/// Orders, and what is asked for.
const ORDERS: [(&str, &str); 7] = [
    ("1 1 plain:0", "members: 1, roster: 1, keys: Plain(0)"),
    (
        "16 64 plain:4294967295",
        "members: 16, roster: 64, keys: Plain(4294967295)",
    ),
    ("4 7 lms:5:1", "members: 4, roster: 7, keys: Lms(5, W1)"),
    ("4 7 lms:7:4", "members: 4, roster: 7, keys: Lms(7, W8)"),
    (
        "4 7 hss:1:7:1",
        "members: 4, roster: 7, keys: Hss(1, 7, W1)",
    ),
    (
        "4 7 hss:2:7:4",
        "members: 4, roster: 7, keys: Hss(2, 7, W8)",
    ),
    (
        "4 7 hss:3:6:2",
        "members: 4, roster: 7, keys: Hss(3, 6, W2)",
    ),
];

#[test]
fn the_words_of_an_order_ask_for_its_kit(rt: HostRuntime) -> Result<(), Fail> {
    for (order, plan) in ORDERS {
        assert!(rt; is_ordered(rt.alloc(), order, plan)?, "{order}");
    }
    Ok(())
}

/// Orders with a word out of its range, or of another form.
const NO_ORDERS: [&str; 20] = [
    "0 1 plain:9",
    "17 17 plain:9",
    "5 4 plain:9",
    "4 65 plain:9",
    "04 4 plain:9",
    "4 4 plain:9 plain:9",
    "4 4 plain:4294967296",
    "4 4 plain",
    "4 4 lms:8:1",
    "4 4 lms:5:5",
    "4 4 lms:5:4:",
    "4 4 lms:5;4",
    "4 4 hss:0:5:4",
    "4 4 hss:4:5:4",
    "4 4 hss:2:8:4",
    "4 4 hss:3:7:4",
    "4 4 hss:2:5:1",
    "4 4 hss:2:5",
    "4 4 hss:2:5:4:",
    "4 4 hss:2;5:4",
];

#[test]
fn an_order_out_of_its_ranges_is_none(rt: HostRuntime) -> Result<(), Fail> {
    for order in NO_ORDERS {
        let line = keygen(rt.alloc(), order)?;
        assert!(rt; is_asked(rt.alloc(), &line, "None")?, "{order}");
    }
    Ok(())
}

/// Words that ask for nothing.
const NO_COMMANDS: [&str; 47] = [
    "",
    "replays",
    "short",
    "replay shorts",
    "replay long",
    "short replay",
    "replay short short",
    "chains",
    "chain short",
    "chain 0 1 2 3",
    "gen short",
    "gen",
    "gen 01",
    "gen 4294967296",
    "gen 1 1",
    "node",
    "node a b",
    "nodes a",
    "guard",
    "guard a b",
    "guards a",
    "serve",
    "serve a b",
    "server a",
    "ask",
    "ask ",
    "ask -",
    "ask 0",
    "ask 016",
    "ask 0A",
    "ask 0g",
    "ask 01 62",
    "asks 01",
    "audit",
    "audit ",
    "audit 64",
    "audit 0 0",
    "audit 1 0",
    "audit 0 01",
    "audit 0 1 2 3 4 5 6 7 8 7",
    "audit 0 short",
    "audits 0",
    "keygen",
    "keygen 4 4 plain:9",
    "keygen 4 4 plain:9 000102030405060708090a0b0c0d0e0f101112131415161718191a1b1c1d1ef",
    "keygen 4 4 plain:9 000102030405060708090A0B0C0D0E0F101112131415161718191A1B1C1D1EFF",
    "replay 4 4 plain:9 000102030405060708090a0b0c0d0e0f101112131415161718191a1b1c1d1eff",
];

#[test]
fn other_words_ask_for_nothing(rt: HostRuntime) -> Result<(), Fail> {
    for line in NO_COMMANDS {
        assert!(rt; is_asked(rt.alloc(), line, "None")?, "{line}");
    }
    Ok(())
}

#[test]
fn answers_to_at_most_1024_bytes_can_be_asked_of(rt: HostRuntime) -> Result<(), Fail> {
    let mut line = String::from_str(rt.alloc(), "ask ")?;
    for _ in 0..1024 {
        line.push_str("7f")?;
    }
    let all = asked(rt.alloc(), &line)?;
    assert!(rt; all.as_str().starts_with("Some(Ask(\"7f7f"));
    line.push_str("7f")?;
    assert!(rt; is_asked(rt.alloc(), &line, "None")?);
    Ok(())
}

#[test]
fn all_numbers_of_processes_can_be_listed(rt: HostRuntime) -> Result<(), Fail> {
    let mut line = String::from_str(rt.alloc(), "audit")?;
    for p in 0..64 {
        line.push_str(&format!(in rt.alloc(); " {p}")?)?;
    }
    assert!(rt;
        is_asked(
            rt.alloc(),
            &line,
            "Some(Audit(PidSet(18446744073709551615)))"
        )?
    );
    line.push_str(" 64")?;
    assert!(rt; is_asked(rt.alloc(), &line, "None")?);
    Ok(())
}

#[test]
fn seeds_are_not_printed(rt: HostRuntime) -> Result<(), Fail> {
    let line = keygen(rt.alloc(), "4 7 lms:5:1")?;
    let printed = asked(rt.alloc(), &line)?;
    assert_eq!(rt;
        printed.as_str(),
        "Some(Keygen(KitOrder { members: 4, roster: 7, keys: Lms(5, W1), .. }))"
    );
    Ok(())
}
