//! The stories of docs/TUTORIAL.md, and what it shows of them; written by tools/tutorial.py.

const HELLO: &[u8] = b"# Four members, and one message.
group 00000000000000000000000000000000 plain
process 0 correct plain 1000
process 1 correct plain 1000
process 2 correct plain 1000
process 3 correct plain 1000
genesis 0 1 2 3
submit 1 \"hello\"
drain 1000 to all
";

const LIAR: &[u8] = b"# Process 3 tells \"x\" to 0 and 1, and \"y\" to 2.
group 00000000000000000000000000000000 plain
process 0 correct plain 1000
process 1 correct plain 1000
process 2 correct plain 1000
process 3 corrupt plain 1000
genesis 0 1 2 3
lie 3 to 0 1: init 0 \"x\"
lie 3 to 2: init 0 \"y\"
lie 3 to 0 1 2: echo 3 0 \"x\"
lie 3 to 0 1 2: echo 3 0 \"y\"
drain 1000 to all
";

const LIARS: &[u8] = b"# Processes 2 and 3 lie together: to 0 they say \"x\", to 1 \"y\".
group 00000000000000000000000000000000 plain
process 0 correct plain 1000
process 1 correct plain 1000
process 2 corrupt plain 1000
process 3 corrupt plain 1000
genesis 0 1 2 3
lie 3 to 0: init 0 \"x\"
lie 3 to 1: init 0 \"y\"
lie 2 to 0: echo 3 0 \"x\"
lie 3 to 0: echo 3 0 \"x\"
lie 2 to 1: echo 3 0 \"y\"
lie 3 to 1: echo 3 0 \"y\"
lie 2 to 0 1: place 0 3 0
lie 2 to 0 1: keep 0 3 0
drain 1000 to all
";

const MEMBERS: &[u8] = b"# Process 1 is removed, and added again.
group 00000000000000000000000000000000 plain
process 0 correct plain 1000
process 1 correct plain 1000
process 2 correct plain 1000
process 3 correct plain 1000
genesis 0 1 2 3
suspect 0 of 1
suspect 2 of 1
drain 1000 to all
submit 1 \"am I in?\"
join 0 of 1
drain 1000 to all
tick 1
drain 1000 to all
submit 1 \"back\"
drain 1000 to all
";

/// Stories, and the reports of their schedules.
pub const REPORTS: [(&[u8], &[u8]); 4] = [
    (
        HELLO,
        b"rampart report 1
events 2
process 0 open 1 1 4
view 0 0 : 0 1 2 3
message 0 0 0 1 0 68656c6c6f
process 1 open 1 1 4
view 1 0 : 0 1 2 3
message 1 0 0 1 0 68656c6c6f
process 2 open 1 1 3
view 2 0 : 0 1 2 3
message 2 0 0 1 0 68656c6c6f
process 3 open 1 1 3
view 3 0 : 0 1 2 3
message 3 0 0 1 0 68656c6c6f
honest yes
bounded yes
agree yes
sound yes
",
    ),
    (
        LIAR,
        b"rampart report 1
events 5
process 0 open 1 1 4
view 0 0 : 0 1 2 3
message 0 0 0 3 0 78
liar 0 3
process 1 open 1 1 3
view 1 0 : 0 1 2 3
message 1 0 0 3 0 78
liar 1 3
process 2 open 1 1 3
view 2 0 : 0 1 2 3
message 2 0 0 3 0 78
liar 2 3
honest yes
bounded yes
agree yes
sound yes
",
    ),
    (
        LIARS,
        b"rampart report 1
events 9
process 0 open 1 1 4
view 0 0 : 0 1 2 3
message 0 0 0 3 0 78
process 1 open 1 1 3
view 1 0 : 0 1 2 3
message 1 0 0 3 0 79
liar 1 2
liar 1 3
honest yes
bounded no
agree no
sound yes
",
    ),
    (
        MEMBERS,
        b"rampart report 1
events 10
refused 3 1 outsider
process 0 open 3 1 14
view 0 0 : 0 1 2 3
view 0 1 : 0 2 3
view 0 2 : 0 2 3 1
message 0 2 0 1 0 6261636b
process 1 open 3 1 7
view 1 0 : 0 1 2 3
view 1 1 : 0 2 3
view 1 2 : 0 2 3 1
message 1 2 0 1 0 6261636b
process 2 open 3 1 10
view 2 0 : 0 1 2 3
view 2 1 : 0 2 3
view 2 2 : 0 2 3 1
message 2 2 0 1 0 6261636b
process 3 open 3 1 9
view 3 0 : 0 1 2 3
view 3 1 : 0 2 3
view 3 2 : 0 2 3 1
message 3 2 0 1 0 6261636b
honest yes
bounded yes
agree yes
sound yes
",
    ),
];

/// Stories, and parts of their traces.
pub const TRACES: [(&[u8], &[u8]); 3] = [
    (
        HELLO,
        b"process 0: correct
process 1: correct
process 2: correct
process 3: correct
view 0: 0 1 2 3
event 0: 1 is asked to send \"hello\"
  1 signs Init 0 in view 0: \"hello\"
  1 signs Echo of 1/0 in view 0: \"hello\"
  1 sends frame 0 to 0 2 3
event 1: up to 1000 deliveries are made to all
  0 hears 2 new claims in frame 0 of 1
  0 signs Echo of 1/0 in view 0: \"hello\"
  0 sends frame 1 to 1 2 3
  2 hears 2 new claims in frame 0 of 1
  2 signs Echo of 1/0 in view 0: \"hello\"
  2 sends frame 2 to 0 1 3
  3 hears 2 new claims in frame 0 of 1
  3 signs Echo of 1/0 in view 0: \"hello\"
  3 sends frame 3 to 0 1 2
  1 hears 1 new claim in frame 1 of 0
  2 hears 1 new claim in frame 1 of 0
  3 hears 1 new claim in frame 1 of 0
",
    ),
    (
        HELLO,
        b"  0 hears 1 new claim in frame 9 of 3
  0 delivers 1/0 at place 0 of view 0: \"hello\"
  1 hears 1 new claim in frame 9 of 3
  1 delivers 1/0 at place 0 of view 0: \"hello\"
  2 hears 1 new claim in frame 9 of 3
  1 hears 1 new claim in frame 10 of 0
  2 hears 1 new claim in frame 10 of 0
  2 delivers 1/0 at place 0 of view 0: \"hello\"
  3 hears 1 new claim in frame 10 of 0
  3 delivers 1/0 at place 0 of view 0: \"hello\"
  0 hears 1 new claim in frame 11 of 1
  2 hears 1 new claim in frame 11 of 1
  3 hears 1 new claim in frame 11 of 1
",
    ),
    (
        MEMBERS,
        b"event 6: time passes for 1
  1 sends frame 23 to 0 2 3
event 7: up to 1000 deliveries are made to all
  0 hears 0 new claims in frame 23 of 1
  0 sends frame 24 to 1
  2 hears 0 new claims in frame 23 of 1
  2 sends frame 25 to 1
  3 hears 0 new claims in frame 23 of 1
  3 sends frame 26 to 1
  1 hears 3 new claims in frame 24 of 0
  1 installs view 2: 0 2 3 1
  1 hears 0 new claims in frame 25 of 2
  1 hears 0 new claims in frame 26 of 3
",
    ),
];

/// Texts that are no stories, and what is reported of them.
pub const FAULTS: [(&[u8], &[u8]); 1] = [(
    b"submit 1 hello
",
    b"line 1: expected group NAME SCHEME, or group NAME SCHEME batch LIMIT: NAME of 16 bytes, SCHEME plain, lms or hss, LIMIT 2 to 16
",
)];
