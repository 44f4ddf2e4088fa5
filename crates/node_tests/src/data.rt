//! Kits, scripts and answers, all made by another program.

/// A kit of two processes, both members and both hosted.
pub const KIT: &[u8] = b"rampart kit 1
scheme plain
group 6f289d5b5aa425dc2f365877e4cf8595
key 0 2dd447ac7305bc84b2dc0da0fe9411f33e1af724d30036daa8b9c930ce8b3722
key 1 00d30be9d2cd77737e2bbd0d7678b8b6c35b2fa04810456308028c71958103a5
genesis 0 1
port 0 47000
port 1 47001
host 0 plain 100
pair 0 1 e5d93ab81fbaf5647142a212f6fec7a66fc65a8250045aaf87c78aa3de95e3e9
host 1 plain 100
pair 1 0 e5d93ab81fbaf5647142a212f6fec7a66fc65a8250045aaf87c78aa3de95e3e9
go
";

/// Process 0 submits two bytes, which both then deliver.
pub const SCRIPT: &[u8] = b"0 submit 6869
1 recv 8
0 recv 8
1 recv 8
0 recv 8
1 recv 8
";

/// How the node of the kit begins on an empty disk.
pub const HOSTS: &[u8] = b"host 0 view 0 delivered 0 entries 0
host 1 view 0 delivered 0 entries 0
";

/// What the script says after that.
pub const DELIVERED: &[u8] =
    b"recv 1 1\nrecv 0 1\nrecv 1 1\ndeliver 0 0 0 0 0 6869\nrecv 0 1\ndeliver 1 0 0 0 0 6869\nrecv 1 1\n";

/// The line of its snapshot then.
pub const SNAP: &[u8] =
    b"snap 52504e326f289d5b5aa425dc2f365877e4cf8595000000000000000390bfcb0f0fe0dac819cccb817ca6c26c17fbefebfe48540ca3ee9d\
    3b81749767000000000000003c467cb5435f06f7bd6cb64c11a1264605745568d1333ed203364261c3f6e9679800000000000000000000\
    001e00000000000000000000000000000000000000000000000000000000000000000000000000000000001e0100000000000000000000\
    00000000000000000000000000000000000000\n";

/// A journal of its node with an entry that is none.
pub const REFUSED: &[u8] =
    b"\x52\x50\x4a\x32\x6f\x28\x9d\x5b\x5a\xa4\x25\xdc\x2f\x36\x58\x77\xe4\xcf\x85\x95\x00\x00\x00\x00\x00\x00\x00\x03\
\x90\xbf\xcb\x0f\x0f\xe0\xda\xc8\x19\xcc\xcb\x81\x7c\xa6\xc2\x6c\x17\xfb\xef\xeb\xfe\x48\x54\x0c\xa3\xee\x9d\x3b\
\x81\x74\x97\x67\x01\x00\x00\x00\x01\xff\x00";

/// The line of a snapshot behind that entry, with 7 entries of process 0.
pub const BEHIND: &[u8] =
    b"snap 52504e326f289d5b5aa425dc2f365877e4cf8595000000000000000390bfcb0f0fe0dac819cccb817ca6c26c17fbefebfe48540ca\
    3ee9d3b8174976700000000000000424e4da232ca0173ba47e0578da4ba56032811660db1d1f16ce6b356884152974a000000000000000\
    70000001e00000000000000000000000000000000000000000000000000000000000000000000000000000000001e01000000000000000\
    0000000000000000000000000000000000000000000\n";

/// How the node begins again after each number of turns of the script.
pub const AGAIN: [&[u8]; 7] = [
    b"host 0 view 0 delivered 0 entries 0\nhost 1 view 0 delivered 0 entries 0\n",
    b"host 0 view 0 delivered 0 entries 1\nhost 1 view 0 delivered 0 entries 0\n",
    b"host 0 view 0 delivered 0 entries 1\nhost 1 view 0 delivered 0 entries 1\n",
    b"host 0 view 0 delivered 0 entries 2\nhost 1 view 0 delivered 0 entries 1\n",
    b"host 0 view 0 delivered 0 entries 2\nhost 1 view 0 delivered 0 entries 2\n",
    b"host 0 view 0 delivered 1 entries 3\nhost 1 view 0 delivered 0 entries 2\n",
    b"host 0 view 0 delivered 1 entries 3\nhost 1 view 0 delivered 1 entries 3\n",
];

/// A kit of one member, with keys of trees. Its lines `key 0` and `group` are the fourth and the third.
pub const TREES: [&[u8]; 13] = [
    b"rampart kit 1\n",
    b"scheme lms\n",
    b"group 6f289d5b5aa425dc2f365877e4cf8595\n",
    b"key 0 0000000500000004810e5b050b40914a3ceaa445223af68f5da715e941ff8904086b62654840ce0d3bc959584817765217da2e660dcb4d41\n",
    b"key 1 000000050000000492dfc9dd450fc88c0e69bee0a4b6719ce81471fd4e3c60d23b4e605cae22bf48585814a5488847a573b5a5aca1de1b7d\n",
    b"genesis 0\n",
    b"port 0 47000\n",
    b"port 1 47001\n",
    b"host 0 lms 5 4 810e5b050b40914a3ceaa445223af68f c803da5a7bc13405c17406b794fa3f54b491e0cf417a9d65be4b31c0ef4477ae\n",
    b"pair 0 1 e5d93ab81fbaf5647142a212f6fec7a66fc65a8250045aaf87c78aa3de95e3e9\n",
    b"host 1 lms 5 4 92dfc9dd450fc88c0e69bee0a4b6719c ca870e72e10ee3c787cf5b1feaccd309919550d68f2217c28d8dbce6a050cf0c\n",
    b"pair 1 0 e5d93ab81fbaf5647142a212f6fec7a66fc65a8250045aaf87c78aa3de95e3e9\n",
    b"go\n",
];

/// Datagrams to process 1 of `KIT`: too short, of another form, with another tag, one with no frame, from itself, for another, of another
/// group, and from a process that it does not know.
pub const DATAGRAMS: [&[u8]; 8] = [
    b"\x52\x50\x44\x31\x6f\x28\x9d\x5b\x5a\xa4\x25\xdc\x2f\x36\x58\x77\xe4\xcf\x85\x95\x00\x01\x4d\x10\x19\x7f\x64\xf2\
\x19\xfe\x6c\xbd\x83\xd2\xe9\x49\xbd\x40\x33\x9f\x8f\xba\xdd\x81\xde\x1c\xfb\x8d\xef\xe3\x23\x2e\xc3",
    b"\x78\x78\x78\x78\x78\x78\x78\x78\x78\x78\x78\x78\x78\x78\x78\x78\x78\x78\x78\x78\x78\x78\x78\x78\x78\x78\x78\x78\
\x78\x78\x78\x78\x78\x78\x78\x78\x78\x78\x78\x78\x78\x78\x78\x78\x78\x78\x78\x78\x78\x78\x78\x78\x78\x78",
    b"\x52\x50\x44\x31\x6f\x28\x9d\x5b\x5a\xa4\x25\xdc\x2f\x36\x58\x77\xe4\xcf\x85\x95\x00\x01\x4d\x10\x19\x7f\x64\xf2\
\x19\xfe\x6c\xbd\x83\xd2\xe9\x49\xbd\x40\x33\x9f\x8f\xba\xdd\x81\xde\x1c\xfb\x8d\xef\xe3\x23\x2e\xc3\x58",
    b"\x52\x50\x44\x31\x6f\x28\x9d\x5b\x5a\xa4\x25\xdc\x2f\x36\x58\x77\xe4\xcf\x85\x95\x00\x01\x4d\x10\x19\x7f\x64\xf2\
\x19\xfe\x6c\xbd\x83\xd2\xe9\x49\xbd\x40\x33\x9f\x8f\xba\xdd\x81\xde\x1c\xfb\x8d\xef\xe3\x23\x2e\xc3\x59",
    b"\x52\x50\x44\x31\x6f\x28\x9d\x5b\x5a\xa4\x25\xdc\x2f\x36\x58\x77\xe4\xcf\x85\x95\x01\x01\xdc\x91\x74\xf0\x3f\x8e\
\x20\x5d\x77\xd1\x4d\x11\x76\x2e\xdf\xcd\xea\x00\x75\xda\xdc\x21\x8d\x7d\x6a\x9a\xd4\xcf\x02\x8c\x00\x11",
    b"\x52\x50\x44\x31\x6f\x28\x9d\x5b\x5a\xa4\x25\xdc\x2f\x36\x58\x77\xe4\xcf\x85\x95\x01\x00\x74\x71\xe0\x27\x1b\x90\
\x60\x67\x89\x91\x55\x70\xae\xff\x19\x93\x6d\x14\x0a\x34\xd5\x1f\x4f\x57\xf3\xd1\x4c\xf3\x96\x60\xbf\x3b",
    b"\x52\x50\x44\x31\x00\x00\x00\x00\x00\x00\x00\x00\x00\x00\x00\x00\x00\x00\x00\x00\x00\x01\xcc\x84\xe4\x6c\x91\x4d\
\xd6\x73\x07\xe7\x62\xd3\x83\x31\x87\xc2\x68\x55\x73\xf3\x5a\xdd\x98\x9c\xc3\x56\xde\x44\x44\x1c\x7c\xfd",
    b"\x52\x50\x44\x31\x6f\x28\x9d\x5b\x5a\xa4\x25\xdc\x2f\x36\x58\x77\xe4\xcf\x85\x95\x05\x01\x05\xbc\x86\x36\x23\x10\
\x31\xa5\x14\x17\xc1\xc3\x0c\xd8\x61\x8a\x57\x1e\x3f\xf5\x57\x36\x1d\xeb\xc8\xbf\x6a\xc2\xed\x37\x04\x5c",
];
