use kit_file::Kit;
use kit_reading::{KitFault, read_kit};
use rp_base::Pid;
use sig_scheme::{AnyScheme, PublicKey, Secret};
use std::alloc::{AllocError, Global};
use std::test::Fail;

// Texts are those of another program, in Python.

const PLAIN: &[u8] = b"rampart kit 1
scheme plain
group 8303ca4d81d97afed6931bd5391d7eb0
key 0 3427359e9e727deb642976176fede3de0e5cb7af24fca3d2ddec8c3c5663fe09
key 1 7e9344677ed099c935bbbc976be09051ea5cce1f353d88a9a04617026201d83f
genesis 0
port 0 47000
port 1 47001
host 1 plain 7
pair 1 0 5855ee5121fe557457f8e9e9fd737e34751991ec45348663fd50cfeca1ea1b21
";

const TREE: &[u8] = b"rampart kit 1
scheme lms
group 8303ca4d81d97afed6931bd5391d7eb0
key 0 0000000500000004b966e4bbf7b7b3988d0ef56ca47ddcd2ad45c71816576d9852913006b485df0f88ea641eea0ab05223e49b1eec7bf90b
genesis 0
port 0 47000
host 0 lms 5 4 b966e4bbf7b7b3988d0ef56ca47ddcd2 f4b2494c729deaf404ac48765e64f122dbff4d62830f144842df61d68e5bf443
";

const LEVELS: &[u8] = b"rampart kit 2
scheme hss
group 8303ca4d81d97afed6931bd5391d7eb0
key 0 000000020000000500000004b966e4bbf7b7b3988d0ef56ca47ddcd2ad45c71816576d9852913006b485df0f88ea641eea0ab05223e49b1eec7bf90b
genesis 0
port 0 47000
host 0 hss 2 5 4 b966e4bbf7b7b3988d0ef56ca47ddcd2 f4b2494c729deaf404ac48765e64f122dbff4d62830f144842df61d68e5bf443
";

// The lines of a kit of two processes with LMS keys.

const HEAD: &[u8] = b"rampart kit 1\nscheme lms\n";

const GROUP: &[u8] = b"group 8303ca4d81d97afed6931bd5391d7eb0\n";

const KEY_0: &[u8] =
    b"key 0 0000000500000004b966e4bbf7b7b3988d0ef56ca47ddcd2ad45c71816576d9852913006b485df0f88ea641eea0ab05223e49b1eec7bf90b\n";

// Its last digit is another one.
const OTHER_KEY_0: &[u8] =
    b"key 0 0000000500000004b966e4bbf7b7b3988d0ef56ca47ddcd2ad45c71816576d9852913006b485df0f88ea641eea0ab05223e49b1eec7bf90c\n";

const REST: &[u8] =
    b"key 1 0000000500000004950b75560cb41eb8aafe3e0eb09fbead32b137b4948e46b9c0e7a9052836d4a2b328e6d98481f515c571f83790a6ee22
genesis 0
port 0 47000
port 1 47001
host 0 lms 5 4 b966e4bbf7b7b3988d0ef56ca47ddcd2 f4b2494c729deaf404ac48765e64f122dbff4d62830f144842df61d68e5bf443
pair 0 1 5855ee5121fe557457f8e9e9fd737e34751991ec45348663fd50cfeca1ea1b21
host 1 lms 5 4 950b75560cb41eb8aafe3e0eb09fbead 687ba9e543a9ccbd332ee9e7027feecbfd9c4536ffe64490d8fcd67b739b0a6c
pair 1 0 5855ee5121fe557457f8e9e9fd737e34751991ec45348663fd50cfeca1ea1b21
";

// The same of a kit with HSS keys.

const LEVELS_HEAD: &[u8] = b"rampart kit 2\nscheme hss\n";

const LEVELS_KEY_0: &[u8] =
    b"key 0 000000020000000500000004b966e4bbf7b7b3988d0ef56ca47ddcd2ad45c71816576d9852913006b485df0f88ea641eea0ab05223e49b1eec7bf90b\n";

// Its last digit is another one.
const LEVELS_OTHER_KEY_0: &[u8] =
    b"key 0 000000020000000500000004b966e4bbf7b7b3988d0ef56ca47ddcd2ad45c71816576d9852913006b485df0f88ea641eea0ab05223e49b1eec7bf90c\n";

const LEVELS_REST: &[u8] =
    b"key 1 000000020000000500000004950b75560cb41eb8aafe3e0eb09fbead32b137b4948e46b9c0e7a9052836d4a2b328e6d98481f515c571f83790a6ee22
genesis 0
port 0 47000
port 1 47001
host 0 hss 2 5 4 b966e4bbf7b7b3988d0ef56ca47ddcd2 f4b2494c729deaf404ac48765e64f122dbff4d62830f144842df61d68e5bf443
pair 0 1 5855ee5121fe557457f8e9e9fd737e34751991ec45348663fd50cfeca1ea1b21
host 1 hss 2 5 4 950b75560cb41eb8aafe3e0eb09fbead 687ba9e543a9ccbd332ee9e7027feecbfd9c4536ffe64490d8fcd67b739b0a6c
pair 1 0 5855ee5121fe557457f8e9e9fd737e34751991ec45348663fd50cfeca1ea1b21
";

fn joined(alloc: Global, parts: &[&[u8]]) -> Result<Vec<u8>, AllocError> {
    let mut text = Vec::new(alloc);
    for part in parts {
        text.extend_from_slice(part)?;
    }
    Ok(text)
}

// Whether the kit has the public lines of `PLAIN`.
fn is_plain(kit: &Kit, member: Pid) -> bool {
    kit.scheme() == AnyScheme::Plain
        && kit.group().bytes()[0] == 0x83
        && kit.genesis() == [member].as_slice()
        && kit.port(member) == Some(47_000)
}

// Whether it hosts process 1 alone, and has its pair key with the member.
fn hosts_one(kit: &Kit, member: Pid) -> bool {
    let host = Pid::new(1).unwrap_or(member);
    kit.hosted().mask() == 2
        && kit.secret(member).is_none()
        && kit.pair(member, member).is_none()
        && kit.pair(host, member).map(|key| key[0]) == Some(0x58)
}

#[test]
fn a_plain_kit_is_read(rt: HostRuntime) -> Result<(), Fail> {
    let kit = read_kit(rt.alloc(), PLAIN)?;
    assert!(rt; is_plain(&kit, Pid::default()));
    assert!(rt; hosts_one(&kit, Pid::default()));
    Ok(())
}

fn has_seed(kit: &Kit, p: Pid) -> bool {
    match kit.secret(p) {
        Some(Secret::Lms { seed, .. }) | Some(Secret::Hss { seed, .. }) => seed[31] == 0x43,
        _ => false,
    }
}

#[test]
fn a_kit_of_a_tree_is_read(rt: HostRuntime) -> Result<(), Fail> {
    let kit = read_kit(rt.alloc(), TREE)?;
    assert!(rt; has_seed(&kit, Pid::default()));
    Ok(())
}

// Why a text of these parts is no kit, if it is none.
fn fault_of(alloc: Global, parts: &[&[u8]]) -> Result<Option<KitFault>, AllocError> {
    let text = joined(alloc, parts)?;
    Ok(read_kit(alloc, &text).err())
}

#[test]
fn a_kit_of_levels_is_read_in_its_version_alone(rt: HostRuntime) -> Result<(), Fail> {
    let kit = read_kit(rt.alloc(), LEVELS)?;
    assert!(rt; kit.scheme() == AnyScheme::Hss && has_seed(&kit, Pid::default()));
    for (version, rest, line) in [
        (b"rampart kit 1\n".as_slice(), &LEVELS[14..], 2),
        (b"rampart kit 2\n".as_slice(), &TREE[14..], 2),
        (b"rampart kit 3\n".as_slice(), &LEVELS[14..], 1),
    ] {
        let fault = fault_of(rt.alloc(), &[version, rest])?;
        assert_eq!(rt; fault, Some(KitFault::Line { line }));
    }
    Ok(())
}

// The byte at this place, or 0 where the key is shorter.
fn byte(key: PublicKey, at: usize) -> u8 {
    key.as_bytes().get(at).copied().unwrap_or(0)
}

// The line of a secret whose public key is not the one on its key line; and the byte at this place of the key that it makes and of the one
// that is listed. Zeros where the text has no such secret.
fn mismatch(alloc: Global, parts: &[&[u8]], at: usize) -> Result<(usize, u8, u8), AllocError> {
    match fault_of(alloc, parts)? {
        Some(KitFault::KeyMismatch { line, made, listed }) => {
            Ok((line, byte(made, at), byte(listed, at)))
        }
        _ => Ok((0, 0, 0)),
    }
}

#[test]
fn a_key_of_another_secret_is_reported(rt: HostRuntime) -> Result<(), Fail> {
    let reported = mismatch(rt.alloc(), &[HEAD, GROUP, OTHER_KEY_0, REST], 55)?;
    assert_eq!(rt; reported, (9, 0x0b, 0x0c));
    Ok(())
}

#[test]
fn a_line_left_out_is_missing(rt: HostRuntime) -> Result<(), Fail> {
    let fault = fault_of(rt.alloc(), &[HEAD, KEY_0, REST])?;
    assert_eq!(rt; fault, Some(KitFault::Missing { line: 3 }));
    Ok(())
}

#[test]
fn a_line_that_stands_twice_is_repeated(rt: HostRuntime) -> Result<(), Fail> {
    let fault = fault_of(rt.alloc(), &[HEAD, GROUP, KEY_0, KEY_0, REST])?;
    assert_eq!(rt; fault, Some(KitFault::Repeated { line: 5 }));
    Ok(())
}

#[test]
fn faults_of_a_kit_of_levels_are_reported(rt: HostRuntime) -> Result<(), Fail> {
    let (head, key, rest) = (LEVELS_HEAD, LEVELS_KEY_0, LEVELS_REST);
    let reported = mismatch(rt.alloc(), &[head, GROUP, LEVELS_OTHER_KEY_0, rest], 59)?;
    assert_eq!(rt; reported, (9, 0x0b, 0x0c));
    let cut = fault_of(rt.alloc(), &[head, key, rest])?;
    assert_eq!(rt; cut, Some(KitFault::Missing { line: 3 }));
    let twice = fault_of(rt.alloc(), &[head, GROUP, key, key, rest])?;
    assert_eq!(rt; twice, Some(KitFault::Repeated { line: 5 }));
    Ok(())
}
