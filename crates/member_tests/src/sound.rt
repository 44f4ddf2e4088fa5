use accounts::{Account, Delivered, Payload};
use rp_base::{Pid, PidSet, Update};
use sound_question::sound;
use std::alloc::Global;
use std::test::Fail;
use view_table::View;

fn pid(n: u8) -> Result<Pid, Fail> {
    Ok(Pid::new(n).ok_or("no process")?)
}

// The processes 0, 1 and 2.
fn keyed() -> Result<PidSet, Fail> {
    let mut keyed = PidSet::new();
    for p in 0..3 {
        keyed.insert(pid(p)?);
    }
    Ok(keyed)
}

// A message of one byte that was delivered.
fn letter(
    alloc: Global,
    place: u16,
    sender: u8,
    number: u16,
    payload: u8,
) -> Result<Delivered, Fail> {
    Ok(Delivered {
        place,
        sender: pid(sender)?,
        number,
        payload: Payload::from_vec(Vec::from_slice(alloc, &[payload])?),
    })
}

// A process that was in view 0 of 0 and 1, and in view 1 of 0, 1 and 2. In view 0 it delivered two messages of 0 at place 0 and one of 1
// at place 1, in view 1 nothing. It accepted the messages of 0, and perceived nothing.
fn reported(alloc: Global, me: u8) -> Result<Account, Fail> {
    let members = [pid(0)?, pid(1)?, pid(2)?];
    let mut views = Vec::new(alloc);
    views.push(View::new(0, &members[..2]).ok_or("no view")?)?;
    views.push(View::new(1, &members).ok_or("no view")?)?;
    let mut first = Vec::new(alloc);
    first.push(letter(alloc, 0, 0, 0, 0x61)?)?;
    first.push(letter(alloc, 0, 0, 1, 0x62)?)?;
    first.push(letter(alloc, 1, 1, 0, 0x63)?)?;
    let mut delivered = Vec::new(alloc);
    delivered.push(first)?;
    delivered.push(Vec::new(alloc))?;
    let mut accepted = Vec::new(alloc);
    accepted.push(Payload::from_vec(Vec::from_slice(alloc, b"\x61")?))?;
    accepted.push(Payload::from_vec(Vec::from_slice(alloc, b"\x62")?))?;
    Ok(Account {
        me: pid(me)?,
        views,
        delivered,
        accepted,
        perceived: Vec::new(alloc),
    })
}

// Process 0, which perceived in view 0 that 2 is to be added.
fn cause(alloc: Global) -> Result<Account, Fail> {
    let mut account = reported(alloc, 0)?;
    account.perceived.push((0, Update::Add(pid(2)?)))?;
    Ok(account)
}

// Process 2, which was no member of view 0 and accepted nothing.
fn newcomer(alloc: Global) -> Result<Account, Fail> {
    let mut account = reported(alloc, 2)?;
    if let Some(first) = account.delivered.get_mut(0) {
        first.truncate(2);
    }
    account.accepted.truncate(0);
    Ok(account)
}

fn family(alloc: Global, first: Account, other: Account) -> Result<Vec<Account>, Fail> {
    let mut accounts = Vec::new(alloc);
    accounts.push(first)?;
    accounts.push(other)?;
    Ok(accounts)
}

// View 1 follows by the update that 0 perceived, and the other one has the first place alone.
#[test]
fn sound_family(rt: HostRuntime) -> Result<(), Fail> {
    let alloc = rt.alloc();
    let accounts = family(alloc, cause(alloc)?, newcomer(alloc)?)?;
    assert!(rt; sound(&accounts, keyed()?));
    Ok(())
}

// Nobody perceived what ended view 0; or a process that was no member did; or 2 has no key.
#[test]
fn view_without_cause(rt: HostRuntime) -> Result<(), Fail> {
    let alloc = rt.alloc();
    let accounts = family(alloc, reported(alloc, 0)?, newcomer(alloc)?)?;
    assert!(rt; !sound(&accounts, keyed()?));
    let mut stranger = newcomer(alloc)?;
    stranger.perceived.push((0, Update::Add(pid(2)?)))?;
    let accounts = family(alloc, reported(alloc, 0)?, stranger)?;
    assert!(rt; !sound(&accounts, keyed()?));
    let mut two = PidSet::new();
    two.insert(pid(0)?);
    two.insert(pid(1)?);
    let accounts = family(alloc, cause(alloc)?, newcomer(alloc)?)?;
    assert!(rt; !sound(&accounts, two));
    Ok(())
}

// The message of 1 has the number 1, and none of its has the number 0.
#[test]
fn number_left_out(rt: HostRuntime) -> Result<(), Fail> {
    let alloc = rt.alloc();
    let mut first = cause(alloc)?;
    if let Some(reported) = first.delivered.get_mut(0) {
        reported.truncate(2);
        reported.push(letter(alloc, 1, 1, 1, 0x63)?)?;
    }
    let accounts = family(alloc, first, newcomer(alloc)?)?;
    assert!(rt; !sound(&accounts, keyed()?));
    Ok(())
}

// The second message of 0 has another payload than it accepted.
#[test]
fn payload_that_was_not_accepted(rt: HostRuntime) -> Result<(), Fail> {
    let alloc = rt.alloc();
    let mut first = cause(alloc)?;
    first.accepted.truncate(1);
    first
        .accepted
        .push(Payload::from_vec(Vec::from_slice(alloc, b"\x64")?))?;
    let accounts = family(alloc, first, newcomer(alloc)?)?;
    assert!(rt; !sound(&accounts, keyed()?));
    Ok(())
}

// The other one delivered the first message alone at place 0, of two.
#[test]
fn place_that_is_not_whole(rt: HostRuntime) -> Result<(), Fail> {
    let alloc = rt.alloc();
    let mut other = newcomer(alloc)?;
    if let Some(reported) = other.delivered.get_mut(0) {
        reported.truncate(1);
    }
    let accounts = family(alloc, cause(alloc)?, other)?;
    assert!(rt; !sound(&accounts, keyed()?));
    Ok(())
}

// The message of 1 is at place 2, and no message at place 1.
#[test]
fn place_left_out(rt: HostRuntime) -> Result<(), Fail> {
    let alloc = rt.alloc();
    let mut first = cause(alloc)?;
    if let Some(reported) = first.delivered.get_mut(0) {
        reported.truncate(2);
        reported.push(letter(alloc, 2, 1, 0, 0x63)?)?;
    }
    let accounts = family(alloc, first, newcomer(alloc)?)?;
    assert!(rt; !sound(&accounts, keyed()?));
    Ok(())
}
