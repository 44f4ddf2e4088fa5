use accounts::{Account, Payload};
use findings_json::{Conviction, Findings, push_findings};
use member_events::OwnClaim;
use rp_base::Pid;
use std::alloc::Global;
use std::test::Fail;
use view_table::View;

// An audit of processes 0 and 1 by two journals in which process 3 says two things in its Echo of one message.
const ACROSS_JOURNALS: &[u8] =
    b"{\"agree\":true,\"bounded\":false,\"convicted\":[{\"first\":\"020000030000000161\",\"kind\":2,\"process\":3,\"second\":\"020000030000000162\"}],\
\"honest\":true,\"processes\":[{\"delivered\":0,\"process\":0,\"views\":[[0,1,2,3]]},{\"delivered\":0,\"process\":1,\"views\":[[0,1,2,3]]}],\
\"sound\":true}\n";

fn pid(n: u8) -> Result<Pid, Fail> {
    Ok(Pid::new(n).ok_or("no process")?)
}

// The Echo of process 3 of its own first message, with a payload of one byte.
fn echo(alloc: Global, said: u8) -> Result<OwnClaim, Fail> {
    let statement = [2, 0, 0, 3, 0, 0, 0, 1, said];
    Ok(OwnClaim {
        signer: pid(3)?,
        statement: Payload::from_vec(Vec::from_slice(alloc, &statement)?),
        signature: Payload::from_vec(Vec::new(alloc)),
    })
}

// A process that has delivered nothing in a view of four.
fn listed(alloc: Global, me: u8) -> Result<Account, Fail> {
    let members = [pid(0)?, pid(1)?, pid(2)?, pid(3)?];
    let mut views = Vec::new(alloc);
    views.push(View::new(0, &members).ok_or("no view")?)?;
    let mut delivered = Vec::new(alloc);
    delivered.push(Vec::new(alloc))?;
    Ok(Account {
        me: pid(me)?,
        views,
        delivered,
        accepted: Vec::new(alloc),
        perceived: Vec::new(alloc),
    })
}

fn found(alloc: Global) -> Result<Findings, Fail> {
    let mut convicted = Vec::new(alloc);
    convicted.push(Conviction {
        process: pid(3)?,
        kind: 2,
        first: echo(alloc, b'a')?,
        second: echo(alloc, b'b')?,
    })?;
    let mut accounts = Vec::new(alloc);
    accounts.push(listed(alloc, 0)?)?;
    accounts.push(listed(alloc, 1)?)?;
    Ok(Findings {
        agree: true,
        bounded: false,
        convicted,
        honest: true,
        accounts,
        sound: true,
    })
}

#[test]
fn findings_are_one_line_of_json(rt: HostRuntime) -> Result<(), Fail> {
    let mut out = Vec::new(rt.alloc());
    out.extend_from_slice(b"before ")?;
    push_findings(&mut out, rt.alloc(), &found(rt.alloc())?)?;
    let (before, line) = out.split_at(7);
    assert!(rt; before == b"before ".as_slice());
    assert!(rt; line == ACROSS_JOURNALS);
    Ok(())
}
