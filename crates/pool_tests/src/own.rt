ghost use Rattle.std.specs.Prelude.{◌≡◌, ◌<◌, []};
ghost use Rattle.message_defs.specs.Spelling.{IsStatement};
ghost use Rattle.message_defs.specs.Statements as plain;
ghost use Rattle.stmt_codec.specs.Views.{stmt, message};

use arrayvec::ArrayVec;
use own_place::{Own, SignedSlots};
use rp_base::{NoMemory, Pid, PidSet, Update, Value};
use std::process::Abort;
use stmt_codec::{Batch, Slot, Statement};
use view_table::View;

fn pid(n: u8) -> Pid
    requires { n < 64 }
    ensures { result ≡ n }
{
    Pid::new(n).unwrap()
}

// None of the messages of three members.
fn none_of_three() -> ArrayVec<u16, 16> {
    let mut counts = ArrayVec::new();
    counts.push(0);
    counts.push(0);
    counts.push(0);
    counts
}

// The place of the manager of a view of three members, after it has signed this statement alone.
fn place_after<R: Abort + AllocGlobal>(rt: &R, statement: &Statement<'_>) -> Result<Own, NoMemory>
    requires { IsStatement (stmt statement.now) }
{
    let mut signed = SignedSlots::new(rt.alloc());
    signed.reserve(1)?;
    let mut own = Own {
        me: pid(2),
        position: Some(0),
        keyed: PidSet::new(),
        signed,
        ended: false,
        rank: 0,
        ready: None,
        ordered: 0,
        orders: none_of_three(),
        delivered: 0,
        counts: none_of_three(),
        earlier: 0,
    };
    let view = View::new(0, &[pid(2), pid(1), pid(0)]).expect(rt, "a view");
    assert!(rt; own.orders.len() == view.members().len());
    own.note_signed(&view, statement);
    Ok(own)
}

#[test]
fn an_order_counts_its_messages_by_rank(rt: HostRuntime) -> Result<(), NoMemory> {
    let mut batch = Batch::of(pid(1), 0);
    batch.push(pid(0), 0);
    batch.push(pid(1), 1);
    let order = Statement::Order {
        view: 0,
        place: 0,
        batch,
    };
    let own = place_after(&rt, &order)?;
    assert!(rt; own.ordered == 1);
    assert_eq!(rt; own.orders.as_slice(), [0, 2, 1].as_slice());
    assert!(rt; own.signed.has_signed(3, &Slot::Place { view: 0, place: 0 }));
    assert!(rt; !own.signed.has_signed(4, &Slot::Place { view: 0, place: 0 }));
    Ok(())
}

#[test]
fn an_end_and_a_ready_are_noted(rt: HostRuntime) -> Result<(), NoMemory> {
    let end = place_after(&rt, &Statement::End { view: 0, length: 0 })?;
    assert!(rt; end.ended && end.rank == 0 && end.ready.is_none());
    let value = Value {
        update: Update::Renew,
        cut: 0,
    };
    let ready = Statement::Ready {
        view: 0,
        rank: 2,
        value,
    };
    let own = place_after(&rt, &ready)?;
    assert!(rt; !own.ended && own.rank == 2 && own.ready == Some((2, value)));
    Ok(())
}

// The Echo of process 1's message of this number, of view 4.
fn echo(number: u16) -> Statement<'static>
    ensures { stmt result ≡ plain.Echo 4 (message 1 number) [] }
{
    Statement::Echo {
        view: 4,
        sender: pid(1),
        number,
        payload: &[],
    }
}

#[test]
fn the_first_unsigned_slot_of_a_row_is_found(rt: HostRuntime) -> Result<(), NoMemory> {
    let mut signed = SignedSlots::new(rt.alloc());
    signed.reserve(2)?;
    signed.sign(&echo(1));
    assert_eq!(rt; signed.echoed_below(4, pid(1)), 0);
    signed.sign(&echo(0));
    for (view, sender, number) in [(4, 1, 2), (4, 2, 0), (5, 1, 0)] {
        assert_eq!(rt; signed.echoed_below(view, pid(sender)), number);
    }
    let others = [signed.first_unsigned_keep(4), signed.first_unsigned_init(4)];
    assert_eq!(rt; signed.placed_below(4), 0);
    assert!(rt; others == [Some(0); 2]);
    signed.clear();
    assert_eq!(rt; signed.echoed_below(4, pid(1)), 0);
    Ok(())
}
