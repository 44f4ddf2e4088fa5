//! The lines of a node, but for what its turns report.
ghost use Rattle.std.specs.Prelude.{◌≡◌, ◌++◌, ◌∷◌, [], ℕ, List, length, map, sum, IfOk, OnOk, OnErr};
ghost use Rattle.report_lines.specs.Below.{fault as fault_of};
ghost use Rattle.group_defs.specs.Process.{Process};
ghost use Rattle.group_defs.specs.Accounts.{account_of};
ghost use Rattle.group_defs.specs.Views.{View as PlainView};
ghost use Rattle.accounts.specs.Views.{account};
ghost use Rattle.node_defs.specs.Lines as plain;
ghost use Rattle.node_text.specs.Words.{host_words};

use crate::words::{Word, process_word, push_line};
use accounts::{Account, Delivered};
use link_defs::LinkFault;
use member_events::EventFault;
use report_lines::refusal_word;
use rp_base::{NoMemory, Pid};
use view_table::View;

// How much was delivered in all views. More than fits into memory can't be kept.
fn delivered_in_all(delivered: &[Vec<Delivered>]) -> Result<u64, NoMemory>
    ensures { IfOk result (λ n. n ≡ sum (map (λ ds. length ds.items) delivered.now)) }
{
    let mut all = 0u64;
    for of_view in delivered {
        let more = of_view.as_slice().len() as u64;
        all = all.checked_add(more).ok_or(NoMemory)?;
    }
    Ok(all)
}

// The number of the current view, which is the last one.
fn view_number(views: &[View]) -> u16
    ensures { (before : List PlainView) (last : PlainView) → views.now ≡ before ++ last ∷ [] → result ≡ last.number }
{
    match views.last() {
        Some(view) => view.number(),
        None => 0,
    }
}

fn push_host_line(
    out: &mut Vec<u8>,
    me: Pid,
    view: u16,
    delivered: u64,
    entries: u64,
) -> Result<(), NoMemory>
    ensures pushed { OnOk result (out.new.items ≡ out.old.items ++ host_words me view delivered entries) }
    ensures unchanged { OnErr result (out.new.items ≡ out.old.items) }
{
    push_line(
        out,
        b"host",
        &[
            process_word(me),
            Word::Text(b"view"),
            Word::Number(view.into()),
            Word::Text(b"delivered"),
            Word::Number(delivered),
            Word::Text(b"entries"),
            Word::Number(entries),
        ],
    )
}

/// Appends what is said of a hosted process as the node begins: its view, how many messages it has delivered in all views, and how many
/// entries of it the journal has.
///
/// # Errors
/// [`NoMemory`]; nothing is appended then.
pub fn push_host(out: &mut Vec<u8>, reported: &Account, entries: u64) -> Result<(), NoMemory>
    ensures pushed { (p : Process) → account_of p ≡ account reported.now → OnOk result (out.new.items ≡ out.old.items ++ plain.host_line p entries) }
    ensures unchanged { OnErr result (out.new.items ≡ out.old.items) }
{
    let delivered = delivered_in_all(&reported.delivered)?;
    push_host_line(
        out,
        reported.me,
        view_number(reported.views.as_slice()),
        delivered,
        entries,
    )?;
    Ok(())
}

/// Appends that an event of this process was refused, and why.
///
/// # Errors
/// [`NoMemory`]; nothing is appended then.
pub fn push_refused(out: &mut Vec<u8>, me: Pid, fault: EventFault) -> Result<(), NoMemory>
    ensures pushed { OnOk result (out.new.items ≡ out.old.items ++ plain.refused_line me (fault_of fault)) }
    ensures unchanged { OnErr result (out.new.items ≡ out.old.items) }
{
    push_line(
        out,
        b"refused",
        &[process_word(me), Word::Text(refusal_word(fault))],
    )
}

fn drop_word(fault: LinkFault) -> &'static [u8]
    ensures { result.now ≡ plain.drop_word fault }
{
    match fault {
        LinkFault::Short => b"short",
        LinkFault::Magic => b"magic",
        LinkFault::OtherGroup => b"othergroup",
        LinkFault::NotForMe => b"notforme",
        LinkFault::UnknownPeer => b"unknownpeer",
        LinkFault::BadTag => b"badtag",
    }
}

/// Appends that a datagram that came to this process was dropped, and why.
///
/// # Errors
/// [`NoMemory`]; nothing is appended then.
pub fn push_drop(out: &mut Vec<u8>, me: Pid, fault: LinkFault) -> Result<(), NoMemory>
    ensures pushed { OnOk result (out.new.items ≡ out.old.items ++ plain.drop_line me fault) }
    ensures unchanged { OnErr result (out.new.items ≡ out.old.items) }
{
    push_line(
        out,
        b"drop",
        &[process_word(me), Word::Text(drop_word(fault))],
    )
}

/// Appends that the link failed this process.
///
/// # Errors
/// [`NoMemory`]; nothing is appended then.
pub fn push_fault(out: &mut Vec<u8>, me: Pid) -> Result<(), NoMemory>
    ensures pushed { OnOk result (out.new.items ≡ out.old.items ++ plain.fault_line me) }
    ensures unchanged { OnErr result (out.new.items ≡ out.old.items) }
{
    push_line(out, b"fault", &[process_word(me)])
}

/// Appends how many datagrams came to this process.
///
/// # Errors
/// [`NoMemory`]; nothing is appended then.
pub fn push_recv(out: &mut Vec<u8>, me: Pid, count: u32) -> Result<(), NoMemory>
    ensures pushed { OnOk result (out.new.items ≡ out.old.items ++ plain.recv_line me count) }
    ensures unchanged { OnErr result (out.new.items ≡ out.old.items) }
{
    push_line(
        out,
        b"recv",
        &[process_word(me), Word::Number(count.into())],
    )
}

/// Appends that this process suspects another next, on evidence.
///
/// # Errors
/// [`NoMemory`]; nothing is appended then.
pub fn push_expel(out: &mut Vec<u8>, me: Pid, other: Pid) -> Result<(), NoMemory>
    ensures pushed { OnOk result (out.new.items ≡ out.old.items ++ plain.expel_line me other) }
    ensures unchanged { OnErr result (out.new.items ≡ out.old.items) }
{
    push_line(out, b"expel", &[process_word(me), process_word(other)])
}
