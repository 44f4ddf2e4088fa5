//! A decided view is left: the process waits for what is left below the cut, installs the next view, or halts beyond the cut.
ghost use Rattle.std.specs.Prelude.{◌≡◌, ◌+◌, ◌<◌, ◌≤◌, ◌++◌, None, false, List, ◌∷◌, [], length, map, count_by, ◌==◌, Some, OnOk, OnErr, IfOk};
ghost use Rattle.message_defs.specs.Statements.{Ready, ReadyAt};
ghost use Rattle.message_defs.specs.Updates as plain;
ghost use Rattle.std.specs.Result.{result_ok};
ghost use Rattle.std.specs.Vec.{vec_capacity, vec_len};
ghost use Rattle.group_defs.specs.Views as views;
ghost use Rattle.group_defs.specs.Views.{next_view};
ghost use Rattle.group_defs.specs.Process as defs;
ghost use Rattle.group_defs.specs.Process.{Setting, Process, delivered_from};
ghost use Rattle.group_defs.specs.Certified.{certificate, is_ended, value_at};
ghost use Rattle.group_defs.specs.Settle as settle;
ghost use Rattle.group_defs.specs.Events.{Installs};
ghost use Rattle.rp_base.specs.Views as base;
ghost use Rattle.rp_base.specs.Views.{value};
ghost use Rattle.accounts.specs.Views.{account as reported, delivery};
ghost use Rattle.claim_index.specs.Kept.{empty_pool};
ghost use Rattle.own_place.specs.Owns.{IsOwnOf};
ghost use Rattle.member_state.specs.Parts.{has_update};
ghost use Rattle.member_state.specs.Below.{Begins, counts, decision_of, IsIn};
ghost use Rattle.member_state.specs.Parts.{all_signed, IsRanged};
ghost use Rattle.member_state.specs.Events.{note};
ghost use Rattle.member_state.specs.Marks.{Stays, Since};
ghost use Rattle.member_state.specs.States.{IsStateOf, IsReal};
ghost use Rattle.member_settling.specs.Steps.{in_phase, IsLeaving, CanLeave, Leaves};
ghost use Rattle.member_settling.specs.Begun.{IsLast, HasShortLast};

use arrayvec::ArrayVec;
use member_events::Note;
use member_state::{
    Account, Before, ClaimList, DecidedView, Decision, Delivered, Displaced, LeftView, Own,
    Perceived, Phase, Pool, ProcessState, SaidBefore, Settled, begin_view,
};
use rp_base::{NoMemory, Pid, Update};
use std::alloc::Global;
use std::mem;
use view_table::{View, next};

// How many places count as delivered: a member's own, and the cut of one who is no member.
fn counted(pool: &Pool, own: &Own, decided: &DecidedView) -> u16
    ensures { (s : Setting) (p : Process) → IsOwnOf s p pool.now.pool own.now → result ≡ counts p decided.now }
{
    if pool.view().is_member(own.me) {
        own.delivered
    } else {
        decided.decision().value.cut
    }
}

// How many of these messages are the process's.
fn count_own(delivered: &[Delivered], me: Pid) -> u16
    requires { length delivered.now ≤ 65535 }
    ensures { result ≡ count_by (λ d. d.sender == me) delivered.now }
{
    delivered.iter().filter(|d| d.sender == me).count() as u16
}

// How many own messages were delivered in the current view, whose list is the account's last one.
fn own_delivered(account: &Account) -> u16
    requires { HasShortLast (reported account.now).delivered }
    ensures { (ds : List defs.Delivered) → IsLast (reported account.now).delivered ds → result ≡ delivered_from account.now.me ds }
{
    match account.delivered.last() {
        Some(delivered) => count_own(delivered, account.me),
        None => 0,
    }
}

// Puts the view, in which nothing is delivered yet, after those of the account. Without memory, the account is as before.
fn put_view(account: &mut Account, view: &View, alloc: Global) -> Result<(), NoMemory>
    ensures put { OnOk result (reported account.new
        ≡ record (reported account.old) {
          views = (reported account.old).views ++ view.now ∷ [];
          delivered = (reported account.old).delivered ++ [] ∷ [];
        }) }
    ensures same { OnErr result (reported account.new ≡ reported account.old) }
{
    account.views.push(view.clone()?)?;
    match account.delivered.push(Vec::new(alloc)) {
        Ok(()) => Ok(()),
        Err(_) => {
            account.views.pop();
            Err(NoMemory)
        }
    }
}

// Turns to the view, puts it after those of the account, and keeps the pool and the commit certificate of the one that is left, with room
// for what was said there. The pool that was kept before is handed out. Without memory, all of it is as before.
fn keep_left(
    state: &mut ProcessState,
    view: &View,
    decision: Decision,
    alloc: Global,
) -> Result<Displaced, NoMemory>
    requires range { IsRanged state.old.pool.pool }
    requires certified { value_at state.old.pool.pool (ReadyAt state.old.pool.pool.view.number decision.rank)
        ≡ Some (value decision.value) }
    requires order { state.old.pool.pool.view.number ≡ length state.old.archive.commits }
    ensures begins { OnOk result (state.new.pool.pool ≡ empty_pool view.now) }
    ensures previous { OnOk result (state.new.archive.previous ≡ Some state.old.pool.pool) }
    ensures marked { OnOk result (state.new.archive.marked ≡ Some state.old.pool.marked) }
    ensures commits { OnOk result (state.new.archive.commits ≡ state.old.archive.commits
        ++ all_signed (certificate state.old.pool.pool (Ready state.old.pool.pool.view.number decision.rank (value decision.value))) ∷ []) }
    ensures older { IfOk result (λ older. older ≡ state.old.archive.previous) }
    ensures put { OnOk result (reported state.new.account
        ≡ record (reported state.old.account) {
          views = (reported state.old.account).views ++ view.now ∷ [];
          delivered = (reported state.old.account).delivered ++ [] ∷ [];
        }) }
    ensures room { OnOk result (vec_len state.new.said_before < vec_capacity state.new.said_before) }
    ensures lists { state.new.said_before.items ≡ state.old.said_before.items }
    ensures same { OnErr result ((state.new.pool ≡ state.old.pool) × (state.new.archive ≡ state.old.archive)
        × (reported state.new.account ≡ reported state.old.account)) }
    ensures rest { state.new ≡ record state.old {
      pool = state.new.pool;
      said_before = state.new.said_before;
      archive = state.new.archive;
      account = state.new.account;
    } }
{
    state.said_before.reserve(1)?;
    let begun = Pool::new(alloc, view.clone()?)?;
    put_view(&mut state.account, view, alloc)?;
    match state
        .archive
        .keep_view(&mut state.pool, begun, (decision.rank, decision.value))
    {
        Ok(older) => Ok(older),
        Err(refused) => {
            state.account.drop_last();
            Err(refused)
        }
    }
}

// Puts what was said in the view that is left after what was said before it, for good. Nothing is said in the next one yet. It takes no
// memory: there is room for one list.
fn keep_said(
    said_before: &mut Vec<SaidBefore>,
    said: &mut ClaimList,
    from: &mut usize,
    alloc: Global,
)
    requires { vec_len said_before.old < vec_capacity said_before.old }
    ensures kept { said_before.new.items ≡ said_before.old.items ++ record { claims = said.old; from = from.old } ∷ [] }
    ensures begins { said.new.claims ≡ [] }
    ensures none { from.new ≡ 0 }
{
    let claims = mem::replace(said, ClaimList::new(alloc));
    let from = mem::replace(from, 0);
    said_before.push_reserved(SaidBefore { claims, from });
}

// Begins the view: nothing is signed, delivered or asked for there. `mine` own messages more are of views before it. What was said in the
// view that is left is kept for good; which slots were signed there, for the way back, and with it the pool that was kept before.
fn begin(state: &mut ProcessState, view: &View, mine: u16, older: Displaced, alloc: Global)
    requires mine { state.old.own.earlier + mine ≤ 4294967295 }
    requires room { vec_len state.old.said_before < vec_capacity state.old.said_before }
    ensures own { Begins view.now state.old.own state.new.own mine }
    ensures asked { (u : plain.Update) → has_update state.new.perceived u ≡ false }
    ensures said { state.new.said.claims ≡ [] }
    ensures from { state.new.said_from ≡ 0 }
    ensures kept { state.new.said_before.items
        ≡ state.old.said_before.items ++ record { claims = state.old.said; from = state.old.said_from } ∷ [] }
    ensures phase { (p : Process) → p.pool.view ≡ view.now → p.me ≡ state.old.own.me → p.halted ≡ false → p.decision ≡ None
        → is_ended p ≡ false → IsIn state.new.phase p }
    ensures left { state.new.left ≡ Some (record { signed = state.old.own.signed; older = older }) }
    ensures rest { state.new ≡ record state.old {
      own = state.new.own;
      perceived = state.new.perceived;
      said = state.new.said;
      said_from = state.new.said_from;
      said_before = state.new.said_before;
      phase = state.new.phase;
      left = state.new.left;
    } }
{
    state.phase = Phase::begin(view, state.own.me);
    state.perceived = Perceived::new();
    keep_said(
        &mut state.said_before,
        &mut state.said,
        &mut state.said_from,
        alloc,
    );
    let signed = begin_view(&mut state.own, view, mine, alloc);
    state.left = Some(LeftView { signed, older });
}

// That the view is installed.
fn installed(view: &View) -> Note
    ensures { note result ≡ Installs view.now }
{
    Note::Installed {
        view: view.number(),
        members: ArrayVec::try_from(view.members()).unwrap(),
    }
}

// Goes on to this view, which follows by the update that is decided.
fn enter(
    state: &mut ProcessState,
    view: View,
    decision: Decision,
    alloc: Global,
    notes: &mut Vec<Note>,
) -> Result<(), NoMemory>
    requires can { CanLeave (decision_of decision) state.old }
    requires here { state.old.left ≡ None }
    ensures leaves { (s : Setting) (p : Process) → IsLeaving s p (decision_of decision) state.old
        → view ≡ next_view p.pool.view (value decision.value).update
        → OnOk result (Leaves s p (settle.install (decision_of decision) p) state.new notes.old.items notes.new.items) }
    ensures since { (b : Before) (was : ProcessState) → Stays b was state.old → Since b was state.new }
{
    let mine = own_delivered(&state.account);
    notes.push(installed(&view))?;
    let older = keep_left(state, &view, decision, alloc)?;
    begin(state, &view, mine, older, alloc);
    Ok(())
}

// The view that follows by the update; None exactly where none does.
fn view_behind(pool: &Pool, update: Update) -> Option<View>
    ensures { result ≡ result_ok (views.next pool.now.pool.view (base.update update)) }
{
    match next(pool.view(), update) {
        Ok(view) => Some(view),
        Err(_) => None,
    }
}

// Installs the view that follows by the update that is decided.
fn install(
    state: &mut ProcessState,
    decision: Decision,
    update: Update,
    alloc: Global,
    notes: &mut Vec<Note>,
) -> Result<(), NoMemory>
    requires real { CanLeave (decision_of decision) state.old }
    requires same { update ≡ decision.value.update }
    requires here { state.old.left ≡ None }
    ensures leaves { (s : Setting) (p : Process) → IsLeaving s p (decision_of decision) state.old
        → OnOk result (Leaves s p (settle.install (decision_of decision) p) state.new notes.old.items notes.new.items) }
    ensures since { (b : Before) (was : ProcessState) → Stays b was state.old → Since b was state.new }
{
    let behind = view_behind(&state.pool, update);
    match behind {
        Some(view) => enter(state, view, decision, alloc, notes),
        None => Ok(()),
    }
}

// Leaves the view that is decided so, where it may be left. The state's phase is none yet.
fn leave_decided(
    state: &mut ProcessState,
    decided: DecidedView,
    alloc: Global,
    notes: &mut Vec<Note>,
) -> Result<(), NoMemory>
    requires real { IsReal (in_phase (Phase.DecidedView decided) state.old) }
    requires here { state.old.left ≡ None }
    ensures leaves { (s : Setting) (p : Process) → IsStateOf s p (in_phase (Phase.DecidedView decided) state.old)
        → OnOk result (Leaves s p (settle.leave p) state.new notes.old.items notes.new.items) }
    ensures since { (b : Before) (was : ProcessState) → Stays b was state.old → Since b was state.new }
{
    let decision = decided.decision();
    let delivered = counted(&state.pool, &state.own, &decided);
    match decided.settle(delivered) {
        Settled::Waiting(decided) => {
            state.phase = Phase::DecidedView(decided);
            Ok(())
        }
        Settled::Install(update) => install(state, decision, update, alloc, notes),
        Settled::Halted(halted) => {
            state.phase = Phase::HaltedView(halted);
            Ok(())
        }
    }
}

/// Leaves the view, where it is decided: a member waits below the cut, installs the next view at it, and halts beyond it. Others
/// install the next view.
pub(crate) fn leave(
    state: &mut ProcessState,
    alloc: Global,
    notes: &mut Vec<Note>,
) -> Result<(), NoMemory>
    requires real { IsReal state.old }
    requires here { state.old.left ≡ None }
    ensures leaves { (s : Setting) (p : Process) → IsStateOf s p state.old
        → OnOk result (Leaves s p (settle.leave p) state.new notes.old.items notes.new.items) }
    ensures since { (b : Before) (was : ProcessState) → Stays b was state.old → Since b was state.new }
{
    match state.phase.take() {
        Phase::DecidedView(decided) => leave_decided(state, decided, alloc, notes),
        phase => {
            state.phase = phase;
            Ok(())
        }
    }
}
