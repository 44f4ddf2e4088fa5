//! What is due, signed: of one kind, and of all kinds in their order.
ghost use Rattle.std.specs.Prelude.{◌≡◌, ◌<◌, ◌≤◌, ◌-◌, ◌+◌, map, length, is_some, IfOk, IfSome, OnOk, MatchOption};
ghost use Rattle.std.specs.Bool.{OnFalse};
ghost use Rattle.std.specs.Option.{option_map};
ghost use Rattle.message_defs.specs.Packing.{signed_of};
ghost use Rattle.group_defs.specs.Process as defs;
ghost use Rattle.group_defs.specs.Due.{least_due};
ghost use Rattle.group_defs.specs.Signing as signing;
ghost use Rattle.stmt_codec.specs.Views.{signed as signed_by};
ghost use Rattle.member_state.specs.Below.{IsIn};
ghost use Rattle.due_statements.specs.AskedOf.{kind_of, IsAskedOf, IsSeated};
ghost use Rattle.member_state.specs.Marks.{Stays};
ghost use Rattle.member_state.specs.States.{IsStateOf, IsReal};
ghost use Rattle.member_signing.specs.Signed.{IsUndecided, IsOwed, IsSigned};

use crate::making::make;
use crate::putting::put;
use due_statements::{KINDS, Kind, RuleInputs, due};
use member_state::{Before, Phase, ProcessState};
use rp_base::{GroupId, NoMemory, Signer, Tally};
use std::alloc::Global;
use stmt_codec::OwnClaim;

// Whether the view is decided.
fn is_decided(phase: &Phase) -> bool
    ensures decided { (p : defs.Process) → IsIn phase.now p → result ≡ is_some p.decision }
    ensures undecided { OnFalse result (IsUndecided phase.now) }
{
    matches!(phase, Phase::DecidedView(_) | Phase::HaltedView(_))
}

// The process, as what is due is asked of it.
fn rule_inputs(state: &ProcessState) -> RuleInputs<'_>
    ensures stands { (s : defs.Setting) (p : defs.Process) → IsStateOf s p state.now → IsAskedOf s p result }
    ensures seated { IsReal state.now → IsSeated result }
{
    RuleInputs {
        pool: &state.pool,
        own: &state.own,
        perceived: &state.perceived,
        accepted: state.account.accepted.as_slice(),
        batch_limit: state.batch_limit,
    }
}

// Whether a statement of the kind is due.
fn is_due(state: &ProcessState, kind: Kind) -> bool
    requires { IsReal state.now }
    ensures { (s : defs.Setting) (p : defs.Process) → IsStateOf s p state.now → result ≡ is_some (least_due s p (kind_of kind)) }
{
    due_statements::is_due(&rule_inputs(state), kind)
}

// The own claim on the least statement of the kind that is due, where one is. A signature is left.
fn next<G: Signer>(
    state: &ProcessState,
    alloc: Global,
    group: &GroupId,
    signer: &mut G,
    kind: Kind,
) -> Result<Option<OwnClaim>, NoMemory>
    requires real { IsReal state.now }
    requires left { G.Tally.used signer.old < G.Tally.total signer.old }
    ensures next { (s : defs.Setting) (p : defs.Process) → s.group ≡ group.now → length p.signed ≡ G.Tally.used signer.old
        → IsStateOf s p state.now → IfOk result
        (λ own. option_map signed_by own
        ≡ option_map (λ st. signed_of (signing.own_claim s (G.signature signer.old) p st)) (least_due s p (kind_of kind))) }
    ensures owed { IfOk result (λ own. IfSome own (IsOwed state.now)) }
    ensures used { IfOk result (λ own. MatchOption own (G.Tally.used signer.new ≡ G.Tally.used signer.old)
        (λ _. G.Tally.used signer.new ≡ G.Tally.used signer.old + 1)) }
    ensures rises { G.Tally.used signer.old ≤ G.Tally.used signer.new }
    ensures total { G.Tally.total signer.new ≡ G.Tally.total signer.old }
    ensures secret { G.signature signer.new ≡ G.signature signer.old }
    ensures key { G.public signer.new ≡ G.public signer.old }
{
    let Some(statement) = due(&rule_inputs(state), kind) else {
        return Ok(None);
    };
    let own = make(alloc, group, state.own.me, &statement, signer)?;
    Ok(Some(own))
}

// Signs the least statement of the kind that is due, again and again, until none is due or no signature is left. The answer
// is whether one more was due then.
fn sign_kind<G: Signer>(
    state: &mut ProcessState,
    alloc: Global,
    group: &GroupId,
    signer: &mut G,
    signed: &mut Vec<OwnClaim>,
    kind: Kind,
) -> Result<bool, NoMemory>
    requires real { IsReal state.old }
    requires undecided { IsUndecided state.old.phase }
    ensures signs { (s : defs.Setting) (p : defs.Process) → s.group ≡ group.now → length p.signed ≡ G.Tally.used signer.old
        → IsStateOf s p state.old → IfOk result
        (IsSigned s p (signing.sign_kind s (G.signature signer.old) (kind_of kind)
        (G.Tally.total signer.old - G.Tally.used signer.old) p) state.new (G.Tally.total signer.old) (G.Tally.used signer.new)
        (map signed_by signed.old.items) (map signed_by signed.new.items)) }
    ensures real { OnOk result (IsReal state.new) }
    ensures undecided { OnOk result (IsUndecided state.new.phase) }
    ensures rises { G.Tally.used signer.old ≤ G.Tally.used signer.new }
    ensures total { G.Tally.total signer.new ≡ G.Tally.total signer.old }
    ensures secret { G.signature signer.new ≡ G.signature signer.old }
    ensures key { G.public signer.new ≡ G.public signer.old }
    ensures stays { (b : Before) (was : ProcessState) → Stays b was state.old → Stays b was state.new }
    ensures left { state.new.left ≡ state.old.left }
{
    'signatures: while signer.used() < signer.total() {
        let due = next(state, alloc, group, signer, kind)?;
        match due {
            None => return Ok(false),
            Some(own) => {
                put(state, &own)?;
                signed.push(own)?;
            }
        }
    }
    Ok(is_due(state, kind))
}

// The same, which looks first whether one is due at all: mostly none is.
fn sign_any<G: Signer>(
    state: &mut ProcessState,
    alloc: Global,
    group: &GroupId,
    signer: &mut G,
    signed: &mut Vec<OwnClaim>,
    kind: Kind,
) -> Result<bool, NoMemory>
    requires real { IsReal state.old }
    requires undecided { IsUndecided state.old.phase }
    ensures signs { (s : defs.Setting) (p : defs.Process) → s.group ≡ group.now → length p.signed ≡ G.Tally.used signer.old
        → IsStateOf s p state.old → IfOk result
        (IsSigned s p (signing.sign_kind s (G.signature signer.old) (kind_of kind)
        (G.Tally.total signer.old - G.Tally.used signer.old) p) state.new (G.Tally.total signer.old) (G.Tally.used signer.new)
        (map signed_by signed.old.items) (map signed_by signed.new.items)) }
    ensures real { OnOk result (IsReal state.new) }
    ensures undecided { OnOk result (IsUndecided state.new.phase) }
    ensures rises { G.Tally.used signer.old ≤ G.Tally.used signer.new }
    ensures total { G.Tally.total signer.new ≡ G.Tally.total signer.old }
    ensures secret { G.signature signer.new ≡ G.signature signer.old }
    ensures key { G.public signer.new ≡ G.public signer.old }
    ensures stays { (b : Before) (was : ProcessState) → Stays b was state.old → Stays b was state.new }
    ensures left { state.new.left ≡ state.old.left }
{
    if is_due(state, kind) {
        return sign_kind(state, alloc, group, signer, signed, kind);
    }
    Ok(false)
}

// Signs what is due of these kinds, one kind after the other, until a signature is missing. The answer is whether one was.
fn sign_kinds<G: Signer>(
    state: &mut ProcessState,
    alloc: Global,
    group: &GroupId,
    signer: &mut G,
    signed: &mut Vec<OwnClaim>,
    kinds: &[Kind],
) -> Result<bool, NoMemory>
    requires real { IsReal state.old }
    requires undecided { IsUndecided state.old.phase }
    ensures signs { (s : defs.Setting) (p : defs.Process) → s.group ≡ group.now → length p.signed ≡ G.Tally.used signer.old
        → IsStateOf s p state.old → IfOk result
        (IsSigned s p (signing.sign_kinds s (G.signature signer.old) (map kind_of kinds.now)
        (G.Tally.total signer.old - G.Tally.used signer.old) p) state.new (G.Tally.total signer.old) (G.Tally.used signer.new)
        (map signed_by signed.old.items) (map signed_by signed.new.items)) }
    ensures real { OnOk result (IsReal state.new) }
    ensures rises { G.Tally.used signer.old ≤ G.Tally.used signer.new }
    ensures total { G.Tally.total signer.new ≡ G.Tally.total signer.old }
    ensures secret { G.signature signer.new ≡ G.signature signer.old }
    ensures key { G.public signer.new ≡ G.public signer.old }
    ensures stays { (b : Before) (was : ProcessState) → Stays b was state.old → Stays b was state.new }
    ensures left { state.new.left ≡ state.old.left }
{
    'kinds: for kind in kinds {
        let lacks = sign_any(state, alloc, group, signer, signed, *kind)?;
        if lacks {
            return Ok(true);
        }
    }
    Ok(false)
}

/// Signs what is due, kind after kind, in each the least statement again and again, until none is due or a signature is missing.
/// The answer is whether one was. Each claim is heard, noted and kept in the state, and put at the end of `signed`. In a decided view
/// nothing is signed. Without memory a part of what is due is signed, and is in the state.
pub fn sign_all<G: Signer>(
    state: &mut ProcessState,
    alloc: Global,
    group: &GroupId,
    signer: &mut G,
    signed: &mut Vec<OwnClaim>,
) -> Result<bool, NoMemory>
    requires real { IsReal state.old }
    ensures signs { (s : defs.Setting) (p : defs.Process) → s.group ≡ group.now → s.signs ≡ defs.all_kinds
        → length p.signed ≡ G.Tally.used signer.old → IsStateOf s p state.old
        → IfOk result (IsSigned s p (signing.sign_all s (G.signature signer.old)
        (G.Tally.total signer.old - G.Tally.used signer.old) p) state.new (G.Tally.total signer.old) (G.Tally.used signer.new)
        (map signed_by signed.old.items) (map signed_by signed.new.items)) }
    ensures real { OnOk result (IsReal state.new) }
    ensures rises { G.Tally.used signer.old ≤ G.Tally.used signer.new }
    ensures total { G.Tally.total signer.new ≡ G.Tally.total signer.old }
    ensures secret { G.signature signer.new ≡ G.signature signer.old }
    ensures key { G.public signer.new ≡ G.public signer.old }
    ensures stays { (b : Before) (was : ProcessState) → Stays b was state.old → Stays b was state.new }
    ensures left { state.new.left ≡ state.old.left }
{
    if is_decided(&state.phase) {
        return Ok(false);
    }
    sign_kinds(state, alloc, group, signer, signed, &KINDS)
}
