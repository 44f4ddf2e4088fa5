//! Laws of a node: what a stop at any moment leaves of it, and what nodes are that were stopped and opened again. Each is the contract of a
//! function with an empty body.
#![tactic(auto)]

ghost use Rattle.node_defs.specs.Lives.{KeptGrows, StaysSound, OpensSound, LeavesFit, LivesOn, NothingLost, RestartsAreFamily, RestartsAgree, OneBodyPerNumber, KeysSignInOrder};

/// What the journal holds for good stays in it.
pub fn kept_grows()
    ensures { KeptGrows }
{}

/// At each moment the hosted processes are what their entries make of them, and what goes out is of turns whose entries are kept for good.
pub fn stays_sound()
    ensures { StaysSound }
{}

/// A node that is opened on entries that fit goes on after them.
pub fn opens_sound()
    ensures { OpensSound }
{}

/// What a stop leaves at any moment is opened again.
pub fn leaves_fit()
    ensures { LeavesFit }
{}

/// A node may be stopped and opened again as often as may be: no entry that was kept for good is lost.
pub fn lives_on()
    ensures { LivesOn }
{}

/// What goes out is of turns whose entries are found for sure, whatever comes.
pub fn nothing_lost()
    ensures { NothingLost }
{}

/// The processes of nodes that were stopped and opened again are processes of a family.
pub fn restarts_are_family()
    ensures { RestartsAreFamily }
{}

/// Nodes that were stopped and opened again agree, under the premises of agreement.
pub fn restarts_agree()
    ensures { RestartsAgree }
{}

/// No number of a key is used for two statements that went out.
pub fn one_body_per_number()
    ensures { OneBodyPerNumber }
{}

/// The claim at a place of a signed list is made with the number of that place, whatever stops came before.
pub fn keys_sign_in_order()
    ensures { KeysSignInOrder }
{}
