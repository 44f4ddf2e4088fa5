//! What a node lets out of a turn, and its calls: laws over the definitions alone, each the contract of a function with an empty body.
#![tactic(auto)]

ghost use Rattle.letting_laws.specs.Letting.{EachLetsOut, EachPosts, LetOutInARow};

/// A node that is given an answer for each of the first things that its turn lets out makes just these calls, in this order. It is then as
/// it was but for the lines that wait, and the others are left.
pub fn each_lets_out()
    ensures { EachLetsOut }
{}

/// What was let out one after the other is let out together.
pub fn let_out_in_a_row()
    ensures { LetOutInARow }
{}

/// What a service sends goes out as the letters of a turn do.
pub fn each_posts()
    ensures { EachPosts }
{}
