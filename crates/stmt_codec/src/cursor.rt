//! The claims of a frame, one after another.
ghost use Rattle.std.specs.Prelude.{◌≡◌, [], IsOk, MatchOption, Ok};
ghost use Rattle.std.specs.Iterator.{YieldsFirstBy};
ghost use Rattle.frame_codec.specs.Views as frames;
ghost use Rattle.statements.specs.Views.{claim};
ghost use Rattle.stmt_codec.specs.Cursor.{all_left, groups_of, of_begun, of_group, with_first};

use frame_codec::{Group, Groups};
use statements::{Carrier, Claim, Pid, read_carried};

/// The claims that are left in a frame, by group and signer. They borrow the frame's bytes: a statement is read when its
/// claim is taken. That all can be read was found before the first one.
#[derive(Clone, Copy)]
pub struct Claims<'a> {
    pub(crate) carrier: Carrier,
    // the group of the claim taken last
    pub(crate) begun: Option<Group<'a>>,
    // those after it; of a Want, none
    pub(crate) groups: Option<Groups<'a>>,
    pub ghost readable: { IsOk (all_left carrier begun groups) },
}

// The first claim of a group, which is then without it.
fn first_of<'a>(carrier: Carrier, begun: &mut Group<'a>) -> Option<Claim<'a>>
    requires { IsOk (of_group carrier begun.old) }
    ensures { MatchOption result ((of_group carrier begun.old ≡ Ok []) × (of_group carrier begun.new ≡ Ok []))
        (λ c. of_group carrier begun.old ≡ with_first (claim c) (of_group carrier begun.new)) }
{
    let Some((signer, signature)) = begun.signatures.next() else {
        return None;
    };
    let Some(signer) = Pid::new(signer) else {
        unreachable!();
    };
    let Ok(statement) = read_carried(carrier, begun.statement) else {
        unreachable!();
    };
    Some(Claim {
        signer,
        statement,
        signature,
    })
}

// The next claim of the group that was begun, if one was.
fn next_begun<'a>(carrier: Carrier, begun: &mut Option<Group<'a>>) -> Option<Claim<'a>>
    requires { IsOk (of_begun carrier begun.old) }
    ensures { MatchOption result ((of_begun carrier begun.old ≡ Ok []) × (of_begun carrier begun.new ≡ Ok []))
        (λ c. of_begun carrier begun.old ≡ with_first (claim c) (of_begun carrier begun.new)) }
{
    match begun {
        Some(group) => first_of(carrier, group),
        None => None,
    }
}

fn next_group<'a>(groups: &mut Option<Groups<'a>>) -> Option<Group<'a>>
    ensures { YieldsFirstBy frames.group_view groups_of groups.old result groups.new }
{
    match groups {
        Some(groups) => groups.next(),
        None => None,
    }
}

impl<'a> Iterator for Claims<'a> {
    ghost use Rattle.std.specs.Iterator.{YieldsFirstBy, item_count};
    ghost use Rattle.statements.specs.Views.{claim};
    ghost use Rattle.stmt_codec.specs.Left.{claims_left};

    type Item = Claim<'a>;

    ghost next_gives = { YieldsFirstBy claim claims_left };

    ghost remaining = { item_count claims_left };

    fn next(&mut self) -> Option<Claim<'a>> {
        'groups: loop {
            if let Some(claim) = next_begun(self.carrier, &mut self.begun) {
                return Some(claim);
            }
            let Some(group) = next_group(&mut self.groups) else {
                return None;
            };
            self.begun = Some(group);
        }
    }
}
