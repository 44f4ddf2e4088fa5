//! Lists of claims of one process, without memory.
use arrayvec::ArrayVec;
use rp_base::Pid;
use stmt_codec::{Claim, Statement};

/// A claim that can be kept in a list of a fixed size.
#[derive(Clone, Copy)]
pub(crate) struct Own<'a>(pub(crate) Claim<'a>);

/// What lies in the unused room of such a list.
impl Default for Own<'_> {
    fn default() -> Self {
        Own(Claim {
            signer: Pid::default(),
            statement: Statement::End { view: 0, length: 0 },
            signature: &[],
        })
    }
}

/// Claims of one process, in the order of the frame: at most one of each group, since the signers of a group rise, and a frame has at
/// most so many groups.
pub(crate) type OwnClaims<'a> = ArrayVec<Own<'a>, 255>;
