//! The rows of slots of a view.
ghost use Rattle.std.specs.Prelude.{◌≡◌, ◌<◌};
ghost use Rattle.claim_index.specs.Statements.{stmt};
ghost use Rattle.own_place.specs.Rows as rows;

use claim_index::{Pid, Statement};

/// The slots of one kind of a view that differ in one number: those of the Inits, of the Places, of the Keeps, or of the Echoes of one
/// sender's messages.
#[derive(Clone, Copy)]
pub(crate) enum Row {
    Inits,
    Places,
    Keeps,
    Echoes(Pid),
}

/// How many rows there are.
pub(crate) const ROWS: usize = 67;

impl Row {
    /// The row's place among them.
    pub(crate) fn index(&self) -> usize
        ensures place { result ≡ rows.index_of self.now }
        ensures below { result < 67 }
    {
        match *self {
            Row::Inits => 0,
            Row::Places => 1,
            Row::Keeps => 2,
            Row::Echoes(sender) => sender.get() as usize + 3,
        }
    }
}

/// The row of the statement's slot; None exactly where its kind has no rows.
pub(crate) fn row_of(statement: &Statement<'_>) -> Option<Row>
    ensures { result ≡ rows.row_of (stmt statement.now) }
{
    match *statement {
        Statement::Init { .. } => Some(Row::Inits),
        Statement::Echo { sender, .. } => Some(Row::Echoes(sender)),
        Statement::Place { .. } => Some(Row::Places),
        Statement::Keep { .. } => Some(Row::Keeps),
        _ => None,
    }
}
