//! Whether a claim is its signer's own word.
ghost use Rattle.std.specs.Prelude.{◌≡◌};
ghost use Rattle.message_defs.specs.Spelling.{IsStatement, spelling};
ghost use Rattle.stmt_codec.specs.Views.{stmt};
ghost use Rattle.replay_questions.specs.Words as words;

use replay_world::Player;
use stmt_codec::{Claim, STATEMENT_BYTES, spell_into};

// Whether the process is not this signer, or said the statement with these bytes.
fn is_word_of(player: &Player, signer: u8, spelled: &[u8]) -> bool
    ensures { result ≡ words.says signer spelled.now player.now }
{
    player.process.get() != signer || player.said.says(spelled)
}

/// Whether the signer is none of these, or said the statement with these bytes.
pub(crate) fn is_word_of_all(players: &[Player], signer: u8, spelled: &[u8]) -> bool
    ensures { result ≡ words.is_word players.now signer spelled.now }
{
    players
        .iter()
        .all(|player| is_word_of(player, signer, spelled))
}

/// Whether the claim's signer is none of these, or said its statement.
pub(crate) fn is_word(players: &[Player], claim: &Claim<'_>) -> bool
    requires { IsStatement (stmt claim.now.statement) }
    ensures { result ≡ words.is_word players.now claim.now.signer (spelling (stmt claim.now.statement)) }
{
    let mut spelled = [0; STATEMENT_BYTES];
    let said = spell_into(&claim.statement, &mut spelled);
    is_word_of_all(players, claim.signer.get(), &spelled[..said])
}
