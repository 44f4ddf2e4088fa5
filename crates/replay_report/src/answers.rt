//! The answers at the end of a report.
ghost use Rattle.std.specs.Prelude.{IfOk};
ghost use Rattle.replay_defs.specs.Schedules.{Header};
ghost use Rattle.replay_defs.specs.Worlds as plain;
ghost use Rattle.replay_defs.specs.Worlds.{family_of};
ghost use Rattle.replay_questions.specs.Worlds.{Shows};
ghost use Rattle.replay_report.specs.Answered.{AreAnswers};

use crate::process_reports::{accounts_of, numbers_of};
use group_questions::{agree, bounded};
use replay_questions::{World, honest};
use report_lines::Answers;
use rp_base::NoMemory;
use sound_question::sound;
use std::alloc::Global;

/// The two premises of the theorems, and what follows from them, of a world.
pub(crate) fn answers_of(alloc: Global, world: &World) -> Result<Answers, NoMemory>
    ensures { (h : Header) (v : plain.World) → Shows h world.now v → IfOk result (AreAnswers (family_of h v)) }
{
    let players = world.players();
    let accounts = accounts_of(alloc, players)?;
    let reported = accounts.as_slice();
    Ok(Answers {
        honest: honest(world),
        bounded: bounded(reported, numbers_of(players)),
        agree: agree(reported),
        sound: sound(reported, world.roster().processes()),
    })
}
