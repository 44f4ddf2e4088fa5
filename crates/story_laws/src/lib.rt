//! What holds of stories, as a law of the definitions.
#![tactic(auto)]

ghost use Rattle.story_laws.specs.Laws.{TextIsStory};

/// The text of a schedule assembles to the schedule.
pub fn text_is_story()
    ensures { TextIsStory }
{}
