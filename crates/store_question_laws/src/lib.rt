//! What holds of the input of `ask` that is made of lines, over the definitions alone: each is the contract of a function with an empty body.
#![tactic(auto)]

ghost use Rattle.store_question_defs.specs.Laws.{AnswerIsOfAll, QuestionIsAsked};

/// What is made of an input asks the question that its lines make.
pub fn question_is_asked()
    ensures { QuestionIsAsked }
{}

/// The answer to this question is what all replies in the lines say.
pub fn answer_is_of_all()
    ensures { AnswerIsOfAll }
{}
