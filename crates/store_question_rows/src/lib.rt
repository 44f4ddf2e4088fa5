//! Rows of the input of `ask` that is made of lines, computed by the definitions: each is the contract of a function with an empty body.
#![tactic(auto)]

ghost use Rattle.store_question_rows.specs.Rows.{QuestionOfTwoRequests};

/// What a process that is alone in its view wrote of two requests, and what `ask` is to read for the second one.
pub fn question_of_two_requests()
    ensures { QuestionOfTwoRequests }
{}
