//! What holds of the store in words, over the definitions alone: each is the contract of a function with an empty body.
#![tactic(auto)]

ghost use Rattle.store_text_defs.specs.Laws.{AnswerIsRead, OneOutcome, PayloadIsReported, RequestIsRead, WordsAreRequest};
ghost use Rattle.store_text_laws.specs.Reported.{AcceptedIsReported, DeliveryIsReported, ReplyIsReported, StateIsReported};

/// A request's spelling is read as the request.
pub fn request_is_read()
    ensures { RequestIsRead }
{}

/// A request in words becomes the line that submits it.
pub fn words_are_request()
    ensures { WordsAreRequest }
{}

/// An answer's bytes are read as the answer.
pub fn answer_is_read()
    ensures { AnswerIsRead }
{}

/// A payload that is a request is written as the request in words.
pub fn payload_is_reported()
    ensures { PayloadIsReported }
{}

/// An input has one output, or one first faulty line.
pub fn one_outcome()
    ensures { OneOutcome }
{}

/// After a delivery comes what its payload asks.
pub fn delivery_is_reported()
    ensures { DeliveryIsReported }
{}

/// After a reply comes where it is from, what was asked and what was answered.
pub fn reply_is_reported()
    ensures { ReplyIsReported }
{}

/// After a state come its view, and each key with its value.
pub fn state_is_reported()
    ensures { StateIsReported }
{}

/// After an answer of `ask` comes what it says.
pub fn accepted_is_reported()
    ensures { AcceptedIsReported }
{}
