//! What a method answers to the one message of a request.

ghost use Rattle.std.specs.Prelude.{◌≡◌};
ghost use Rattle.instance_core.specs.Carries.{shaped};
ghost use Rattle.instance_core.specs.declared.answer.Answer.TheVariants.{Message, Messages, Range};

use bytestream::Source;
use cas_service::CallError;
use std::rc::Rc;

/// What a method answers.
#[derive(Drop)]
pub enum Answer {
    /// One message.
    Message(Vec<u8>),
    /// The Operation of an execution that is done, which is kept: its bytes are shared.
    Operation(Rc<Vec<u8>>),
    /// Messages, in order.
    Messages(Vec<Vec<u8>>),
    /// A range of a blob, whose text is held.
    Range(Source),
    /// The present Operation of the job of a number, which others follow.
    Watching(u64, Vec<u8>),
}

/// An answer of one message, where there is one.
pub fn one_message(outcome: Result<Vec<u8>, CallError>) -> Result<Answer, CallError>
    ensures { result ≡ shaped Message outcome }
{
    Ok(Answer::Message(outcome?))
}

/// An answer of messages, where there is one.
pub fn messages(outcome: Result<Vec<Vec<u8>>, CallError>) -> Result<Answer, CallError>
    ensures { result ≡ shaped Messages outcome }
{
    Ok(Answer::Messages(outcome?))
}

/// An answer of a range, where there is one.
pub fn range(outcome: Result<Source, CallError>) -> Result<Answer, CallError>
    ensures { result ≡ shaped Range outcome }
{
    Ok(Answer::Range(outcome?))
}
