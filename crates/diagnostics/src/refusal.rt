//! A refusal with its message.

ghost use Rattle.std.specs.Prelude.{◌≡◌, MatchResult};
ghost use Rattle.diagnostics.specs.declared.refusal.RefusalMessage.TheVariants.{Message, Error};

use std::alloc::AllocError;
use std::fmt;

/// A refusal: its message, or, where memory runs out for that, its error.
#[derive(Debug, Drop)]
pub enum RefusalMessage<E> {
    Message(String),
    Error(E),
}

impl<E: Drop> RefusalMessage<E> {
    /// The refusal for an error, with this message if it could be made.
    pub fn new(text: Result<String, AllocError>, error: E) -> RefusalMessage<E>
        ensures { MatchResult text (λ text. result ≡ Message text)
            (λ _. result ≡ Error error) }
    {
        match text {
            Ok(text) => RefusalMessage::Message(text),
            Err(_) => RefusalMessage::Error(error),
        }
    }
}

impl<E: fmt::Display> fmt::Display for RefusalMessage<E> {
    fn fmt<W: fmt::Write>(&self, f: &mut fmt::Formatter<W>) -> fmt::Result {
        match self {
            RefusalMessage::Message(text) => write!(f, "{text}"),
            RefusalMessage::Error(error) => write!(f, "{error}"),
        }
    }
}
