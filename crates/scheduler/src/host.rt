//! What a program brings: the handlers of its invocations, and who executes their effects.
use bytes::ByteStr;
use schedule_model::Effects;

/// A host: it knows the handler of each invocation, and executes effects.
///
/// `gives` may say which handler that is. It says nothing where it is left out.
pub trait Host<H>: Effects {
    ghost use Rattle.journal_model.specs.Notification.{Text};

    ghost gives: { Text → Self → H → Self → Type 0 } = { λ id before handler after. Unit {0} };

    /// The handler of this invocation.
    fn handler(&mut self, invocation: &ByteStr) -> H
        ensures { gives invocation.now self.old result self.new };
}
