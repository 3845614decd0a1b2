//! What handlers ask of other invocations reaches them once. The functions do nothing: their contracts are the laws.
#![tactic(auto)]

ghost use Rattle.delivery_laws.specs.Answers.{AnswersStay};
ghost use Rattle.delivery_laws.specs.Posted.{AllReachOnce, CallsAreMade, DeliveriesAdvance, NoneHasIt, NumbersAscend, NumbersGrow, OutboxesAreStates, PostedAreAccepted, RowsAreApart, RowsAreOwed, SignalsArrive, StepsPost, ValuesArrive};

/// Whatever is asked for, whatever deliveries are tried, whatever is forgotten, and wherever it ends, the log stays one whose deliveries are those
/// of recorded requests that are owed, and all its events were accepted.
pub fn logs_stay_posted()
    ensures steps { StepsPost }
    ensures accepted { PostedAreAccepted }
{}

/// Each message reaches its target once: none does twice, and what was delivered is what is recorded. Until then it is owed.
pub fn messages_reach_once()
    ensures once { AllReachOnce }
    ensures made { CallsAreMade }
    ensures arrived { SignalsArrive }
    ensures valued { ValuesArrive }
    ensures advance { DeliveriesAdvance }
{}

/// The rows of an outbox, each put with its request's frame and dropped with its delivery, are what is owed. No number comes twice. They are kept as
/// the state of the object whose name is empty, which no invocation has.
pub fn rows_are_owed()
    ensures owed { RowsAreOwed }
    ensures apart { RowsAreApart }
    ensures ascend { NumbersAscend }
    ensures grow { NumbersGrow }
    ensures kept { OutboxesAreStates }
    ensures own { NoneHasIt }
{}

/// What a caller is told of one that is closed is its answer, whatever comes later, until it is forgotten.
pub fn answers_stay()
    ensures { AnswersStay }
{}
