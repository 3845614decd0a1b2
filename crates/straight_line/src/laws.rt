//! What holds of every straight-line handler: each function does nothing, and its contract is the law.
ghost use Rattle.straight_line.specs.Laws as laws;
ghost use Rattle.straight_line.specs.TakenValues as takes;
ghost use Rattle.straight_line.specs.FittingAnswers as fitting;

/// The next call of a handler that makes a call first is that call, until it has an answer, and then the next call of what follows.
pub fn calls_come_in_order()
    ensures { laws.CallsComeInOrder }
{}

/// Each answer of a run is of its call's kind, whatever the handler is.
pub fn answers_are_of_kind()
    ensures { laws.AnswersAreOfKind }
{}

/// No call goes astray on an answer of its kind, but a take by what has come.
pub fn calls_stay_on()
    ensures { laws.CallsStayOn }
{}

/// What a take brings is of the kind of the call that has made its handle, where all that came was of the kind that was asked for.
pub fn takes_are_of_kind()
    ensures { takes.TakesAreOfKind }
{}

/// A take brings something behind an await of its handle alone, and behind a look that has found it.
pub fn takes_bring_something()
    ensures { takes.TakesBring }
{}

/// No take goes astray on a value of its kind.
pub fn takes_stay_on()
    ensures { takes.TakesStayOn }
{}

/// A handler that goes astray on no answers that fit its calls never does in a run: all that a run gives fit, where all that came was of
/// the kind that was asked for.
pub fn never_goes_astray()
    ensures { fitting.NeverGoesAstray }
{}
