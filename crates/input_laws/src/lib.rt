//! What was an attempt told, and how often does a completion come? Laws of an attempt's input, of what it was handed and of what it has
//! read. The functions do nothing: their contracts are the laws.
#![tactic(auto)]

ghost use Rattle.input_laws.specs.Laws.{HandedIsRead, InputsAreMessages, ReadIsHanded};
ghost use Rattle.input_laws.specs.CompletionsOnce.{CompletionsComeWhenAsked, CompletionsRecordedOnce};

/// The input of an attempt is messages, which carry all recorded arrivals, by place.
pub fn inputs_are_messages()
    ensures { InputsAreMessages }
{}

/// What an attempt has read is a beginning of what it was handed, and all of it where it holds no whole frame of an arrival.
pub fn read_is_handed()
    ensures first { ReadIsHanded }
    ensures all { HandedIsRead }
{}

/// What is recorded of an invocation asks for each completion once at most, and each comes once at most, after it was asked for.
pub fn completions_are_recorded_once()
    ensures counted { CompletionsRecordedOnce }
    ensures by_result { CompletionsComeWhenAsked }
{}
