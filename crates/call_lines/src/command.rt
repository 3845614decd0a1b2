//! The first words of lines, and of calls.

ghost use Rattle.std.specs.Prelude.{◌≡◌};
ghost use Rattle.call_lines.specs.CommandReader.{asking_word_of, line_word_of, naming_word_of, payload_word_of, plain_word_of};

/// The first word of a line of a client, but for those that are requests.
#[derive(Clone, Copy)]
pub enum LineWord {
    Attempt,
    Do,
    Outcome,
    Go,
    Suspend,
}

/// The first word of a call that has a payload.
#[derive(Clone, Copy)]
pub enum PayloadWord {
    Get,
    Set,
    Call,
    Send,
    CompleteAwakeable,
    CompletePromise,
    Output,
}

/// The first word of another call.
#[derive(Clone, Copy)]
pub enum PlainWord {
    Keys,
    Clear,
    ClearAll,
    Sleep,
    Awakeable,
    Signal,
    CompleteSignal,
    Promise,
    PeekPromise,
    Run,
    Cancel,
    Attach,
    OutputOf,
    Completed,
    Take,
    Await,
    Wait,
    End,
}

/// The word that begins a line.
#[tactic(auto, unfolding(crate::specs::CommandReader::line_word_of))]
pub(crate) fn parse_line_word(word: &[u8]) -> Option<LineWord>
    ensures { result ≡ line_word_of word.now }
{
    if word == b"attempt".as_slice() {
        Some(LineWord::Attempt)
    } else if word == b"do".as_slice() {
        Some(LineWord::Do)
    } else if word == b"outcome".as_slice() {
        Some(LineWord::Outcome)
    } else if word == b"go".as_slice() {
        Some(LineWord::Go)
    } else if word == b"suspend".as_slice() {
        Some(LineWord::Suspend)
    } else {
        None
    }
}

/// The word that begins a call with a payload.
#[tactic(auto, unfolding(crate::specs::CommandReader::payload_word_of))]
pub(crate) fn parse_payload_word(word: &[u8]) -> Option<PayloadWord>
    ensures { result ≡ payload_word_of word.now }
{
    if word == b"get".as_slice() {
        Some(PayloadWord::Get)
    } else if word == b"set".as_slice() {
        Some(PayloadWord::Set)
    } else if word == b"call".as_slice() {
        Some(PayloadWord::Call)
    } else if word == b"send".as_slice() {
        Some(PayloadWord::Send)
    } else if word == b"complete-awakeable".as_slice() {
        Some(PayloadWord::CompleteAwakeable)
    } else if word == b"complete-promise".as_slice() {
        Some(PayloadWord::CompletePromise)
    } else if word == b"output".as_slice() {
        Some(PayloadWord::Output)
    } else {
        None
    }
}

/// The word that begins a call that names what it makes, tells or changes.
#[tactic(auto, unfolding(crate::specs::CommandReader::naming_word_of))]
fn parse_naming_word(word: &[u8]) -> Option<PlainWord>
    ensures { result ≡ naming_word_of word.now }
{
    if word == b"clear".as_slice() {
        Some(PlainWord::Clear)
    } else if word == b"sleep".as_slice() {
        Some(PlainWord::Sleep)
    } else if word == b"signal".as_slice() {
        Some(PlainWord::Signal)
    } else if word == b"complete-signal".as_slice() {
        Some(PlainWord::CompleteSignal)
    } else if word == b"promise".as_slice() {
        Some(PlainWord::Promise)
    } else if word == b"peek-promise".as_slice() {
        Some(PlainWord::PeekPromise)
    } else if word == b"run".as_slice() {
        Some(PlainWord::Run)
    } else if word == b"cancel".as_slice() {
        Some(PlainWord::Cancel)
    } else if word == b"attach".as_slice() {
        Some(PlainWord::Attach)
    } else if word == b"output-of".as_slice() {
        Some(PlainWord::OutputOf)
    } else {
        None
    }
}

/// The word that begins one of the others.
#[tactic(auto, unfolding(crate::specs::CommandReader::asking_word_of))]
fn parse_asking_word(word: &[u8]) -> Option<PlainWord>
    ensures { result ≡ asking_word_of word.now }
{
    if word == b"keys".as_slice() {
        Some(PlainWord::Keys)
    } else if word == b"clear-all".as_slice() {
        Some(PlainWord::ClearAll)
    } else if word == b"awakeable".as_slice() {
        Some(PlainWord::Awakeable)
    } else if word == b"completed".as_slice() {
        Some(PlainWord::Completed)
    } else if word == b"take".as_slice() {
        Some(PlainWord::Take)
    } else if word == b"await".as_slice() {
        Some(PlainWord::Await)
    } else if word == b"wait".as_slice() {
        Some(PlainWord::Wait)
    } else if word == b"end".as_slice() {
        Some(PlainWord::End)
    } else {
        None
    }
}

/// The word that begins a call without a payload.
#[tactic(auto, unfolding(crate::specs::CommandReader::plain_word_of))]
pub(crate) fn parse_plain_word(word: &[u8]) -> Option<PlainWord>
    ensures { result ≡ plain_word_of word.now }
{
    parse_naming_word(word).or(parse_asking_word(word))
}
