//! The first words of requests.

ghost use Rattle.std.specs.Prelude.{◌≡◌};
ghost use Rattle.server_lines.specs.RequestReader.{asking_of, bringing_of, request_command_of};

/// The first word of a request: what is asked.
#[derive(Clone, Copy)]
pub enum Command {
    Invoke,
    Result,
    Signal,
    Cancel,
    Tick,
    Begin,
    Input,
    Output,
    Close,
    Stop,
    Forget,
    Due,
    Next,
    Show,
    Answer,
    State,
    Error,
    List,
    Requests,
}

/// The command that a word names, of those that bring something or hand something out.
#[tactic(auto, unfolding(crate::specs::RequestReader::bringing_of))]
fn parse_bringing(word: &[u8]) -> Option<Command>
    ensures { result ≡ bringing_of word.now }
{
    if word == b"invoke".as_slice() {
        Some(Command::Invoke)
    } else if word == b"result".as_slice() {
        Some(Command::Result)
    } else if word == b"signal".as_slice() {
        Some(Command::Signal)
    } else if word == b"cancel".as_slice() {
        Some(Command::Cancel)
    } else if word == b"tick".as_slice() {
        Some(Command::Tick)
    } else if word == b"begin".as_slice() {
        Some(Command::Begin)
    } else if word == b"input".as_slice() {
        Some(Command::Input)
    } else if word == b"output".as_slice() {
        Some(Command::Output)
    } else if word == b"close".as_slice() {
        Some(Command::Close)
    } else if word == b"stop".as_slice() {
        Some(Command::Stop)
    } else if word == b"forget".as_slice() {
        Some(Command::Forget)
    } else {
        None
    }
}

/// The command that a word names, of those that only ask.
#[tactic(auto, unfolding(crate::specs::RequestReader::asking_of))]
fn parse_asking(word: &[u8]) -> Option<Command>
    ensures { result ≡ asking_of word.now }
{
    if word == b"due".as_slice() {
        Some(Command::Due)
    } else if word == b"next".as_slice() {
        Some(Command::Next)
    } else if word == b"show".as_slice() {
        Some(Command::Show)
    } else if word == b"answer".as_slice() {
        Some(Command::Answer)
    } else if word == b"state".as_slice() {
        Some(Command::State)
    } else if word == b"error".as_slice() {
        Some(Command::Error)
    } else if word == b"list".as_slice() {
        Some(Command::List)
    } else if word == b"requests".as_slice() {
        Some(Command::Requests)
    } else {
        None
    }
}

/// The command that a word names.
#[tactic(auto, unfolding(crate::specs::RequestReader::request_command_of))]
pub(crate) fn parse_command(word: &[u8]) -> Option<Command>
    ensures { result ≡ request_command_of word.now }
{
    parse_bringing(word).or(parse_asking(word))
}
