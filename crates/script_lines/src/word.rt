//! The words of a script's line: texts, numbers and names.

ghost use Rattle.std.specs.Prelude.{◌≡◌, ◌^◌};
ghost use Rattle.std.specs.List.{list_all};
ghost use Rattle.script_lines.specs.declared.word.LineError.TheVariants.{Memory};
ghost use Rattle.script_lines.specs.Word.{handler_word};
ghost use Rattle.script_lines.specs.LineReader.{Gives, is_word_byte, number_below, printable_of, text_read, mode_of, handler_of, command_of};

use bytes::{ByteStr, Bytes};
use itoa::Buffer;
use journal_model::StateMode;
use std::alloc::{AllocError, Global};
use std::str;

/// Why a line is not read.
#[derive(Drop)]
pub enum LineError {
    /// It is the spelling of no line.
    NotUnderstood,
    /// Memory ran out.
    Memory,
}

impl From<AllocError> for LineError {
    ghost from_gives = { λ _ error. error ≡ Memory };

    fn from(_error: AllocError) -> LineError {
        LineError::Memory
    }
}

/// The first word of a line: what the line is for.
#[derive(Clone, Copy)]
pub enum Command {
    Invoke,
    Result,
    Signal,
    Cancel,
    Tick,
    Begin,
    Feed,
    Close,
    Turn,
    Move,
    Stop,
    Due,
    Show,
    State,
}

/// The built-in handlers that a line may name.
#[derive(Clone, Copy)]
pub enum HandlerName {
    /// Sleeps until 10 and answers `ok`.
    Nap,
    /// Sleeps until 99 and answers `ok`.
    Nap99,
    /// Sleeps until 20 and until 10, and answers which was over first.
    Race,
    /// Sleeps until 10 and until 20, waits for both, and answers `ok`.
    Both,
    /// Makes a call, and answers its result.
    Ask,
    /// Makes two calls, waits for both, and answers `ok`.
    Pair,
    /// Sets the key `x` of its object to `1` and to `2`, and answers `ok`.
    Twice,
    /// Sets the key `x` and clears it, and answers the keys that there are.
    Keys,
    /// Reads the key `x`, and answers its value.
    Read,
    /// Runs `r`, and answers its outcome.
    Effect,
    /// Waits for the signal `go`, and answers what it brings.
    Go,
    /// Makes an awakeable, which is signal 17, waits for it, and answers what it brings.
    Hook,
    /// Sleeps until 10, until 20 and until 30, waits for two of them, and answers `ok`.
    Quorum,
}

impl HandlerName {
    /// The word that it is named by.
    pub fn word(self) -> &'static [u8]
        ensures { result.now ≡ handler_word self }
    {
        match self {
            HandlerName::Nap => b"nap".as_slice(),
            HandlerName::Nap99 => b"nap99".as_slice(),
            HandlerName::Race => b"race".as_slice(),
            HandlerName::Both => b"both".as_slice(),
            HandlerName::Ask => b"ask".as_slice(),
            HandlerName::Pair => b"pair".as_slice(),
            HandlerName::Twice => b"twice".as_slice(),
            HandlerName::Keys => b"keys".as_slice(),
            HandlerName::Read => b"read".as_slice(),
            HandlerName::Effect => b"effect".as_slice(),
            HandlerName::Go => b"go".as_slice(),
            HandlerName::Hook => b"hook".as_slice(),
            HandlerName::Quorum => b"quorum".as_slice(),
        }
    }
}

/// The number below 2^16 that a word spells: the one whose printed form the word is.
pub fn parse_u16(word: &[u8]) -> Option<u16>
    ensures { result ≡ number_below (2 ^ 16) word.now }
{
    u16::try_from(parse_u64(word)?).ok()
}

/// The number below 2^32 that a word spells.
pub fn parse_u32(word: &[u8]) -> Option<u32>
    ensures { result ≡ number_below (2 ^ 32) word.now }
{
    u32::try_from(parse_u64(word)?).ok()
}

/// The number below 2^64 that a word spells.
pub fn parse_u64(word: &[u8]) -> Option<u64>
    ensures { result ≡ number_below (2 ^ 64) word.now }
{
    let number = str::from_utf8(word).ok()?.parse::<u64>().ok()?;
    let is_spelling = Buffer::new().format(number).as_bytes() == word;
    is_spelling.then_some(number)
}

/// Whether all bytes are printable ones, and none is a space.
pub(crate) fn is_printable(bytes: &[u8]) -> bool
    ensures { result ≡ list_all is_word_byte bytes.now }
{
    bytes.iter().all(|byte| *byte >= b'!' && *byte <= b'~')
}

/// The text of these bytes, which may be none.
#[tactic(auto, unfolding(crate::specs::LineReader::printable_of))]
pub fn parse_printable(alloc: Global, bytes: &[u8]) -> Result<ByteStr, LineError>
    ensures { Gives result (printable_of bytes.now) }
{
    if !is_printable(bytes) {
        return Err(LineError::NotUnderstood);
    }
    let bytes = Bytes::copy_from_slice(alloc, bytes)?;
    Ok(ByteStr::from_known_utf8(bytes))
}

/// The text that a word spells.
#[tactic(auto, unfolding(crate::specs::LineReader::text_read))]
pub fn parse_text(alloc: Global, word: &[u8]) -> Result<ByteStr, LineError>
    ensures { Gives result (text_read word.now) }
{
    if word == b"-".as_slice() {
        return Ok(ByteStr::new());
    }
    if word.is_empty() {
        return Err(LineError::NotUnderstood);
    }
    parse_printable(alloc, word)
}

/// The mode that a word names.
#[tactic(auto, unfolding(crate::specs::LineReader::mode_of))]
pub fn parse_mode(word: &[u8]) -> Option<StateMode>
    ensures { result ≡ mode_of word.now }
{
    match word {
        b"whole" => Some(StateMode::Whole),
        b"none" => Some(StateMode::None),
        _ => None,
    }
}

/// The handler that a word names.
#[tactic(auto, unfolding(crate::specs::LineReader::handler_of))]
pub fn parse_handler(word: &[u8]) -> Option<HandlerName>
    ensures { result ≡ handler_of word.now }
{
    if word == HandlerName::Nap.word() {
        Some(HandlerName::Nap)
    } else if word == HandlerName::Nap99.word() {
        Some(HandlerName::Nap99)
    } else if word == HandlerName::Race.word() {
        Some(HandlerName::Race)
    } else if word == HandlerName::Both.word() {
        Some(HandlerName::Both)
    } else if word == HandlerName::Ask.word() {
        Some(HandlerName::Ask)
    } else if word == HandlerName::Pair.word() {
        Some(HandlerName::Pair)
    } else if word == HandlerName::Twice.word() {
        Some(HandlerName::Twice)
    } else if word == HandlerName::Keys.word() {
        Some(HandlerName::Keys)
    } else if word == HandlerName::Read.word() {
        Some(HandlerName::Read)
    } else if word == HandlerName::Effect.word() {
        Some(HandlerName::Effect)
    } else if word == HandlerName::Go.word() {
        Some(HandlerName::Go)
    } else if word == HandlerName::Hook.word() {
        Some(HandlerName::Hook)
    } else if word == HandlerName::Quorum.word() {
        Some(HandlerName::Quorum)
    } else {
        None
    }
}

/// The command that a word names.
#[tactic(auto, unfolding(crate::specs::LineReader::command_of))]
pub fn parse_command(word: &[u8]) -> Option<Command>
    ensures { result ≡ command_of word.now }
{
    if word == b"invoke".as_slice() {
        Some(Command::Invoke)
    } else if word == b"result".as_slice() {
        Some(Command::Result)
    } else if word == b"signal".as_slice() {
        Some(Command::Signal)
    } else if word == b"cancel".as_slice() {
        Some(Command::Cancel)
    } else if word == b"tick".as_slice() {
        Some(Command::Tick)
    } else if word == b"begin".as_slice() {
        Some(Command::Begin)
    } else if word == b"feed".as_slice() {
        Some(Command::Feed)
    } else if word == b"close".as_slice() {
        Some(Command::Close)
    } else if word == b"turn".as_slice() {
        Some(Command::Turn)
    } else if word == b"move".as_slice() {
        Some(Command::Move)
    } else if word == b"stop".as_slice() {
        Some(Command::Stop)
    } else if word == b"due".as_slice() {
        Some(Command::Due)
    } else if word == b"show".as_slice() {
        Some(Command::Show)
    } else if word == b"state".as_slice() {
        Some(Command::State)
    } else {
        None
    }
}
