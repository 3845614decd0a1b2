//! What is amiss with a line that is not understood, as its user is told it.
ghost use Rattle.std.specs.Prelude.{◌≡◌, Some, false, IfSome};
ghost use Rattle.std.specs.List.{Contains};
ghost use Rattle.script_lines.specs.LineReader.{is_word_byte};
ghost use Rattle.script_lines.specs.LineFlaw.{is_coded, is_count_of, is_outcome_of, is_value_of, kind_at, fits};

use crate::value::split_at_colon;
use crate::word::{
    Command, is_printable, parse_command, parse_handler, parse_mode, parse_u16, parse_u32,
    parse_u64,
};
use protocol_types::HexByte;
use std::{fmt, str};

/// What a word of a line stands for, but its first one.
#[derive(Clone, Copy, Debug, PartialEq, Eq)]
pub enum WordKind {
    /// An id, a name or an input.
    Text,
    /// A number of 32 bits.
    Number,
    /// A moment or a seed, of 64 bits.
    LongNumber,
    /// How many turns are made at most.
    Turns,
    StateMode,
    Handler,
    Value,
    Outcome,
}

/// What is amiss with a line that is not understood.
#[derive(Clone, Copy)]
pub enum LineFlaw<'a> {
    /// A carriage return stands in it.
    CarriageReturn,
    /// This byte stands in it, which is in no word.
    Byte(u8),
    /// Not one space stands between two words, or one at an end.
    Spaces,
    /// Its first word is no command.
    Command(&'a str),
    /// It has so many words, and the command takes others.
    Count(Command, usize),
    /// This word is not of the kind that is wanted in its place.
    Word(WordKind, &'a str),
}

impl WordKind {
    ghost use Rattle.script_lines.specs.LineFlaw.{wanted_text};

    /// What such a word is, as it is told behind one that is not.
    fn wanted(self) -> &'static str
        ensures { result.now ≡ wanted_text self }
    {
        match self {
            WordKind::Text => "is no text",
            WordKind::Number => "is no number from 0 to 4294967295, without leading zeros",
            WordKind::LongNumber => {
                "is no number from 0 to 18446744073709551615, without leading zeros"
            }
            WordKind::Turns => "is no number from 1 to 4294967295, without leading zeros",
            WordKind::StateMode => "is no mode: whole, none",
            WordKind::Handler => {
                "is no handler: ask, both, effect, go, hook, keys, nap, nap99, pair, quorum, race, read, twice"
            }
            WordKind::Value => "is no value: void, v:TEXT, f:CODE:TEXT, id:TEXT",
            WordKind::Outcome => "is no outcome: ok:TEXT, fail:CODE:TEXT, retry:CODE:TEXT",
        }
    }
}

impl Command {
    ghost use Rattle.script_lines.specs.LineFlaw.{usage_text};

    /// How a line with this command is written.
    fn usage(self) -> &'static str
        ensures { result.now ≡ usage_text self }
    {
        match self {
            Command::Invoke => "invoke ID OBJECT VERSION whole|none SEED INPUT",
            Command::Result => "result ID COMPLETION VALUE",
            Command::Signal => "signal ID NAME|#N VALUE",
            Command::Cancel => "cancel ID",
            Command::Tick => "tick MS",
            Command::Begin => "begin ID HANDLER MS",
            Command::Feed => "feed ID ATTEMPT N",
            Command::Close => "close ID ATTEMPT",
            Command::Turn => "turn ID ATTEMPT N [OUTCOME]",
            Command::Move => "move ID ATTEMPT N",
            Command::Stop => "stop ID ATTEMPT",
            Command::Due => "due",
            Command::Show => "show ID",
            Command::State => "state OBJECT",
        }
    }
}

impl fmt::Display for LineFlaw<'_> {
    ghost use Rattle.script_lines.specs.LineFlaw.{flaw_text};

    ghost output = { λ flaw. Some (flaw_text flaw) };

    fn fmt<W: fmt::Write>(&self, f: &mut fmt::Formatter<W>) -> fmt::Result {
        match self {
            LineFlaw::CarriageReturn => write!(
                f,
                "a carriage return stands in it, and a line ends with a line feed alone"
            ),
            LineFlaw::Byte(byte) => {
                let digits = HexByte(*byte);
                write!(
                    f,
                    "byte 0x{digits} stands in it, and words are of ASCII that prints"
                )
            }
            LineFlaw::Spaces => write!(f, "one space stands between two words, and none at an end"),
            LineFlaw::Command(word) => write!(
                f,
                "{word} is no command: begin, cancel, close, due, feed, invoke, move, result, show, signal, state, stop, tick, turn"
            ),
            LineFlaw::Count(command, count) => {
                let usage = command.usage();
                write!(f, "words: {count}, wanted: {usage}")
            }
            LineFlaw::Word(kind, word) => {
                let wanted = kind.wanted();
                write!(f, "{word} {wanted}")
            }
        }
    }
}

/// The most bytes of a word that are shown.
const SHOWN: usize = 60;

/// The first bytes of a word, at most so many.
fn first_bytes(word: &[u8], most: usize) -> &[u8] {
    if word.len() > most {
        &word[..most]
    } else {
        word
    }
}

/// What is shown of a word: its first bytes, if these are a text.
fn shown(word: &[u8]) -> &str {
    match str::from_utf8(first_bytes(word, SHOWN)) {
        Ok(text) => text,
        Err(_) => "",
    }
}

/// Whether a code of sixteen bits, a colon and a text stand here.
#[tactic(auto, unfolding(crate::specs::LineReader::coded_of, crate::specs::LineReader::printable_of, crate::specs::LineReader::then_read))]
fn is_coded(text: &[u8]) -> bool
    ensures { result ≡ is_coded text.now }
{
    let Some((code, message)) = split_at_colon(text) else {
        return false;
    };
    parse_u16(code).is_some() && is_printable(message)
}

/// Whether a value of this kind is spelled behind the colon.
#[tactic(auto, unfolding(crate::specs::LineReader::value_in, crate::specs::LineReader::printable_of, crate::specs::LineReader::then_read))]
fn is_value_of(kind: &[u8], text: &[u8]) -> bool
    ensures { result ≡ is_value_of kind.now text.now }
{
    if kind == b"v".as_slice() {
        is_printable(text)
    } else if kind == b"f".as_slice() {
        is_coded(text)
    } else {
        kind == b"id".as_slice() && is_printable(text)
    }
}

#[tactic(auto, unfolding(crate::specs::LineReader::line_value_of, crate::specs::LineReader::then_read))]
fn is_value(word: &[u8]) -> bool
    ensures { result ≡ fits WordKind.Value word.now }
{
    if word == b"void".as_slice() {
        return true;
    }
    match split_at_colon(word) {
        Some((kind, text)) => is_value_of(kind, text),
        None => false,
    }
}

/// Whether an outcome of this kind is spelled behind the colon.
#[tactic(auto, unfolding(crate::specs::LineReader::outcome_in, crate::specs::LineReader::printable_of, crate::specs::LineReader::then_read))]
fn is_outcome_of(kind: &[u8], text: &[u8]) -> bool
    ensures { result ≡ is_outcome_of kind.now text.now }
{
    if kind == b"ok".as_slice() {
        is_printable(text)
    } else if kind == b"fail".as_slice() {
        is_coded(text)
    } else {
        kind == b"retry".as_slice() && is_coded(text)
    }
}

#[tactic(auto, unfolding(crate::specs::LineReader::outcome_of, crate::specs::LineReader::then_read))]
fn is_outcome(word: &[u8]) -> bool
    ensures { result ≡ fits WordKind.Outcome word.now }
{
    match split_at_colon(word) {
        Some((kind, text)) => is_outcome_of(kind, text),
        None => false,
    }
}

fn is_number(word: &[u8]) -> bool
    ensures { result ≡ fits WordKind.Number word.now }
{
    parse_u32(word).is_some()
}

fn are_turns(word: &[u8]) -> bool
    ensures { result ≡ fits WordKind.Turns word.now }
{
    match parse_u32(word) {
        Some(count) => count > 0,
        None => false,
    }
}

fn is_text(word: &[u8]) -> bool
    ensures { result ≡ fits WordKind.Text word.now }
{
    !word.is_empty() && is_printable(word)
}

/// Whether a word is of a kind.
fn fits(kind: WordKind, word: &[u8]) -> bool
    ensures { result ≡ fits kind word.now }
{
    match kind {
        WordKind::Text => is_text(word),
        WordKind::Number => is_number(word),
        WordKind::LongNumber => parse_u64(word).is_some(),
        WordKind::Turns => are_turns(word),
        WordKind::StateMode => parse_mode(word).is_some(),
        WordKind::Handler => parse_handler(word).is_some(),
        WordKind::Value => is_value(word),
        WordKind::Outcome => is_outcome(word),
    }
}

fn invoke_kind(place: usize) -> WordKind
    ensures { result ≡ kind_at Command.Invoke place }
{
    match place {
        2 => WordKind::Number,
        3 => WordKind::StateMode,
        4 => WordKind::LongNumber,
        _ => WordKind::Text,
    }
}

fn turn_kind(place: usize) -> WordKind
    ensures { result ≡ kind_at Command.Turn place }
{
    match place {
        0 => WordKind::Text,
        1 => WordKind::Number,
        2 => WordKind::Turns,
        _ => WordKind::Outcome,
    }
}

fn result_kind(place: usize) -> WordKind
    ensures { result ≡ kind_at Command.Result place }
{
    match place {
        0 => WordKind::Text,
        1 => WordKind::Number,
        _ => WordKind::Value,
    }
}

fn signal_kind(place: usize) -> WordKind
    ensures { result ≡ kind_at Command.Signal place }
{
    match place {
        2 => WordKind::Value,
        _ => WordKind::Text,
    }
}

fn begin_kind(place: usize) -> WordKind
    ensures { result ≡ kind_at Command.Begin place }
{
    match place {
        0 => WordKind::Text,
        1 => WordKind::Handler,
        _ => WordKind::LongNumber,
    }
}

fn text_and_number(place: usize) -> WordKind
    ensures { result ≡ kind_at Command.Feed place }
{
    match place {
        0 => WordKind::Text,
        _ => WordKind::Number,
    }
}

/// What the word at this place behind a command stands for.
fn kind_at(command: Command, place: usize) -> WordKind
    ensures { result ≡ kind_at command place }
{
    match command {
        Command::Invoke => invoke_kind(place),
        Command::Turn => turn_kind(place),
        Command::Tick => WordKind::LongNumber,
        Command::Signal => signal_kind(place),
        Command::Result => result_kind(place),
        Command::Begin => begin_kind(place),
        Command::Cancel
        | Command::Feed
        | Command::Close
        | Command::Move
        | Command::Stop
        | Command::Due
        | Command::Show
        | Command::State => text_and_number(place),
    }
}

/// Whether so many words may stand behind a command.
fn is_count_of(command: Command, count: usize) -> bool
    ensures { result ≡ is_count_of command count }
{
    match command {
        Command::Invoke => count == 6,
        Command::Turn => count == 3 || count == 4,
        Command::Result | Command::Signal | Command::Begin | Command::Feed | Command::Move => {
            count == 3
        }
        Command::Close | Command::Stop => count == 2,
        Command::Tick | Command::Cancel | Command::Show | Command::State => count == 1,
        Command::Due => count == 0,
    }
}

/// The first word behind a command that is not of the kind that is wanted in its place.
fn word_flaw(command: Command, line: &[u8]) -> Option<LineFlaw<'_>> {
    for (place, word) in line.split(|byte| *byte == b' ').skip(1).enumerate() {
        let kind = kind_at(command, place);
        if !fits(kind, word) {
            return Some(LineFlaw::Word(kind, shown(word)));
        }
    }
    None
}

/// What is amiss with the words of a line behind its command, the first of all words.
fn words_flaw(command: Command, line: &[u8]) -> Option<LineFlaw<'_>> {
    let count = line.split(|byte| *byte == b' ').count();
    if is_count_of(command, count.saturating_sub(1)) {
        word_flaw(command, line)
    } else {
        Some(LineFlaw::Count(command, count))
    }
}

/// Which byte of a line stands in no word, and is no space.
fn odd_byte(line: &[u8]) -> Option<u8>
    ensures { IfSome result (λ byte. Contains line.now byte × (is_word_byte byte ≡ false)) }
{
    line.iter()
        .copied()
        .find(|byte| *byte < b' ' || *byte > b'~')
}

/// What is amiss with a line that is not understood: with its bytes, the spaces between its words, how many these are, or the first
/// one that is not such as is wanted in its place. Nothing is amiss with one that is understood.
pub fn flaw_of(line: &[u8]) -> Option<LineFlaw<'_>> {
    match odd_byte(line) {
        Some(b'\r') => return Some(LineFlaw::CarriageReturn),
        Some(byte) => return Some(LineFlaw::Byte(byte)),
        None => {}
    }
    if line.split(|byte| *byte == b' ').any(|word| word.is_empty()) {
        return Some(LineFlaw::Spaces);
    }
    let first = line
        .split(|byte| *byte == b' ')
        .next()
        .unwrap_or(b"".as_slice());
    match parse_command(first) {
        Some(command) => words_flaw(command, line),
        None => Some(LineFlaw::Command(shown(first))),
    }
}
