//! What a line prints of an arrival: its place, what it is for, and what it brings.

ghost use Rattle.std.specs.Prelude.{Some};

use crate::text::Hex;
use bytes::Bytes;
use std::fmt;

/// What an arrival is for.
#[derive(Clone, Copy)]
pub enum ShownId<'a> {
    /// A request that has this completion.
    Completion(u32),
    /// A signal by its number.
    Signal(u32),
    /// A signal by its name.
    Name(&'a [u8]),
}

impl fmt::Display for ShownId<'_> {
    ghost use Rattle.script_lines.specs.Arrival.{id_text};

    ghost output = { λ id. Some (id_text id) };

    fn fmt<W: fmt::Write>(&self, f: &mut fmt::Formatter<W>) -> fmt::Result {
        match self {
            ShownId::Completion(number) => write!(f, "c{number}"),
            ShownId::Signal(number) => write!(f, "s{number}"),
            ShownId::Name(name) => {
                let name = Hex(name);
                write!(f, "n:{name}")
            }
        }
    }
}

/// State keys, each behind a comma.
#[derive(Clone, Copy)]
struct FurtherKeys<'a>(&'a [Bytes]);

impl fmt::Display for FurtherKeys<'_> {
    ghost use Rattle.script_lines.specs.Arrival.{further_text};

    ghost output = { λ keys. Some (further_text keys.0.now) };

    fn fmt<W: fmt::Write>(&self, f: &mut fmt::Formatter<W>) -> fmt::Result {
        for key in self.0 {
            let key = Hex(key.as_slice());
            write!(f, ",{key}")?;
        }
        Ok(())
    }
}

/// State keys with commas between them, and a dash where there are none.
#[derive(Clone, Copy)]
struct ShownKeys<'a>(&'a [Bytes]);

impl fmt::Display for ShownKeys<'_> {
    ghost use Rattle.script_lines.specs.Arrival.{keys_text};

    ghost output = { λ keys. Some (keys_text keys.0.now) };

    fn fmt<W: fmt::Write>(&self, f: &mut fmt::Formatter<W>) -> fmt::Result {
        let [first, others @ ..] = self.0 else {
            return write!(f, "-");
        };
        let first = Hex(first.as_slice());
        let others = FurtherKeys(others);
        write!(f, "{first}{others}")
    }
}

/// What an arrival brings.
#[derive(Clone, Copy)]
pub enum ShownResult<'a> {
    Void,
    Value(&'a [u8]),
    Failure { code: u32, message: &'a [u8] },
    InvocationId(&'a [u8]),
    StateKeys(&'a [Bytes]),
}

impl fmt::Display for ShownResult<'_> {
    ghost use Rattle.script_lines.specs.Arrival.{result_text};

    ghost output = { λ brought. Some (result_text brought) };

    fn fmt<W: fmt::Write>(&self, f: &mut fmt::Formatter<W>) -> fmt::Result {
        match self {
            ShownResult::Void => write!(f, "void"),
            ShownResult::Value(bytes) => {
                let bytes = Hex(bytes);
                write!(f, "value {bytes}")
            }
            ShownResult::Failure { code, message } => {
                let message = Hex(message);
                write!(f, "failure {code} {message}")
            }
            ShownResult::InvocationId(id) => {
                let id = Hex(id);
                write!(f, "id {id}")
            }
            ShownResult::StateKeys(keys) => {
                let keys = ShownKeys(keys);
                write!(f, "keys {keys}")
            }
        }
    }
}

/// A recorded arrival at its place, counted from 1.
#[derive(Clone, Copy)]
pub struct ShownArrival<'a> {
    pub place: u32,
    pub id: ShownId<'a>,
    pub brought: ShownResult<'a>,
}

impl fmt::Display for ShownArrival<'_> {
    ghost use Rattle.script_lines.specs.Arrival.{arrival_text};

    ghost output = { λ arrival. Some (arrival_text arrival) };

    fn fmt<W: fmt::Write>(&self, f: &mut fmt::Formatter<W>) -> fmt::Result {
        let place = self.place;
        let id = self.id;
        let brought = self.brought;
        write!(f, "{place} arrival {id} {brought}")
    }
}
