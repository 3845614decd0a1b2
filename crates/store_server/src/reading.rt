//! Reading a line, of a bounded length.
ghost use Rattle.std.specs.Prelude.{◌≡◌, ◌≢◌, ◌≤◌, ◌<◌, IfOk, IfErr, All, length, take, option_map, slice_index};
ghost use Rattle.store_server.specs.LineReads.{ReadsLine, ReadsPart, StopsReading};

use crate::fault::ServerFault;
use std::alloc::Global;
use std::io::{BufRead, ErrorKind};

/// The most bytes that a line has, its line feed among them.
pub const LINE_LIMIT: usize = 67_108_864;

/// What comes behind a part of a line.
#[derive(Clone, Copy)]
enum Behind {
    /// More of the line, or what is not known yet.
    More,
    /// Its line feed.
    Feed,
    /// The end of the input.
    End,
}

/// How many bytes stand before the first line feed, or in all.
fn open_len(bytes: &[u8]) -> usize
    ensures bound { result ≤ length bytes.now }
    ensures before { All (λ byte. byte ≢ 10) (take result bytes.now) }
    ensures feed { result < length bytes.now → slice_index bytes.now result ≡ 10 }
{
    let mut at = 0;
    while at < bytes.len() {
        if bytes[at] == b'\n' {
            return at;
        }
        at += 1;
    }
    at
}

/// Takes what the reader has ready of the line, unless the line is too long with it.
fn read_part<R: BufRead>(reader: &mut R, line: &mut Vec<u8>) -> Result<Behind, ServerFault>
    ensures { ReadsPart (R.remaining reader.old) (R.remaining reader.new) line.old.items line.new.items result }
{
    let ready = match reader.fill_buf() {
        Ok(ready) => ready,
        Err(error) => {
            return if error.kind() == ErrorKind::Interrupted {
                Ok(Behind::More)
            } else {
                Err(ServerFault::InputUnreadable)
            };
        }
    };
    let len = open_len(ready);
    if line.len() + len >= LINE_LIMIT {
        reader.consume(len);
        return Err(ServerFault::LineTooLong);
    }
    line.extend_from_slice(&ready[..len])?;
    if len < ready.len() {
        reader.consume(len + 1);
        return Ok(Behind::Feed);
    }
    reader.consume(len);
    Ok(if len == 0 { Behind::End } else { Behind::More })
}

/// The next line, without its line feed. Nothing at the end of the input: a line without a line feed is none, since whoever wrote it may
/// have been killed inside it. No more is held of a line than it may have.
pub(crate) fn read_line<R: BufRead>(
    alloc: Global,
    reader: &mut R,
) -> Result<Option<Vec<u8>>, ServerFault>
    ensures ok { IfOk result (λ line. ReadsLine (R.remaining reader.old) (R.remaining reader.new) (option_map (λ bytes. bytes.items) line)) }
    ensures err { IfErr result (StopsReading (R.remaining reader.old) (R.remaining reader.new)) }
{
    let mut line = Vec::new(alloc);
    for _ in 0..u64::MAX {
        match read_part(reader, &mut line) {
            Ok(Behind::More) => {}
            Ok(Behind::Feed) => return Ok(Some(line)),
            Ok(Behind::End) => return Ok(None),
            Err(fault) => return Err(fault),
        }
    }
    Err(ServerFault::InputUnreadable)
}
