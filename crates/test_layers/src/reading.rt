//! A script whose reader fails.
use script_lines::reading::read_script;
use std::alloc::Global;
use std::io;
use std::io::{ErrorKind, Read};
use std::test::Fail;

/// Gives a text, and fails behind it.
#[derive(Drop)]
struct Broken<'a> {
    left: &'a [u8],
}

impl Read for Broken<'_> {
    fn read(&mut self, buf: &mut [u8]) -> io::Result<usize> {
        if self.left.is_empty() {
            return Err(io::Error::from(ErrorKind::Other));
        }
        self.left.read(buf)
    }
}

/// Whether what a reader gives is taken for a script.
fn is_read(alloc: Global, reader: &mut Broken<'_>) -> bool {
    match read_script(alloc, reader) {
        Ok(script) => {
            drop(script);
            true
        }
        Err(_) => false,
    }
}

#[test]
fn a_reader_that_fails_behind_a_line(rt: HostRuntime) -> Result<(), Fail> {
    let mut reader = Broken {
        left: b"show i1\n".as_slice(),
    };
    assert!(rt; !is_read(rt.alloc(), &mut reader));
    assert!(rt; reader.left.is_empty());
    Ok(())
}
