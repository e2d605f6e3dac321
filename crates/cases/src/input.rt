// What a program reads of its input.
use session::read_input;
use std::io;
use std::io::{ErrorKind, Read};
use std::test::Fail;

const TEXT: &[u8] = b"RTW 0001\nenrol 9\n";

// A reader that fails after these bytes.
#[derive(Drop)]
struct Broken<'a>(&'a [u8]);

impl<'a> Read for Broken<'a> {
    fn read(&mut self, buf: &mut [u8]) -> io::Result<usize> {
        if self.0.is_empty() {
            return Err(io::Error::from(ErrorKind::ConnectionReset));
        }
        self.0.read(buf)
    }
}

#[test]
fn all_of_a_short_one(rt: HostRuntime) -> Result<(), Fail> {
    let input = read_input(rt.alloc(), TEXT)?;
    assert_eq!(rt; input.as_slice(), TEXT);
    Ok(())
}

#[test]
fn one_byte_too_many_of_a_long_one(rt: HostRuntime) -> Result<(), Fail> {
    let input = read_input(rt.alloc(), io::repeat(b'a'))?;
    assert_eq!(rt; input.len(), 32_769);
    Ok(())
}

#[test]
fn nothing_where_reading_fails(rt: HostRuntime) {
    let read = read_input(rt.alloc(), Broken(TEXT));
    assert!(rt; read.is_err_and(|e| e.kind() == ErrorKind::ConnectionReset));
}
