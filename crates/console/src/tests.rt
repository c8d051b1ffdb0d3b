// What no clause says: where an input comes in small pieces, and where a read or a write fails in between.
use crate::{Output, read_full};
use std::io;
use std::io::{Error, ErrorKind, Read, Write};
use std::test::Fail;

// The numbers from 1 on, one a read; the read after the last one finds the end, or fails.
#[derive(Drop)]
struct Drip {
    given: u8,
    last: u8,
    fails: bool,
}

impl Read for Drip {
    fn read(&mut self, buf: &mut [u8]) -> io::Result<usize> {
        if self.given < self.last && buf.len() > 0 {
            self.given += 1;
            buf[0] = self.given;
            return Ok(1);
        }
        if self.fails {
            return Err(Error::from(ErrorKind::Other));
        }
        Ok(0)
    }
}

// Takes so many writes, of one byte each, and counts those that come.
#[derive(Drop)]
struct Narrow<'a> {
    room: u8,
    asked: &'a mut u8,
}

impl Write for Narrow<'_> {
    fn write(&mut self, buf: &[u8]) -> io::Result<usize> {
        *self.asked = self.asked.saturating_add(1);
        if self.room == 0 {
            return Err(Error::from(ErrorKind::StorageFull));
        }
        if buf.len() == 0 {
            return Ok(0);
        }
        self.room -= 1;
        Ok(1)
    }

    fn flush(&mut self) -> io::Result<()> {
        Ok(())
    }
}

fn dripping(last: u8, fails: bool) -> Drip {
    Drip {
        given: 0,
        last,
        fails,
    }
}

#[test]
fn pieces_are_joined(rt: HostRuntime) -> Result<(), Fail> {
    let mut buffer = [9u8; 4];
    assert_eq!(rt; read_full(&mut dripping(3, false), &mut buffer)?, 3);
    assert_eq!(rt; buffer, [1, 2, 3, 9]);
    assert_eq!(rt; read_full(&mut dripping(7, true), &mut buffer)?, 4);
    assert_eq!(rt; buffer, [1, 2, 3, 4]);
    Ok(())
}

#[test]
fn a_failed_read_is_told(rt: HostRuntime) {
    let mut buffer = [9u8; 4];
    assert!(rt; read_full(&mut dripping(3, true), &mut buffer).is_err());
}

#[test]
fn a_failed_write_is_told_and_ends_the_output(rt: HostRuntime) {
    let mut asked = 0;
    let mut output = Output::new(Narrow {
        room: 2,
        asked: &mut asked,
    });
    output.print(b"a");
    output.print_number(50);
    output.print(b"b");
    assert!(rt; output.finish().is_err());
    assert_eq!(rt; asked, 3);
}

#[test]
fn all_is_written(rt: HostRuntime) -> Result<(), Fail> {
    let mut bytes = Vec::new(rt.alloc());
    let mut output = Output::new(&mut bytes);
    output.print(b"line ");
    output.print_number(18446744073709551615);
    output.print(b"\n");
    output.finish()?;
    assert_eq!(rt; bytes.as_slice(), b"line 18446744073709551615\n".as_slice());
    Ok(())
}
