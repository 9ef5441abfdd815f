//! What a text that is held gives: its bytes, and then its end, or each time the fault by which its reading ended.
use c104_host::{HeldText, hold};
use std::alloc::Global;
use std::io;
use std::io::{ErrorKind, Read};

/// A reader that gives a text, and then fails.
#[derive(Drop)]
struct Broken<'a> {
    text: &'a [u8],
}

impl Read for Broken<'_> {
    fn read(&mut self, buf: &mut [u8]) -> io::Result<usize> {
        let count = self.text.read(buf)?;
        if count == 0 && !buf.is_empty() {
            return Err(io::Error::from(ErrorKind::Other));
        }
        Ok(count)
    }
}

/// How many bytes a text gives at one read, or None where that fails.
fn given(text: &mut HeldText) -> Option<usize> {
    let mut piece = [0u8; 8];
    text.read(&mut piece).ok()
}

/// Whether a text that its reader gives whole is held, gives `count` bytes, and then fails each time.
fn fails_behind(alloc: Global, text: &[u8], count: usize) -> bool {
    let Ok(held) = hold(alloc, 16, &mut Broken { text }) else {
        return false;
    };
    let mut held = held;
    given(&mut held) == Some(count) && given(&mut held).is_none() && given(&mut held).is_none()
}

/// How much of a text is held, and whether it then ends, where there may be three bytes.
fn ends_behind(alloc: Global, text: &[u8], count: usize) -> bool {
    let mut text = text;
    let Ok(held) = hold(alloc, 3, &mut text) else {
        return false;
    };
    let mut held = held;
    given(&mut held) == Some(count) && given(&mut held) == Some(0) && given(&mut held) == Some(0)
}

#[test]
fn of_a_reader_that_fails(rt: HostRuntime) {
    assert!(rt; fails_behind(rt.alloc(), b"abc", 3));
}

#[test]
fn up_to_one_byte_past_the_limit(rt: HostRuntime) {
    assert!(rt; ends_behind(rt.alloc(), b"abcdef", 4));
    assert!(rt; ends_behind(rt.alloc(), b"ab", 2));
}
