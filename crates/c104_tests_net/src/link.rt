use c104_link::{InBuffer, OutBuffer};
use c104_token::Token;
use std::test::Fail;

// These functions promise nothing: what a contract says of a buffer would be a fact of every later goal of a test.

/// Whether a buffer takes eight tokens, and hands the ninth back.
fn accepts(buffer: &mut InBuffer) -> bool {
    for byte in 0..8u8 {
        if buffer.accept(Token::Byte(byte)) != Ok(()) {
            return false;
        }
    }
    buffer.accept(Token::Eop) == Err(Token::Eop)
}

/// Whether it gives them, and doesn't grant until all are taken.
fn gives(buffer: &mut InBuffer) -> bool {
    for byte in 0..8u8 {
        if buffer.grant() || buffer.take() != Some(Token::Byte(byte)) {
            return false;
        }
    }
    buffer.grant()
}

/// A buffer of eight grants once, takes eight tokens and hands the ninth back. It grants again when
/// all eight are taken.
#[test]
fn incoming(rt: HostRuntime) -> Result<(), Fail> {
    let mut buffer = InBuffer::new(rt.alloc(), 8)?;
    let is_due = buffer.grant() && !buffer.grant() && accepts(&mut buffer) && gives(&mut buffer);
    assert!(rt; is_due);
    Ok(())
}

/// Whether a buffer takes eight tokens, and hands the ninth back.
fn puts(buffer: &mut OutBuffer) -> bool {
    for byte in 0..8u8 {
        if buffer.put(Token::Byte(byte)) != Ok(()) {
            return false;
        }
    }
    buffer.put(Token::Eop) == Err(Token::Eop)
}

/// Whether it is credited eight times, and no more.
fn credits(buffer: &mut OutBuffer) -> bool {
    for _ in 0..8 {
        if !buffer.credited() {
            return false;
        }
    }
    !buffer.credited()
}

/// A buffer takes eight tokens and hands the ninth back. It sends none until it is credited, which
/// it can be eight times.
#[test]
fn outgoing(rt: HostRuntime) -> Result<(), Fail> {
    let mut buffer = OutBuffer::new(rt.alloc())?;
    let is_due = puts(&mut buffer)
        && buffer.emit().is_none()
        && credits(&mut buffer)
        && buffer.emit() == Some(Token::Byte(0));
    assert!(rt; is_due);
    Ok(())
}
