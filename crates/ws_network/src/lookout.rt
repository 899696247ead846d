//! What comes first while a line is waited for: the line, or something over the connection.

use mio::unix::SourceFd;
use mio::{Events, Interest, Poll, Token};
use std::io;
use std::io::ErrorKind;
use std::net::Net;
use std::os::fd::RawFd;

// The descriptor of standard input (POSIX, STDIN_FILENO).
const STANDARD_INPUT: RawFd = 0;

// What stands for either in what a wait reports.
const LINE: Token = Token(0);

const CONNECTION: Token = Token(1);

/// Waits until standard input or the connection can be read: true where only the connection can. Where that can't be
/// waited for the line comes first.
pub(crate) fn comes_before_line<R: Net + AllocGlobal>(rt: &R, connection: RawFd) -> bool {
    matches!(wait_for_either(rt, connection), Ok(true))
}

// The same, or why it can't be waited for. A signal ends a wait with nothing.
fn wait_for_either<R: Net + AllocGlobal>(rt: &R, connection: RawFd) -> io::Result<bool> {
    let mut poll = Poll::new(rt)?;
    let registry = poll.registry();
    registry.register(&mut SourceFd(&STANDARD_INPUT), LINE, Interest::READABLE)?;
    registry.register(&mut SourceFd(&connection), CONNECTION, Interest::READABLE)?;
    let Ok(mut events) = Events::with_capacity(rt.alloc(), 2) else {
        return Err(io::Error::from(ErrorKind::OutOfMemory));
    };
    for _ in 0..u64::MAX {
        poll.poll(&mut events, None)?;
        if !events.is_empty() {
            return Ok(events.iter().all(|event| event.token() == CONNECTION));
        }
    }
    Ok(false)
}
