//! Bytes put into a buffer of C's.
ghost use Rattle.std.specs.Prelude.{◌≡◌, ◌≤◌, ◌+◌, ◌++◌, List, ℕ, length};
ghost use Rattle.ws_c.specs.Calls.{crossed, holds_front, told_length};
ghost use Rattle.ws_c.specs.Sends.{IsFetched};

use crate::{Status, Told};

/// Puts bytes at a buffer's front, and gives how many.
pub(crate) fn put_front(buffer: &mut [u8], bytes: &[u8]) -> usize
    requires { length bytes.now ≤ length buffer.old }
    ensures value { result ≡ length bytes.now }
    ensures buffer { buffer.new ≡ holds_front bytes.now buffer.old }
{
    buffer[..bytes.len()].copy_from_slice(bytes);
    bytes.len()
}

/// Puts bytes into a buffer behind those that stand at its front.
pub(crate) fn put_behind(buffer: &mut [u8], at: usize, bytes: &[u8])
    requires { at + length bytes.now ≤ length buffer.old }
    ensures { (front before : List ℕ) → length front ≡ at
        → buffer.old ≡ holds_front front before
        → buffer.new ≡ holds_front (front ++ bytes.now) before }
{
    // Most records bring no reply.
    if bytes.is_empty() {
        return;
    }
    buffer[at..at + bytes.len()].copy_from_slice(bytes);
}

/// Puts bytes into a buffer that has room for them, and tells how many.
pub(crate) fn fetch_bytes(bytes: &[u8], buffer: &mut [u8], told: &mut Told) -> Status
    requires { told.old ≡ told_length 0 }
    ensures { IsFetched bytes.now (crossed buffer.old buffer.new result told.new) }
{
    if buffer.len() < bytes.len() {
        return Status::NoRoom;
    }
    *told = Told::length(put_front(buffer, bytes));
    Status::Done
}
