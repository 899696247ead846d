//! Negative responses.
ghost use Rattle.std.specs.Prelude.{◌≡◌};
ghost use Rattle.ws_lasting.specs.Negative as spec;

use arrayvec::ArrayVec;
use ws_code::{ByteList, Reason};
use ws_nego::Reply;

const COMMAND: [u8; 16] = [
    0x00, 0x0e, 0x12, 0xa0, 0x00, 0x00, 0x04, 0x80, 0x00, 0x00, 0x10, 0x03, 0x01, 0x01, 0xff, 0xef,
];

const OTHER: [u8; 16] = [
    0x00, 0x0e, 0x12, 0xa0, 0x00, 0x00, 0x04, 0x80, 0x00, 0x00, 0x10, 0x05, 0x01, 0x21, 0xff, 0xef,
];

// Whether it is a reason of a record: of its header, its body, or the screen before it.
pub(crate) fn is_of_record(reason: Reason) -> bool
    ensures { result ≡ spec.is_of_record reason }
{
    let number = reason.number();
    10 <= number && number <= 45 || 50 <= number && number <= 55
}

// Whether it is a reason of a command.
fn is_of_command(reason: Reason) -> bool
    ensures { result ≡ spec.is_of_command reason }
{
    let number = reason.number();
    20 <= number && number <= 21 || 30 <= number && number <= 36
}

// One negative response.
pub(crate) fn negative(reason: Reason) -> Reply
    ensures { result ≡ spec.negative reason }
{
    let mut bytes = ArrayVec::new();
    if is_of_command(reason) {
        bytes.try_extend_from_slice(&COMMAND).unwrap();
    } else {
        bytes.try_extend_from_slice(&OTHER).unwrap();
    }
    ByteList::of(bytes)
}
