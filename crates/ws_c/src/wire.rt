//! The bytes of an answer, in an array that has room for the longest.
ghost use Rattle.std.specs.Prelude.{◌≡◌, [], ℕ, List};
ghost use Rattle.ws_end.specs.station.AnswerSpelling.{answer_spelling};
ghost use Rattle.ws_c.specs.Wire.{array_writer};

use arrayvec::ArrayVec;
use std::marker::Model;
use ws_code::{DeviceFailed, Sink};
use ws_keys::Answer;
use ws_session::write_answer;

/// How many bytes the longest answer has: each of its 2,701 doubled, and its IAC EOR.
pub(crate) const ANSWER_ROOM: usize = 5404;

// Keeps what is written in an array, which takes what it has room for.
#[derive(Drop)]
struct AnswerSink {
    bytes: ArrayVec<u8, ANSWER_ROOM>,
}

impl Model for AnswerSink {
    ghost use Rattle.std.specs.Prelude.{ℕ, List};

    ghost Value = { List ℕ };

    ghost view = { λ s. s.bytes.items };
}

impl Sink for AnswerSink {
    ghost writer = { array_writer };

    fn write(&mut self, bytes: &[u8]) -> Result<usize, DeviceFailed> {
        let taken = bytes.len().min(self.bytes.remaining_capacity());
        match self.bytes.try_extend_from_slice(&bytes[..taken]) {
            Ok(()) => Ok(taken),
            Err(_) => Ok(0),
        }
    }
}

/// The record that a key sends, with its IAC EOR (RFC 1205, section 3).
pub(crate) fn answer_bytes(answer: &Answer) -> ArrayVec<u8, ANSWER_ROOM>
    ensures { result.items ≡ answer_spelling answer.now }
{
    let mut sink = AnswerSink {
        bytes: ArrayVec::new(),
    };
    let _written = write_answer(&mut sink, answer);
    sink.bytes
}
