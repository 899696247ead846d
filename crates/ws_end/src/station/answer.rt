//! The record that a key sends (RFC 1205, section 3).
ghost use Rattle.std.specs.Prelude.{◌≡◌, IfErr, OnOk};
ghost use Rattle.ws_code.specs.Device.{WentOut, FailedWithin};
ghost use Rattle.ws_end.specs.station.AnswerSpelling.{answer_spelling, IsShortAnswer};

use ws_code::{Fault, Sink};
use ws_keys::Answer;
use ws_record::{Opcode, write_record};

/// The flag of a record's header by which it is the Attention key (RFC 1205, section 3, ATN).
pub const ATN: u16 = 0x4000;

/// The flag of a record's header by which it is the System Request key (RFC 1205, section 3, SRQ).
pub const SRQ: u16 = 0x0400;

/// Writes the record that a key sends, with its IAC EOR (RFC 1205, section 3).
///
/// # Errors
///
/// `Write` alone: a write failed, or took no byte. Then only bytes before it went out.
pub fn write_answer<S: Sink>(sink: &mut S, answer: &Answer) -> Result<(), Fault>
    ensures ok { OnOk result (WentOut S.writer sink.old sink.new
        (answer_spelling answer.now)) }
    ensures err { IfErr result (λ fault. (fault ≡ Fault.Write)
        × FailedWithin S.writer sink.old sink.new (answer_spelling answer.now)) }
    ensures short { IsShortAnswer answer.now }
{
    match answer {
        Answer::Read(body) => write_record(sink, 0, Opcode::PutGet, body.as_slice()),
        Answer::Attention => write_record(sink, ATN, Opcode::NoOperation, &[]),
        Answer::SystemRequest => write_record(sink, SRQ, Opcode::NoOperation, &[]),
    }
}
