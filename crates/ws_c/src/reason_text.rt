//! Sentences about reasons, for a person.
ghost use Rattle.std.specs.Prelude.{◌≡◌, IfSome, IfNone, Option};
ghost use Rattle.ws_code.specs.Reason.{number_of};
ghost use Rattle.ws_code.specs.declared.reason.Reason.{Reason as AReason};
ghost use Rattle.ws_c.specs.Calls.{HasStatus, crossed, told_length};
ghost use Rattle.ws_c.specs.Reasons.{IsReasonFrom, IsReasonTold};

use crate::buffer::fetch_bytes;
use crate::{Status, Told};
use ws_code::Reason;

// The reason of a number, where there is one.
fn reason_from(number: u8) -> Option<Reason>
    ensures some { IfSome result (λ reason. number_of reason ≡ number) }
    ensures none { IfNone result ((reason : AReason) → number_of reason ≡ number → ⊥) }
{
    match number {
        1 => Some(Reason::BadCommand),
        2 => Some(Reason::StraySe),
        3 => Some(Reason::BadSub),
        4 => Some(Reason::SubTooLong),
        10 => Some(Reason::LengthBelowHeader),
        11 => Some(Reason::BadType),
        12 => Some(Reason::BadReserved),
        13 => Some(Reason::BadVariableLength),
        14 => Some(Reason::UnknownOpcode),
        15 => Some(Reason::TooLong),
        16 => Some(Reason::TooShort),
        20 => Some(Reason::NoEscape),
        21 => Some(Reason::UnknownCommand),
        24 => Some(Reason::BadAddress),
        25 => Some(Reason::BadSohLength),
        26 => Some(Reason::Resequencing),
        27 => Some(Reason::BadEraseList),
        28 => Some(Reason::BadRepeat),
        29 => Some(Reason::BadFormatByte),
        30 => Some(Reason::StructuredField),
        31 => Some(Reason::AlternateSize),
        32 => Some(Reason::SaveRestore),
        33 => Some(Reason::Roll),
        34 => Some(Reason::ErrorCode),
        35 => Some(Reason::ReadScreen),
        36 => Some(Reason::ReadImmediate),
        38 => Some(Reason::ExtendedAttribute),
        39 => Some(Reason::TransparentData),
        40 => Some(Reason::DisplayStructuredField),
        41 => Some(Reason::TooManyFcws),
        42 => Some(Reason::LeftOutShift),
        43 => Some(Reason::BadAid),
        44 => Some(Reason::EndedInside),
        45 => Some(Reason::BadAnswerByte),
        50 => Some(Reason::BackwardAddress),
        51 => Some(Reason::PastEnd),
        52 => Some(Reason::ZeroLength),
        53 => Some(Reason::FieldPastEnd),
        54 => Some(Reason::FieldOverlap),
        55 => Some(Reason::TableFull),
        60 => Some(Reason::RecordBeforeNegotiation),
        61 => Some(Reason::UnsupportedTerminal),
        62 => Some(Reason::UnaskedAnswer),
        63 => Some(Reason::AnswerMismatch),
        _ => None,
    }
}

// What a sentence crosses as.
fn tell_reason(reason: Option<Reason>, buffer: &mut [u8], told: &mut Told) -> Status
    requires { told.old ≡ told_length 0 }
    ensures { IsReasonTold reason (crossed buffer.old buffer.new result told.new) }
{
    match reason {
        Some(reason) => fetch_bytes(reason.text().as_bytes(), buffer, told),
        None => Status::BadArgument,
    }
}

/// Puts the sentence of a reason's number into a buffer, in UTF-8: `told` says of how many bytes it is.
///
/// `BadArgument` where no reason has the number, `NoRoom` where the buffer has fewer bytes; it is then as it was, and
/// `told` zero.
#[unsafe(no_mangle)]
pub extern "C" fn ws_c_reason_text(number: u8, buffer: &mut [u8], told: &mut Told) -> u32
    ensures { HasStatus result (λ status. (reason : Option AReason) × IsReasonFrom number reason
        × IsReasonTold reason (crossed buffer.old buffer.new status told.new)) }
{
    *told = Told::length(0);
    tell_reason(reason_from(number), buffer, told).number()
}
