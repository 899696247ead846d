//! What an end does at bytes, and writes at once into a sink: the steps of `Attached` and of `run_station`.
ghost use Rattle.std.specs.Prelude.{◌≡◌, ◌<◌, ◌≤◌, [], true, length, take, IfOk, IfErr};
ghost use Rattle.ws_end.specs.Acts.{all_came, as_list};
ghost use Rattle.ws_end.specs.attached.Attachments as spec;
ghost use Rattle.ws_end.specs.attached.Attachments.{breaks, IfEvents, TellsAtLast};
ghost use Rattle.ws_end.specs.attached.Written.{HasWritten, IsUnheard};

use crate::Refusal;
use crate::end::End;
use crate::end_step::EndFed;
use ws_code::{Fault, Sink, write_whole};

// What a piece led to: how many bytes of it are gone, and what the end told, or why it stopped.
#[derive(Drop)]
pub(crate) struct PieceTaken<T> {
    pub(crate) used: usize,
    pub(crate) event: Result<Option<T>, Fault>,
}

// Takes bytes of the piece as `End::feed` does, and writes what the end answers. An end that is shut refuses the first,
// which is gone too.
pub(crate) fn hear_piece<E: End, K: Sink>(
    end: &mut E,
    sink: &mut K,
    piece: &[u8],
) -> PieceTaken<E::Event>
    requires { 0 < length piece.now }
    // How much of the piece is used.
    ensures within { result.used ≤ length piece.now }
    ensures some { 0 < result.used }
    // What was written, and that nothing was told before the last byte.
    ensures heard { IfOk result.event (λ event. HasWritten E.behaviour K.writer
        end.old end.new sink.old sink.new (all_came (take result.used piece.now)) (as_list event)) }
    ensures first { IfEvents result.event
        (TellsAtLast E.behaviour end.old end.new (take result.used piece.now)) }
    // What stopped it, which breaks the end.
    ensures fault { IfErr result.event (IsUnheard E.behaviour K.writer
        end.old end.new sink.old sink.new (take result.used piece.now)) }
    ensures breaks { IfErr result.event (λ fault. breaks fault ≡ true) }
{
    let EndFed { used, step } = end.feed(piece);
    match step {
        Ok(step) => match write_whole(sink, end.bytes(&step.reply)) {
            Ok(()) => PieceTaken {
                used,
                event: Ok(step.event),
            },
            Err(fault) => PieceTaken {
                used,
                event: Err(fault),
            },
        },
        Err(refusal) => PieceTaken {
            used: used.max(1),
            event: Err(fault_of(refusal)),
        },
    }
}

// A refusal as a fault.
pub(crate) fn fault_of(refusal: Refusal) -> Fault
    ensures { result ≡ spec.fault_of refusal }
{
    match refusal {
        Refusal::At { place, reason } => Fault::Refused { place, reason },
        Refusal::Failed => Fault::Failed,
        Refusal::Memory => Fault::Memory,
    }
}
