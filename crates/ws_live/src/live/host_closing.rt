//! How lines close at a host: one that sends, and one that waits for what is told; at a host of the profile, and at one
//! that takes any record.
ghost use Rattle.std.specs.Prelude.{◌≡◌, List, ℕ, Bool, Ok, IfOk, false};
ghost use Rattle.ws_code.specs.Device.{on_devices};
ghost use Rattle.ws_live.specs.live.Hearing as Spec;
ghost use Rattle.ws_live.specs.live.LiveText.{line_result, stops};
ghost use Rattle.ws_live.specs.live.ServeText.{given_outcome, given_text};
ghost use Rattle.ws_live.specs.live.Watches.{watched_devices};
ghost use Rattle.ws_text.specs.Printing.{Prints};

use crate::live::sentences::SentenceLine;
use crate::live::watch::Watch;
use crate::live::{ByLine, Carried, Closing};
use ws_code::{Fault, Sink, Source};
use ws_printing::{Play, put_event};
use ws_session::{Acted, Attached, End, Event, SendFault};
use ws_text::{As, Output, Text, texts};

/// An end at which lines wait for what it tells.
pub trait HeardEnd: End {
    /// What is awaited of what it tells.
    type Awaited;

    // What is printed of what it tells, and whether that is what is awaited.
    ghost prints: { Self.Event → List ℕ };

    ghost meets: { Self.Awaited → Self.Event → Bool };

    /// Prints what it tells.
    fn put_told<O: Sink>(out: &mut O, output: Output, told: &Self::Event) -> Output
        ensures { Prints O.writer out.old out.new output result (prints told.now) };

    /// Whether what it tells is what is awaited.
    fn is_awaited(awaited: &Self::Awaited, told: &Self::Event) -> bool
        ensures { result ≡ meets awaited.now told.now };
}

/// Takes what the other side sends up to the first thing that the end tells, which it prints and gives.
pub fn hear_one<E: HeardEnd, S: Source, K: Sink, W: Watch<S>, O: Sink>(
    attached: &mut Attached<E, S, K>,
    watch: &W,
    out: &mut O,
    output: Output,
) -> (Carried, Option<E::Event>)
    requires works { attached.old.broken ≡ false }
    ensures heard { (text : List ℕ) × Spec.HearsOne E.behaviour E.prints
        (watched_devices (on_devices K.writer S.reader) W.tells)
        attached.old result.1 (line_result result.0.outcome text) attached.new
        × Prints O.writer out.old out.new output result.0.output text }
    ensures works { IfOk result.0.outcome (λ closing.
        stops closing ≡ false → attached.new.broken ≡ false) }
{
    match attached.hear() {
        Ok(Some(told)) => {
            let output = E::put_told(out, output, &told);
            (Carried::new(output, Ok(Closing::Done)), Some(told))
        }
        Ok(None) => (Carried::new(output, Ok(Closing::Ended)), None),
        Err(fault) => {
            let carried = put_unheard(watch, attached.source(), out, output, fault);
            (carried, None)
        }
    }
}

/// Takes what the other side sends up to what is awaited, and prints what the end tells.
pub fn hear_until<E: HeardEnd, S: Source, K: Sink, W: Watch<S>, O: Sink>(
    attached: &mut Attached<E, S, K>,
    watch: &W,
    awaited: &E::Awaited,
    out: &mut O,
    output: Output,
) -> Carried
    requires works { attached.old.broken ≡ false }
    ensures heard { (text : List ℕ) × Spec.HearsUntil E.behaviour E.prints
        (watched_devices (on_devices K.writer S.reader) W.tells) (E.meets awaited.now)
        attached.old (line_result result.outcome text) attached.new
        × Prints O.writer out.old out.new output result.output text }
    ensures works { IfOk result.outcome (λ closing.
        stops closing ≡ false → attached.new.broken ≡ false) }
{
    let mut output = output;
    for _ in 0..4_294_967_296u64 {
        let (carried, told) = hear_one(attached, watch, out, output);
        match told {
            None => return carried,
            Some(told) => {
                if E::is_awaited(awaited, &told) {
                    return carried;
                }
            }
        }
        output = carried.output;
    }
    Carried::new(output, Err(Fault::Read))
}

/// Tells what came of a send, by a line of this number: nothing where it went out, and how it was refused.
pub fn put_given<O: Sink>(
    out: &mut O,
    output: Output,
    line: Option<u64>,
    given: Result<Acted<SendFault>, Fault>,
) -> Carried
    ensures outcome { result.outcome ≡ given_outcome given }
    ensures text { Prints O.writer out.old out.new output result.output (given_text line given) }
{
    match given {
        Ok(Acted::Done) => Carried::new(output, Ok(Closing::Done)),
        Ok(Acted::Refused(fault)) => {
            let told = texts!("send refused ", As(&fault, Play), ByLine(line), "\n");
            Carried::new(told.put_to(out, output), Ok(Closing::Declined))
        }
        Err(fault) => Carried::new(output, Err(fault)),
    }
}

// Tells what came of a wait that a fault ended: the byte that was refused, if one was, and what its reason says. Where a
// read failed, the watch says whether that is for want of time.
fn put_unheard<S, W: Watch<S>, O: Sink>(
    watch: &W,
    source: &S,
    out: &mut O,
    output: Output,
    fault: Fault,
) -> Carried
    ensures { (late : Bool) × (fault ≡ Fault.Read → W.tells.is_late source.now late)
        × (result.outcome ≡ Spec.unheard_outcome late fault)
        × Prints O.writer out.old out.new output result.output
        (Spec.unheard_text fault) }
{
    match fault {
        Fault::Refused { place, reason } => {
            let output = put_event(out, output, &Event::HostRefused { place, reason });
            Carried {
                output: SentenceLine(reason).put_to(out, output),
                outcome: Ok(Closing::Stopped),
            }
        }
        Fault::Read => Carried::new(output, unread(watch, source)),
        _ => Carried::new(output, Err(fault)),
    }
}

// How a wait closes at which a read failed.
fn unread<S, W: Watch<S>>(watch: &W, source: &S) -> Result<Closing, Fault>
    ensures { (late : Bool) × W.tells.is_late source.now late
        × (result ≡ Spec.unheard_outcome late Fault.Read) }
{
    if watch.is_late(source) {
        Ok(Closing::Late)
    } else {
        Err(Fault::Read)
    }
}
