//! The items of a stream as lines, and what they make.
ghost use Rattle.std.specs.Prelude.{◌≡◌, ◌++◌, ◌+◌, ◌<◌, ◌^◌, Bool, List, ℕ, length, true};
ghost use Rattle.ws_record.specs.Grammar.{IsInGrammar};
ghost use Rattle.ws_record.specs.declared.record.Item.{Item as AnItem};
ghost use Rattle.ws_stream.specs.Elements.{element_rules};
ghost use Rattle.ws_stream.specs.declared.element.Element.{Element as AnElement};
ghost use Rattle.ws_printing.specs.Printouts.{printout};
ghost use Rattle.ws_printing.specs.declared.look.Look.{Look as ALook};
ghost use Rattle.ws_program.specs.ShownSources.{IsSourceShown};
ghost use Rattle.ws_program.specs.StreamText.{showing, show_printing, IsShown, AreFirstLines, HasShown, IsPieceShown};
ghost use Rattle.ws_program.specs.Views.{host_view, in_look};
ghost use Rattle.ws_text.specs.Printed.{IsPrinted};
ghost use Rattle.ws_text.specs.Shown.{ShowsElements};

use crate::shown::Shown;
use std::alloc::Global;
use ws_code::{DeviceFailed, Fault, Sink, Source};
use ws_printing::{Look, Paint, Verdict, verdict_by_fault};
use ws_record::Receiver;
use ws_stream::Commands;
use ws_text::Output;

/// Writes the items of a host's stream, and the screen that its records make: true where the stream is accepted.
///
/// A record is written and then applied. Where the stream is accepted, what is written shows its items, as
/// `ws_text::read_items` reads them back. The rest is said at `show_body_to`.
///
/// # Errors
///
/// As `show_body_to`.
pub fn show_to<S: Sink>(alloc: Global, bytes: &[u8], sink: &mut S) -> Result<bool, Fault>
    ensures printed { IsPrinted S.writer sink.old sink.new
        (show_printing (showing element_rules host_view) bytes.now) result }
    ensures parts_begin { (accepted : Bool) (whole part : List ℕ)
        → IsShown (showing element_rules host_view) bytes.now accepted whole
        → AreFirstLines (showing element_rules host_view) bytes.now part
        → (rest : List ℕ) × (whole ≡ part ++ rest) }
    ensures read_back { (text : List ℕ)
        → IsShown (showing element_rules host_view) bytes.now true text
        → (items : List (AnItem AnElement)) × IsInGrammar element_rules bytes.now items
        × ShowsElements text items }
{
    show_body_to::<Commands, S>(alloc, Look::on_037(Paint::Plain), bytes, sink)
}

/// Writes the items of a stream, and in a paint and on a page what stands behind them: true where the stream is
/// accepted.
///
/// Of a host's stream that is the screen that its records make; of a station's nothing. An item is written and then
/// carried out. Where the stream is refused or ends too early, or an item can't be carried out, the line of a check is
/// the last.
///
/// # Errors
///
/// `Memory` where the growth for a unit of the record behind the items was refused, whose lines went out, and no byte
/// up to that unit's last one is refused; `Write` where the sink failed, and then a proper prefix of the lines went
/// out. The lines that went out begin all of them.
pub(crate) fn show_body_to<B: Shown, S: Sink>(
    alloc: Global,
    look: Look,
    bytes: &[u8],
    sink: &mut S,
) -> Result<bool, Fault>
    ensures { IsPrinted S.writer sink.old sink.new
        (show_printing (showing B.rules (in_look B.view B.Ends look)) bytes.now) result }
{
    let mut receiver = Receiver::<B>::new(alloc);
    let mut made = B::before_any();
    if !show_piece::<B, S>(&mut receiver, bytes, &mut made, sink)? {
        return Ok(false);
    }
    write_end::<B, S>(look, &mut receiver, &made, sink)
}

/// Writes the same of all bytes that the source gives, while they are read: up to its end or to the piece with which it
/// is decided what is written. None of them is kept but the units of the open record.
///
/// # Errors
///
/// `Read` where a read failed, or 4,294,967,296 reads didn't reach the end, and then the lines of all items before went
/// out; else as `show_body_to`.
pub(crate) fn show_source_to<B: Shown, R: Source, S: Sink>(
    alloc: Global,
    look: Look,
    source: &mut R,
    sink: &mut S,
) -> Result<bool, Fault>
    ensures { IsSourceShown R.reader source.old source.new (printout S.writer sink.old sink.new)
        (showing B.rules (in_look B.view B.Ends look))
        (λ printing bytes. IsPrinted S.writer sink.old sink.new (printing bytes) result) }
{
    let mut receiver = Receiver::<B>::new(alloc);
    let mut made = B::before_any();
    let mut room = [0u8; 4096];
    for _ in 0..4_294_967_296u64 {
        match source.read(&mut room) {
            Ok(0) => return write_end::<B, S>(look, &mut receiver, &made, sink),
            Ok(given) => {
                if !show_piece::<B, S>(&mut receiver, &room[..given], &mut made, sink)? {
                    return Ok(false);
                }
            }
            Err(DeviceFailed) => return Err(Fault::Read),
        }
    }
    Err(Fault::Read)
}

// Writes the items that are complete with a piece, and carries them out: true where the stream may go on, false behind
// the line of why it may not. In no paint and on no page does an item show otherwise.
fn show_piece<B: Shown, S: Sink>(
    receiver: &mut Receiver<B>,
    piece: &[u8],
    made: &mut B::Made,
    sink: &mut S,
) -> Result<bool, Fault>
    requires { (from : S) × (look : ALook) × (bytes : List ℕ) × HasShown
        (printout S.writer from sink.old) (showing B.rules (in_look B.view B.Ends look)) B.makes
        bytes receiver.old made.old × (length bytes + length piece.now + 1 < 2 ^ 64) }
    ensures { (from : S) (look : ALook) (bytes : List ℕ) → HasShown
        (printout S.writer from sink.old) (showing B.rules (in_look B.view B.Ends look)) B.makes
        bytes receiver.old made.old → length bytes + length piece.now + 1 < 2 ^ 64
        → IsPieceShown (printout S.writer from sink.new)
        (showing B.rules (in_look B.view B.Ends look)) B.makes (bytes ++ piece.now) receiver.new
        made.new result }
{
    let mut used = 0;
    while used < piece.len() {
        let fed = match receiver.feed(&piece[used..]) {
            Ok(fed) => fed,
            // The line of a stream that isn't accepted doesn't tell its size.
            Err(fault) => return verdict_by_fault(fault)?.write_to(0, sink),
        };
        used += fed.used;
        if let Some(item) = fed.item {
            let place = receiver.taken().saturating_sub(1);
            match B::put_lines(sink, Output::Open, place, &item) {
                Output::Open => {}
                Output::Failed => return Err(Fault::Write),
            }
            if let Err(reason) = B::carry_out(made, &item) {
                return Verdict::Refused { place, reason }.write_to(0, sink);
            }
        }
    }
    Ok(true)
}

// Writes what stands behind all items of a stream that ends, or the line of one that ends too early.
fn write_end<B: Shown, S: Sink>(
    look: Look,
    receiver: &mut Receiver<B>,
    made: &B::Made,
    sink: &mut S,
) -> Result<bool, Fault>
    ensures { (from : S) (bytes : List ℕ) → HasShown (printout S.writer from sink.old)
        (showing B.rules (in_look B.view B.Ends look)) B.makes bytes receiver.old made.now
        → length bytes + 1 < 2 ^ 64 → IsPrinted S.writer from sink.new
        (show_printing (showing B.rules (in_look B.view B.Ends look)) bytes) result }
{
    if let Err(fault) = receiver.finish() {
        return verdict_by_fault(fault)?.write_to(0, sink);
    }
    match B::put_end(sink, Output::Open, look, made) {
        Output::Open => Ok(true),
        Output::Failed => Err(Fault::Write),
    }
}
