//! What a stream tells of which records may be refused: after each refusal the next record is read.
ghost use Rattle.std.specs.Prelude.{◌≡◌, ◌==◌, ◌&&◌, List, [], map, IfOk, IfErr};
ghost use Rattle.ws_code.specs.Device.{WentOut, FailedWithin};
ghost use Rattle.ws_record.specs.declared.record.Item.{Item as AnItem};
ghost use Rattle.ws_printing.specs.Printouts.{printout};
ghost use Rattle.ws_trace.specs.Ends.{carry_fault, made_of, told_with};
ghost use Rattle.ws_trace.specs.Tracers.{IsWholeCame};
ghost use Rattle.ws_program.specs.AllTold as Spec;
ghost use Rattle.ws_text.specs.Printing.{Prints};

use crate::shown::Shown;
use std::alloc::Global;
use ws_code::{Fault, Reason, Sink};
use ws_json::{put_json_item, put_json_refusal};
use ws_printing::PlaceAndReason;
use ws_record::Item;
use ws_text::{Listed, Output, Text, texts};
use ws_trace::{Reader, Told};

/// How many records and Telnet commands are whole, and how often something is refused. A count stays at the highest
/// number that it can hold.
#[derive(Clone, Copy)]
pub(crate) struct AllCounts {
    pub(crate) records: u64,
    pub(crate) commands: u64,
    pub(crate) refused: u64,
}

/// What stands before a line: a file's name, where one is told, with a colon and a blank.
#[derive(Clone, Copy)]
pub(crate) struct FileHead<'a>(pub(crate) Option<&'a str>);

impl Text for FileHead<'_> {
    ghost text = { λ h. Spec.file_head h.0 };

    fn put_to<S: Sink>(&self, sink: &mut S, output: Output) -> Output {
        match self.0 {
            Some(name) => texts!(name, ": ").put_to(sink, output),
            None => output,
        }
    }
}

/// How a stream is told.
#[derive(Clone, Copy)]
pub(crate) enum Way<'a> {
    /// Its items as they are shown, and a line for each refusal.
    Lines,
    /// Its items and refusals as objects of JSON.
    Objects,
    /// A line for each refusal alone, after this. No item is carried out.
    Refusals(FileHead<'a>),
}

/// Writes what bytes tell, and tells how often, and whether the stream may end with them.
///
/// A record that is refused as a whole leaves nothing of what its items would make.
///
/// # Errors
///
/// `Memory` where a growth was refused, `Failed` where no more bytes can be counted; `Write` where the sink failed.
pub(crate) fn tell_all<B: Shown, S: Sink>(
    alloc: Global,
    way: Way<'_>,
    bytes: &[u8],
    made: &mut B::Made,
    sink: &mut S,
) -> Result<(AllCounts, bool), Fault>
where
    B::Unit: Listed,
    requires given { B.makes [] made.old }
    ensures told { IfOk result (λ told. Spec.HasToldAll
        B.rules (Spec.told_in way.entry B.Unit.lines_of B.view)
        (printout S.writer sink.old sink.new) bytes.now told.0 told.1
        (λ items. Spec.makes_by way.entry B.makes items made.new)) }
    ensures fault { IfErr result (Spec.IsUntold
        B.rules (Spec.told_in way.entry B.Unit.lines_of B.view)
        (printout S.writer sink.old sink.new) bytes.now) }
{
    let mut reader = Reader::<B>::new(alloc);
    let mut counts = AllCounts {
        records: 0,
        commands: 0,
        refused: 0,
    };
    for (place, byte) in bytes.iter().enumerate() {
        let came = reader.take(*byte)?;
        let refused = carry_out::<B>(way, made, &came);
        counts = tell_came::<B, S>(way, place as u64, &came, refused, counts, sink)?;
    }
    Ok((counts, reader.may_end()))
}

/// Whether nothing is refused and the stream may end.
pub(crate) fn are_accepted(counts: AllCounts, is_whole: bool) -> bool
    ensures { result ≡ (is_whole && counts.refused == 0) }
{
    is_whole && counts.refused == 0
}

// Carries out an item that came, where items are, or tells why it can't be.
fn carry_out<B: Shown>(
    way: Way<'_>,
    made: &mut B::Made,
    came: &Option<Told<B::Unit>>,
) -> Option<Reason>
where
    B::Unit: Listed,
    requires whole { IsWholeCame B.rules came.now }
    requires made { (items : List (AnItem B.Unit))
        × Spec.makes_by way B.makes items made.old }
    ensures fault { (items : List (AnItem B.Unit)) → Spec.makes_by way.entry B.makes items made.old
        → result ≡ carry_fault (Spec.carrying (Spec.told_in way.entry B.Unit.lines_of B.view))
        items came.now }
    ensures after { (items : List (AnItem B.Unit)) → Spec.makes_by way.entry B.makes items made.old
        → Spec.makes_by way.entry B.makes
        (made_of (Spec.carrying (Spec.told_in way.entry B.Unit.lines_of B.view)) items came.now)
        made.new }
{
    if let Way::Refusals(_) = way {
        return None;
    }
    match came {
        Some(Told::Whole(item)) => B::carry_out(made, item).err(),
        _ => None,
    }
}

// Writes what is told of a byte with which this came, and was refused as a whole; and counts it.
fn tell_came<B: Shown, S: Sink>(
    way: Way<'_>,
    place: u64,
    came: &Option<Told<B::Unit>>,
    refused: Option<Reason>,
    counts: AllCounts,
    sink: &mut S,
) -> Result<AllCounts, Fault>
where
    B::Unit: Listed,
    ensures ok { IfOk result (λ more. (more ≡ Spec.counts_after counts
        (map (Spec.told_at place) (told_with came.now refused)))
        × WentOut S.writer sink.old sink.new
        (Spec.lines_told (Spec.told_in way.entry B.Unit.lines_of B.view)
        (map (Spec.told_at place) (told_with came.now refused)))) }
    ensures err { IfErr result (λ fault. (fault ≡ Fault.Write)
        × FailedWithin S.writer sink.old sink.new
        (Spec.lines_told (Spec.told_in way.entry B.Unit.lines_of B.view)
        (map (Spec.told_at place) (told_with came.now refused)))) }
{
    let Some(told) = came else {
        return Ok(counts);
    };
    let counts = tell::<B, S>(way, place, told, counts, sink)?;
    match refused {
        Some(reason) => tell::<B, S>(way, place, &Told::Refused(reason), counts, sink),
        None => Ok(counts),
    }
}

// Writes what is told at a place, and counts it.
fn tell<B: Shown, S: Sink>(
    way: Way<'_>,
    place: u64,
    told: &Told<B::Unit>,
    counts: AllCounts,
    sink: &mut S,
) -> Result<AllCounts, Fault>
where
    B::Unit: Listed,
    ensures ok { IfOk result (λ more. (more ≡ Spec.counts_with counts told.now)
        × WentOut S.writer sink.old sink.new
        (Spec.placed_text (Spec.told_in way.entry B.Unit.lines_of B.view)
        (Spec.told_at place told.now))) }
    ensures err { IfErr result (λ fault. (fault ≡ Fault.Write)
        × FailedWithin S.writer sink.old sink.new
        (Spec.placed_text (Spec.told_in way.entry B.Unit.lines_of B.view)
        (Spec.told_at place told.now))) }
{
    match put_told::<B, S>(sink, Output::Open, way, place, told) {
        Output::Open => Ok(with_told(counts, told)),
        Output::Failed => Err(Fault::Write),
    }
}

// Writes what is told at a place.
fn put_told<B: Shown, S: Sink>(
    sink: &mut S,
    output: Output,
    way: Way<'_>,
    place: u64,
    told: &Told<B::Unit>,
) -> Output
where
    B::Unit: Listed,
    ensures { Prints S.writer sink.old sink.new output result (Spec.placed_text
        (Spec.told_in way.entry B.Unit.lines_of B.view) (Spec.told_at place told.now)) }
{
    match told {
        Told::Whole(item) => match way {
            Way::Lines => B::put_lines(sink, output, place, item),
            Way::Objects => put_json_item(sink, output, "", place, item),
            Way::Refusals(_) => output,
        },
        Told::Refused(reason) => match way {
            Way::Lines => put_refusal(sink, output, FileHead(None), place, *reason),
            Way::Objects => put_json_refusal(sink, output, "", place, *reason),
            Way::Refusals(head) => put_refusal(sink, output, head, place, *reason),
        },
    }
}

// Writes the line of a refusal.
fn put_refusal<S: Sink>(
    sink: &mut S,
    output: Output,
    head: FileHead<'_>,
    place: u64,
    reason: Reason,
) -> Output
    ensures { Prints S.writer sink.old sink.new output result
        (Spec.refused_line (Spec.file_head head.entry.0) place reason) }
{
    let line = texts!("refused at ", PlaceAndReason(place, reason));
    texts!(head, line).put_to(sink, output)
}

// The counts with what is told more.
fn with_told<U>(counts: AllCounts, told: &Told<U>) -> AllCounts
    ensures { result ≡ Spec.counts_with counts told.now }
{
    match told {
        Told::Whole(Item::Record(_)) => AllCounts {
            records: counts.records.saturating_add(1),
            ..counts
        },
        Told::Whole(Item::Telnet(_)) => AllCounts {
            commands: counts.commands.saturating_add(1),
            ..counts
        },
        Told::Refused(_) => AllCounts {
            refused: counts.refused.saturating_add(1),
            ..counts
        },
    }
}
