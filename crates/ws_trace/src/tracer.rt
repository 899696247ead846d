//! An end's stream as it is traced: its items are read and carried out, and entries made of them.
ghost use Rattle.std.specs.Prelude.{◌≡◌, ◌++◌, ◌∷◌, [], IfErr, OnOk, length, map};
ghost use Rattle.ws_trace.specs.Dialogues.{IsEndCount};
ghost use Rattle.ws_trace.specs.Ends.{EndAt, end_begins, entry_at, carry_fault, made_of, told_with};
ghost use Rattle.ws_trace.specs.Reading.{IsCountFault};
ghost use Rattle.ws_trace.specs.Tracers.{IsAdded, IsOverfull, IsWholeCame, Tracks};

use crate::reader::Reader;
use crate::traced::Traced;
use crate::{EndCount, Entry, Told};
use std::alloc::Global;
use std::marker::Model;
use ws_code::{Fault, Reason};

/// An end's stream as it is traced.
#[derive(Drop)]
pub(crate) struct Tracer<B: Traced> {
    reader: Reader<B>,
    made: B::Made,
    taken: u64,
}

impl<B: Traced> Model for Tracer<B> {
    ghost use Rattle.ws_trace.specs.Tracers.{TracerParts};

    ghost Value = { TracerParts B.Place B.Unit B.Made };

    ghost view = { λ t. record { reader = t.reader; made = t.made; taken = t.taken } };
}

impl<B: Traced> Tracer<B> {
    /// One that has taken no byte.
    pub(crate) fn new(alloc: Global) -> Self
        ensures { Tracks B.rules B.is_made result (end_begins B.tracing) }
    {
        Tracer {
            reader: Reader::new(alloc),
            made: B::before_any(),
            taken: 0,
        }
    }

    /// Takes bytes that came at a time, and adds their entries. `Memory` comes where a growth was refused, `Failed`
    /// where no more bytes can be counted.
    pub(crate) fn take_all(
        &mut self,
        milliseconds: u64,
        bytes: &[u8],
        entries: &mut Vec<Entry>,
    ) -> Result<(), Fault>
        requires { (at : EndAt B.Unit B.State) × Tracks B.rules B.is_made self.old at }
        ensures heard { OnOk result ((at : EndAt B.Unit B.State)
            → Tracks B.rules B.is_made self.old at
            → IsAdded B.rules B.tracing (entry_at B.told_as milliseconds) at bytes.now
            entries.old.items entries.new.items (Tracks B.rules B.is_made self.new)) }
        ensures fault { IfErr result (IsCountFault
            (IsOverfull B.rules B.is_made self.old (length bytes.now))) }
    {
        for byte in bytes {
            self.take(milliseconds, *byte, entries)?;
        }
        Ok(())
    }

    // Takes a byte, and adds its entries.
    fn take(&mut self, milliseconds: u64, byte: u8, entries: &mut Vec<Entry>) -> Result<(), Fault>
        requires { (at : EndAt B.Unit B.State) × Tracks B.rules B.is_made self.old at }
        ensures heard { OnOk result ((at : EndAt B.Unit B.State)
            → Tracks B.rules B.is_made self.old at
            → IsAdded B.rules B.tracing (entry_at B.told_as milliseconds) at (byte ∷ [])
            entries.old.items entries.new.items (Tracks B.rules B.is_made self.new)) }
        ensures fault { IfErr result (IsCountFault (IsOverfull B.rules B.is_made self.old 1)) }
    {
        let place = self.taken;
        let Some(taken) = place.checked_add(1) else {
            return Err(Fault::Failed);
        };
        let came = self.reader.take(byte)?;
        let refused = carry_out::<B>(&mut self.made, &came);
        self.taken = taken;
        add_all::<B>(milliseconds, place, came, refused, entries)
    }

    /// How many bytes have come, and whether the stream may end with them.
    pub(crate) fn finish(&mut self) -> EndCount
        ensures { (at : EndAt B.Unit B.State) → Tracks B.rules B.is_made self.old at
            → IsEndCount B.rules at result }
    {
        EndCount {
            bytes: self.taken,
            is_whole: self.reader.may_end(),
        }
    }
}

// Carries out an item that came, or tells why it can't be.
fn carry_out<B: Traced>(made: &mut B::Made, came: &Option<Told<B::Unit>>) -> Option<Reason>
    requires whole { IsWholeCame B.rules came.now }
    requires made { (state : B.State) × B.is_made state made.old }
    ensures fault { (state : B.State) → B.is_made state made.old
        → result ≡ carry_fault B.tracing state came.now }
    ensures after { (state : B.State) → B.is_made state made.old
        → B.is_made (made_of B.tracing state came.now) made.new }
{
    match came {
        Some(Told::Whole(item)) => B::carry_out(made, item).err(),
        _ => None,
    }
}

// Adds the entries of what came of a byte, and was refused as a whole.
fn add_all<B: Traced>(
    milliseconds: u64,
    place: u64,
    came: Option<Told<B::Unit>>,
    refused: Option<Reason>,
    entries: &mut Vec<Entry>,
) -> Result<(), Fault>
    ensures added { OnOk result (entries.new.items ≡ entries.old.items
        ++ map (entry_at B.told_as milliseconds place) (told_with came refused)) }
    ensures fault { IfErr result (λ fault. fault ≡ Fault.Memory) }
{
    let Some(told) = came else {
        return Ok(());
    };
    add::<B>(milliseconds, place, told, entries)?;
    match refused {
        Some(reason) => add::<B>(milliseconds, place, Told::Refused(reason), entries),
        None => Ok(()),
    }
}

// Adds an entry.
fn add<B: Traced>(
    milliseconds: u64,
    place: u64,
    told: Told<B::Unit>,
    entries: &mut Vec<Entry>,
) -> Result<(), Fault>
    ensures added { OnOk result (entries.new.items ≡ entries.old.items
        ++ entry_at B.told_as milliseconds place told ∷ []) }
    ensures fault { IfErr result (λ fault. fault ≡ Fault.Memory) }
{
    let entry = Entry {
        milliseconds,
        place,
        told: B::as_told(told),
    };
    if entries.push(entry).is_err() {
        return Err(Fault::Memory);
    }
    Ok(())
}
