//! The units of a kept body, one by one.
ghost use Rattle.std.specs.Prelude.{◌≡◌, ◌<◌, ◌++◌, ◌∷◌, [], List, None, Some, IfSome, drop, length};
ghost use Rattle.ws_code.specs.Code.{IsChain, Stands, spelling_of};
ghost use Rattle.ws_stream.specs.Elements.{element_rules};
ghost use Rattle.ws_stream.specs.declared.element.Element.{Element as AnElement};
ghost use Rattle.ws_stream.specs.declared.element.Element.TheVariants.{Put};

use std::marker::Model;
use ws_code::{Body, DataByte, Standing};
use ws_stream::{Commands, Element, Place};

/// Reads units one by one, each from the bytes that begin with it. It is seen as the place where the next one stands.
#[derive(Drop)]
pub(crate) struct UnitReader<B: Body> {
    machine: B,
    at: Standing<B::Place>,
}

impl<B: Body> Model for UnitReader<B> {
    ghost use Rattle.std.specs.Prelude.{◌≡◌, []};
    ghost use Rattle.ws_code.specs.Run.{IsAt};

    ghost Value = { B.Place };

    ghost view = { λ r. B.place r.machine };

    // None has begun.
    ghost invariant = { λ r. IsAt B.rules
        (record { place = B.place r.machine; begun = B.unfinished r.machine }) r.at
        × (B.unfinished r.machine ≡ []) };
}

impl<B: Body> UnitReader<B> {
    /// The next unit stands here.
    pub(crate) fn start(place: B::Place) -> Self
        ensures { result ≡ place }
    {
        UnitReader {
            machine: B::start(place),
            at: Standing {
                place,
                is_inside: false,
            },
        }
    }

    /// Where the next unit stands.
    pub(crate) fn place(&self) -> B::Place
        ensures { result ≡ self.now }
    {
        self.at.place
    }

    /// Reads the unit with which the bytes begin into an empty slot, and gives the bytes behind it. If they begin with
    /// none the slot stays empty, and the next unit stands where it stood.
    #[inline(always)]
    pub(crate) fn read<'a>(&mut self, bytes: &'a [u8], slot: &mut Option<B::Unit>) -> &'a [u8]
        requires { slot.old ≡ None }
        ensures some { (unit : B.Unit) → slot.new ≡ Some unit → Stands B.rules self.old unit
            × (bytes.now ≡ B.rules.spelling unit ++ result.now)
            × (length result.now < length bytes.now)
            × (self.new ≡ B.rules.after unit) }
        ensures none { slot.new ≡ None → (units : List B.Unit)
            → IsChain B.rules self.old units
            → bytes.now ≡ spelling_of B.rules units → units ≡ [] }
        ensures stays { slot.new ≡ None → self.new ≡ self.old }
    {
        let place = self.at.place;
        let run = self.machine.run(&mut self.at, bytes, slot);
        match slot {
            Some(_) => &bytes[run.used..],
            None => {
                *self = Self::start(place);
                bytes
            }
        }
    }
}

// The data byte with which the bytes begin, where data may stand.
#[inline(always)]
fn first_data(place: Place, bytes: &[u8]) -> Option<DataByte>
    ensures stands { IfSome result (λ byte. Stands element_rules place (Put byte)) }
    ensures behind { IfSome result (λ byte. place ≡ element_rules.after (Put byte)) }
    ensures first { IfSome result (λ byte. bytes.now ≡ byte ∷ drop 1 bytes.now) }
{
    if bytes.is_empty() {
        return None;
    }
    match place {
        Place::Anything => DataByte::new(bytes[0]),
        Place::CommandsOnly => None,
    }
}

impl UnitReader<Commands> {
    /// As `read`. Most elements of a long body are data bytes, so a byte is first looked at as one.
    #[inline(always)]
    pub(crate) fn read_element<'a>(
        &mut self,
        bytes: &'a [u8],
        slot: &mut Option<Element>,
    ) -> &'a [u8]
        requires { slot.old ≡ None }
        ensures some { (unit : AnElement) → slot.new ≡ Some unit
            → Stands element_rules self.old unit
            × (bytes.now ≡ element_rules.spelling unit ++ result.now)
            × (length result.now < length bytes.now)
            × (self.new ≡ element_rules.after unit) }
        ensures none { slot.new ≡ None → (units : List AnElement)
            → IsChain element_rules self.old units
            → bytes.now ≡ spelling_of element_rules units → units ≡ [] }
        ensures stays { slot.new ≡ None → self.new ≡ self.old }
    {
        if let Some(byte) = first_data(self.place(), bytes) {
            *slot = Some(Element::Put(byte));
            return &bytes[1..];
        }
        self.read(bytes, slot)
    }
}
