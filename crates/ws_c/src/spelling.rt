//! Elements of a body as C gives them, spelled (SC30-3533, commands and orders).
ghost use Rattle.std.specs.Prelude.{◌≡◌, ◌≤◌, ◌<◌, Option, IfSome, IfNone, length};
ghost use Rattle.ws_stream.specs.declared.element.Element.{Element as AnElement};
ghost use Rattle.ws_c.specs.declared.spelling.ElementKind.{ElementKind as AKind};
ghost use Rattle.ws_c.specs.Calls.{HasStatus, crossed, status_number, told_length};
ghost use Rattle.ws_c.specs.Spelled.{IsElementFrom, IsElementOf, IsElementOfKind, IsSpellingGiven, element_number};

use crate::buffer::put_front;
use crate::{Status, Told};
use arrayvec::ArrayVec;
use ws_code::{Address, Body, DataByte, Ffw};
use ws_screen::Attribute;
use ws_stream::{Commands, Element, EraseList, FieldStart, SohBytes};

/// An element without its operands.
#[derive(Clone, Copy)]
enum ElementKind {
    ClearUnit,
    ClearFormat,
    Write,
    ReadInput,
    ReadMdt,
    ReadMdtAlternate,
    Header,
    Repeat,
    Erase,
    SetAddress,
    InsertCursor,
    MoveCursor,
    Field,
    OutputField,
    Attribute,
}

/// An element's kind and its operands, of which only those of the kind are read.
#[repr(C)]
#[derive(Clone, Copy)]
pub struct GivenElement {
    /// The number of its kind, from 1.
    pub kind: u32,
    /// The format word of an input field.
    pub format: u16,
    /// How many cells a field has.
    pub length: u16,
    /// The row and the column of a cell, each from 1.
    pub row: u8,
    pub column: u8,
    /// The control characters of a Write to Display or of a read.
    pub cc1: u8,
    pub cc2: u8,
    /// An attribute, or the byte that is repeated.
    pub byte: u8,
}

impl ElementKind {
    /// The kind of this number, where there is one.
    pub(crate) fn from_number(number: u32) -> Option<Self>
        ensures some { IfSome result (λ kind. element_number kind ≡ number) }
        ensures none { IfNone result ((kind : AKind) → element_number kind ≡ number → ⊥) }
    {
        match number {
            1 => Some(ElementKind::ClearUnit),
            2 => Some(ElementKind::ClearFormat),
            3 => Some(ElementKind::Write),
            4 => Some(ElementKind::ReadInput),
            5 => Some(ElementKind::ReadMdt),
            6 => Some(ElementKind::ReadMdtAlternate),
            7 => Some(ElementKind::Header),
            8 => Some(ElementKind::Repeat),
            9 => Some(ElementKind::Erase),
            10 => Some(ElementKind::SetAddress),
            11 => Some(ElementKind::InsertCursor),
            12 => Some(ElementKind::MoveCursor),
            13 => Some(ElementKind::Field),
            14 => Some(ElementKind::OutputField),
            15 => Some(ElementKind::Attribute),
            _ => None,
        }
    }

    // The element of this kind and these operands, of which a list is given apart.
    fn element(self, given: &GivenElement, bytes: &[u8]) -> Option<Element>
        ensures { IsElementOf self given.now bytes.now result }
    {
        let GivenElement {
            format,
            length,
            row,
            column,
            cc1,
            cc2,
            byte,
            ..
        } = *given;
        let element = match self {
            ElementKind::ClearUnit => Element::ClearUnit,
            ElementKind::ClearFormat => Element::ClearFormat,
            ElementKind::Write => Element::Write { cc1, cc2 },
            ElementKind::ReadInput => Element::ReadInput { cc1, cc2 },
            ElementKind::ReadMdt => Element::ReadMdt { cc1, cc2 },
            ElementKind::ReadMdtAlternate => Element::ReadMdtAlternate { cc1, cc2 },
            ElementKind::Header => Element::Soh(SohBytes::new(bytes)?),
            ElementKind::Repeat => Element::Ra {
                to: Address::new(row, column)?,
                byte: DataByte::new(byte)?,
            },
            ElementKind::Erase => Element::Ea {
                to: Address::new(row, column)?,
                kinds: EraseList::new(bytes)?,
            },
            ElementKind::SetAddress => Element::Sba(Address::new(row, column)?),
            ElementKind::InsertCursor => Element::Ic(Address::new(row, column)?),
            ElementKind::MoveCursor => Element::Mc(Address::new(row, column)?),
            ElementKind::Field => Element::Sf(FieldStart::input(
                Ffw::new(format)?,
                &[],
                byte,
                length,
            )?),
            ElementKind::OutputField => Element::Sf(FieldStart::output(byte, length)?),
            ElementKind::Attribute => {
                Element::Put(DataByte::new(Attribute::from_byte(byte)?.byte())?)
            }
        };
        Some(element)
    }
}

// The element of a kind, where there is one.
fn element_of(named: Option<ElementKind>, given: &GivenElement, bytes: &[u8]) -> Option<Element>
    ensures { IsElementOfKind named given.now bytes.now result }
{
    match named {
        Some(kind) => kind.element(given, bytes),
        None => None,
    }
}

// The element that is given, where there is one.
fn element_from(given: &GivenElement, bytes: &[u8]) -> Option<Element>
    ensures { IsElementFrom given.now bytes.now result }
{
    let named = ElementKind::from_number(given.kind);
    element_of(named, given, bytes)
}

// What an element's spelling crosses as, where there is one.
fn tell_spelling(element: Option<Element>, buffer: &mut [u8], told: &mut Told) -> Status
    requires room { 32 ≤ length buffer.old }
    requires untold { told.old ≡ told_length 0 }
    ensures { IsSpellingGiven element (crossed buffer.old buffer.new result told.new) }
{
    match element {
        Some(element) => {
            let mut spelled = ArrayVec::new();
            Commands::spell(&element, &mut spelled);
            *told = Told::length(put_front(buffer, spelled.as_slice()));
            Status::Done
        }
        None => Status::BadArgument,
    }
}

/// Puts the spelling of an element into a buffer: `told` says of how many bytes it is. `bytes` are those of a Start of
/// Header, or the attribute types of an Erase to Address.
///
/// `BadArgument` where no element is of the kind and the operands, `NoRoom` where the buffer has fewer than 32 bytes; it
/// is then as it was, and `told` zero.
#[unsafe(no_mangle)]
pub extern "C" fn ws_c_spell(
    given: &GivenElement,
    bytes: &[u8],
    buffer: &mut [u8],
    told: &mut Told,
) -> u32
    ensures room { length buffer.old < 32 → (result ≡ status_number Status.NoRoom)
        × (buffer.new ≡ buffer.old) × (told.new ≡ told_length 0) }
    ensures spelled { 32 ≤ length buffer.old → (element : Option AnElement)
        × IsElementFrom given.now bytes.now element × HasStatus result (λ status.
        IsSpellingGiven element (crossed buffer.old buffer.new status told.new)) }
{
    *told = Told::length(0);
    if buffer.len() < 32 {
        return Status::NoRoom.number();
    }
    tell_spelling(element_from(given, bytes), buffer, told).number()
}
