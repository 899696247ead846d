//! Elements that put one byte into the next cell.
ghost use Rattle.std.specs.Prelude.{◌≡◌, Option, ℕ};
ghost use Rattle.ws_c.specs.Decoding.{byte_put as put_by_element, extended_byte_put};

use ws_code::Body;
use ws_extended::{ExtendedCommands, ExtendedElement};
use ws_stream::{Commands, Element};

/// A code some of whose units put one byte into the next cell.
pub(crate) trait PutsBytes: Body {
    // The byte that a unit puts, where it is such.
    ghost put_by: { Self.Unit → Option ℕ };

    /// The byte that a unit puts, where it is such.
    fn byte_put(unit: &Self::Unit) -> Option<u8>
        ensures { result ≡ put_by unit.now };
}

impl PutsBytes for Commands {
    ghost put_by = { put_by_element };

    fn byte_put(unit: &Element) -> Option<u8> {
        match unit {
            Element::Put(byte) => Some(byte.value()),
            _ => None,
        }
    }
}

impl PutsBytes for ExtendedCommands {
    ghost put_by = { extended_byte_put };

    fn byte_put(unit: &ExtendedElement) -> Option<u8> {
        match unit {
            ExtendedElement::Profile(element) | ExtendedElement::Text(element) => {
                Commands::byte_put(element)
            }
            ExtendedElement::RestoreScreen
            | ExtendedElement::Roll(_)
            | ExtendedElement::WriteError
            | ExtendedElement::Asks(_) => None,
        }
    }
}
