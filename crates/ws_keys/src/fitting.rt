//! Whether the data of an answer fit the read, told without memory.
//!
//! Memory may run out before `split_answer` has seen that parts don't fit, and want of memory is to hide no bad answer.
//! So these calls keep no content, only what may come next.
ghost use Rattle.std.specs.Prelude.{◌≡◌, is_some};
ghost use Rattle.ws_keys.specs.Fitting as Spec;
ghost use Rattle.ws_keys.specs.Readings.{bytes_in, if_cut, read_data};

use crate::answer::sent_length;
use crate::split::{sent_by, starting_at};
use ws_code::Address;
use ws_screen::{ReadKind, Screen};
use ws_stream::AnswerPart;

/// Whether the parts after a head hold something that fits the read.
pub(crate) fn fits_read(screen: &Screen, kind: ReadKind, parts: &[AnswerPart]) -> bool
    ensures { result ≡ is_some (read_data kind screen.now.fields parts.now) }
{
    match kind {
        ReadKind::Input => fits_input(screen, parts),
        ReadKind::Mdt | ReadKind::MdtAlternate => fits_modified(screen, parts),
    }
}

fn fits_input(screen: &Screen, parts: &[AnswerPart]) -> bool
    ensures { result ≡ is_some (if_cut screen.now.fields (bytes_in parts.now)) }
{
    if !are_bytes(parts) {
        return false;
    }
    let fields = screen.fields();
    // A station sends no byte where no field is modified.
    parts.is_empty() || parts.len() == sent_by(fields.as_slice())
}

fn are_bytes(parts: &[AnswerPart]) -> bool
    ensures { result ≡ is_some (bytes_in parts.now) }
{
    for part in parts {
        let AnswerPart::Byte(_) = *part else {
            return false;
        };
    }
    true
}

fn fits_modified(screen: &Screen, parts: &[AnswerPart]) -> bool
    ensures { result ≡ Spec.fits_from screen.now.fields Spec.at_first parts.now }
{
    // No room: a content stands after an address.
    let mut expected = Expected { next: 0, room: 0 };
    for part in parts {
        let Some(behind) = expected.after(screen, *part) else {
            return false;
        };
        expected = behind;
    }
    true
}

/// What may come next of modified fields: an address from `next` on, or one of `room` bytes.
#[derive(Clone, Copy)]
pub(crate) struct Expected {
    next: u16,
    room: u16,
}

impl Expected {
    ghost use Rattle.ws_keys.specs.Fitting.{behind_part, behind_address};

    // What may come after a part; `None` where the part may not come.
    fn after(self, screen: &Screen, part: AnswerPart) -> Option<Expected>
        ensures { result ≡ behind_part screen.now.fields self part }
    {
        match part {
            AnswerPart::Head { .. } => None,
            AnswerPart::Byte(_) => self.after_byte(),
            AnswerPart::At(address) => self.after_address(screen, address),
        }
    }

    fn after_byte(self) -> Option<Expected>
        ensures { result ≡ Spec.behind_byte self }
    {
        if self.room > 0 {
            Some(Expected {
                next: self.next,
                room: self.room - 1,
            })
        } else {
            None
        }
    }

    fn after_address(self, screen: &Screen, address: Address) -> Option<Expected>
        ensures { result ≡ behind_address screen.now.fields self address }
    {
        if address.place() < self.next {
            return None;
        }
        match starting_at(screen, address) {
            Some(field) => Some(Expected {
                next: address.place() + 1,
                room: sent_length(&field),
            }),
            None => None,
        }
    }
}
