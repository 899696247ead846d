//! A saved screen, as it is sent and comes back.
ghost use Rattle.std.specs.Prelude.{◌≡◌, ◌≤◌, ◌∷◌, [], length};
ghost use Rattle.ws_code.specs.Code.{spelling_of};
ghost use Rattle.ws_stream.specs.declared.command_code.TheConstants as codes;
ghost use Rattle.ws_extended.specs.ExtendedElements.{extended_rules};
ghost use Rattle.ws_extended.specs.ExtendedStates.{saved_screen};

use super::MOST_TOLD_BYTES;
use crate::put_image;
use arrayvec::ArrayVec;
use std::marker::Model;
use ws_code::{Body, Keep, Kept};
use ws_screen::Screen;
use ws_stream::command_code::{ESCAPE, RESTORE_SCREEN};
use ws_stream::{Commands, Element};

// The bytes of elements after a Restore Screen, as far as there is room.
#[derive(Drop)]
struct SavedBytes {
    bytes: ArrayVec<u8, MOST_TOLD_BYTES>,
}

impl Model for SavedBytes {
    ghost use Rattle.std.specs.Prelude.{List, ℕ};

    ghost Value = { List ℕ };

    ghost view = { λ s. s.bytes.items };
}

impl SavedBytes {
    fn new() -> Self
        ensures { result ≡ codes.ESCAPE ∷ codes.RESTORE_SCREEN ∷ [] }
    {
        let mut bytes = ArrayVec::new();
        bytes.push(ESCAPE);
        bytes.push(RESTORE_SCREEN);
        SavedBytes { bytes }
    }

    fn as_slice(&self) -> &[u8]
        ensures { result.now ≡ self.now }
    {
        self.bytes.as_slice()
    }
}

impl Keep<Element> for SavedBytes {
    ghost use Rattle.std.specs.Prelude.{◌≡◌};
    ghost use Rattle.ws_code.specs.declared.keep.Kept.{Kept};
    ghost use Rattle.ws_extended.specs.Saving.{IsSaving};

    ghost keeper = { record {
      holds = λ saved units told. IsSaving units saved;
      may_answer = λ answer. answer ≡ Kept.GoOn;
    } };

    fn keep(&mut self, unit: Element) -> Kept {
        let mut spelling = ArrayVec::new();
        Commands::spell(&unit, &mut spelling);
        let _fits = self
            .bytes
            .try_extend_from_slice(spelling.as_slice())
            .is_ok();
        Kept::GoOn
    }

    fn took(&mut self, _values: &[u8]) {}
}

// A Restore Screen and the image of a screen.
fn saved_bytes(screen: &Screen, row: u8) -> SavedBytes
    ensures bytes { result ≡ spelling_of extended_rules (saved_screen row screen.now) }
    ensures fits { length result ≤ MOST_TOLD_BYTES }
{
    screen.known();
    let mut saved = SavedBytes::new();
    match put_image(screen, row, &mut saved) {
        Ok(()) => saved,
        Err(_) => unreachable!(),
    }
}

/// A screen as it is saved, with the row of its error line.
pub(crate) fn put_saved(screen: &Screen, row: u8, told: &mut ArrayVec<u8, MOST_TOLD_BYTES>)
    requires { told.old.items ≡ [] }
    ensures { told.new.items ≡ spelling_of extended_rules (saved_screen row screen.now) }
{
    let saved = saved_bytes(screen, row);
    told.try_extend_from_slice(saved.as_slice()).unwrap();
}
