//! A station at which lines are carried out.
ghost use Rattle.std.specs.Prelude.{◌≡◌};
ghost use Rattle.ws_entry.specs.Following.{enter as the_enter, follows};
ghost use Rattle.ws_extended_station.specs.ExtendedDisplays.{extended};
ghost use Rattle.ws_live.specs.live.Operating.{SeenStation, Typing, extended_display, seen_entry, seen_on, typed_on_page, typed_plainly};
ghost use Rattle.ws_printing.specs.ReportLines.{reported_by};

use ws_code::{Aid, CodePage};
use ws_entry::{EntryDisplay, TypedKey};
use ws_extended_station::{ExtendedDisplay, ExtendedKey};
use ws_keys::Key;
use ws_lasting::{LastingStation, RecordEvent};
use ws_printing::{OperatedDisplay, PlaceAndReason, StationStatus, page_037};
use ws_session::{Applied, Keyed, StationOn};

/// A station at which lines are carried out.
pub trait LiveStation: Keyed {
    /// The display that it shows.
    type Display: OperatedDisplay;

    /// A key, as a script names it.
    type Named: Drop;

    // What is seen of it.
    ghost seen: { SeenStation Self Self.Display Self.Event };

    // What it makes of a key that a script names.
    ghost typing: { Typing Self Self.Named Self.Key };

    /// The display that it shows.
    fn display(&self) -> &Self::Display
        ensures { result.now ≡ seen.display self.now };

    /// The code page of what is typed and shown.
    fn page(&self) -> CodePage
        ensures { result ≡ seen.page self.now };

    /// What a report can tell of it.
    fn status(&self) -> StationStatus<'_>
        ensures { reported_by result ≡ seen.reported self.now };

    /// Where in the session and why the record was refused of which it has just told this. None where the record was
    /// carried out.
    fn refused(&self, told: &Self::Event) -> Option<PlaceAndReason>
        ensures { result ≡ seen.refused self.now told.now };

    /// Its own key that is pressed for one that a script names.
    fn typed(&self, key: Self::Named) -> Self::Key
        ensures { result ≡ typing.typed self.now key };

    /// The key that follows it where it is carried out, if one does.
    fn following(&self, key: &Self::Named) -> Option<Self::Key>
        ensures { result ≡ typing.follows self.now key.now };

    // A key takes no memory.
    ghost wants_none: { (key : Self.Key) (station : Self) → (Self.keyed key).wants station → ⊥ };
}

// A record that it refuses ends its session, so that none is told of. Its keys are those of the profile, or such as
// these, and none follows.
impl<D: OperatedDisplay> LiveStation for StationOn<D> {
    type Display = D;

    type Named = D::Key;

    ghost seen = { seen_on D.does };

    ghost typing = { typed_plainly };

    fn display(&self) -> &D {
        StationOn::display(self)
    }

    fn page(&self) -> CodePage {
        page_037()
    }

    fn status(&self) -> StationStatus<'_> {
        StationStatus {
            screen: self.screen(),
            is_ready: self.is_ready(),
            records: self.records(),
            taken: self.taken(),
        }
    }

    fn refused(&self, _told: &Applied) -> Option<PlaceAndReason> {
        None
    }

    fn typed(&self, key: D::Key) -> D::Key {
        key
    }

    fn following(&self, _key: &D::Key) -> Option<D::Key> {
        None
    }

    ghost wants_none = { λ key station wants. wants };
}

// It goes on after a record that it refuses, and acts on format words.
impl LiveStation for LastingStation<EntryDisplay> {
    type Display = ExtendedDisplay;

    type Named = ExtendedKey;

    ghost seen = { seen_entry };

    ghost typing = { typed_on_page };

    fn display(&self) -> &ExtendedDisplay {
        LastingStation::display(self).extended()
    }

    fn page(&self) -> CodePage {
        match self.identity() {
            Some(identity) => identity.page,
            None => page_037(),
        }
    }

    fn status(&self) -> StationStatus<'_> {
        StationStatus {
            screen: self.screen(),
            is_ready: self.is_ready(),
            records: self.records(),
            taken: self.taken(),
        }
    }

    fn refused(&self, told: &RecordEvent) -> Option<PlaceAndReason> {
        match told {
            RecordEvent::CarriedOut => None,
            RecordEvent::Refused(record) => {
                let place = self.refused_at().unwrap_or(0);
                Some(PlaceAndReason(place, record.reason))
            }
        }
    }

    fn typed(&self, key: ExtendedKey) -> TypedKey {
        TypedKey {
            key,
            page: self.page(),
        }
    }

    fn following(&self, key: &ExtendedKey) -> Option<TypedKey> {
        if is_followed(self, key) {
            Some(enter(self.page()))
        } else {
            None
        }
    }

    ghost wants_none = { λ key station wants. wants };
}

// Whether Enter follows a key, where the key is carried out now.
fn is_followed(station: &LastingStation<EntryDisplay>, key: &ExtendedKey) -> bool
    ensures { result ≡ follows (extended.shown (extended_display station.now)) key.now }
{
    match key {
        ExtendedKey::Profile(key) => LastingStation::display(station).is_followed(key),
        ExtendedKey::Reset => false,
    }
}

// The Enter key, at a code page.
fn enter(page: CodePage) -> TypedKey
    ensures { result ≡ the_enter page }
{
    match Aid::from_byte(0xf1) {
        Some(aid) => TypedKey {
            key: ExtendedKey::Profile(Key::Aid(aid)),
            page,
        },
        None => unreachable!(),
    }
}
