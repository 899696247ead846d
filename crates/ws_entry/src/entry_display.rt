//! A display that acts on what format words ask of an operator.
ghost use Rattle.std.specs.Prelude.{◌≡◌, ◌||◌, ◌∷◌, [], ℕ, OnErr, None, find, is_some, if◌then◌else◌};
ghost use Rattle.std.specs.Option.{option_map};
ghost use Rattle.ws_end.specs.station.StationEndState.{answer_record};
ghost use Rattle.ws_extended_station.specs.Bytewise.{spelled_alike};
ghost use Rattle.ws_extended_station.specs.ExtendedDisplays.{ExtendedEndState, ExtendedGives};
ghost use Rattle.ws_extended_station.specs.declared.extended_key.ExtendedKey.TheVariants.{Profile as ProfileKey};
ghost use Rattle.ws_entry.specs.EntryDisplays.{EntryHappened, IsGivenBy, carried_through, entered_on, by_format_words};
ghost use Rattle.ws_entry.specs.EntryRules as Spec;

use crate::entered_key::{entered_key, entering, full_after, held_up, is_followed};
use crate::rules::first_lacking;
use crate::{Entering, TypedKey};
use std::marker::Model;
use ws_code::{Address, CodePage, Reason};
use ws_extended::ExtendedCommands;
use ws_extended_station::{ExtendedDisplay, ExtendedKey, ExtendedReply};
use ws_keys::{Answer, Key, KeyRefusal};
use ws_nego::{Reply, TerminalType};
use ws_record::Head;
use ws_screen::Screen;
use ws_session::{StationDisplay, StationOn};

/// The display that live hosts use, which acts on what a field's format word asks of an operator: field exit required,
/// auto enter, mandatory fill, a minus in numeric only fields, capitals by the code page, and room for an insert.
///
/// A contract sees it as the record `EntryParts`.
#[derive(Drop)]
pub struct EntryDisplay {
    display: ExtendedDisplay,
    /// Whether the open field takes no further character before a key leaves it.
    full: bool,
}

/// A display station as live hosts use it, which acts on what format words ask.
pub type EntryStation = StationOn<EntryDisplay>;

impl Model for EntryDisplay {
    ghost use Rattle.ws_extended_station.specs.declared.extended_key.ExtendedKey.TheVariants.{Profile as ProfileKey};
    ghost use Rattle.ws_entry.specs.EntryDisplays.{EntryParts};

    ghost Value = { EntryParts };

    ghost view = { λ d. record { display = d.display; full = d.full } };
}

// Why a key is held up, if it is: only where the keyboard takes keys.
fn held(display: &ExtendedDisplay, full: bool, key: &Key) -> Option<KeyRefusal>
    ensures { result ≡ (if is_some display.now.display.kept || display.now.display.screen.locked
        then None else Spec.held_up display.now.display.screen full key.now) }
{
    if display.error_row().is_some() || display.screen().locked() {
        return None;
    }
    held_up(display.screen(), full, key)
}

// Carries out a key that isn't held up: one that stands in place of the profile's, or that one.
fn carry(
    display: &mut ExtendedDisplay,
    key: Key,
    entering: Option<Entering>,
) -> Result<Option<Answer>, KeyRefusal>
    ensures given { (state : ExtendedEndState) → ExtendedGives state.happened display.old
        → IsGivenBy display.old display.new state (carried_through state key entering) result }
    ensures same { OnErr result (display.new ≡ display.old) }
{
    match entering {
        Some(entering) => display.press_on(&entering),
        None => display.press(ExtendedKey::Profile(key)),
    }
}

// Carries out a key of the profile, by whether the open field is full.
fn press_profile(
    display: &mut ExtendedDisplay,
    full: bool,
    page: CodePage,
    key: Key,
) -> Result<Option<Answer>, KeyRefusal>
    ensures given { (state : ExtendedEndState) → ExtendedGives state.happened display.old
        → IsGivenBy display.old display.new state
        (entered_on display.old.display.screen state full page (ProfileKey key)) result }
    ensures same { OnErr result (display.new ≡ display.old) }
{
    let typed = entered_key(page, display.screen(), &key);
    if let Some(refusal) = held(display, full, &typed) {
        return Err(refusal);
    }
    let entering = entering(display.screen(), full, &typed);
    carry(display, typed, entering)
}

// Carries a key out, by whether the open field is full.
fn carry_out(
    display: &mut ExtendedDisplay,
    full: bool,
    key: TypedKey,
) -> Result<Option<Answer>, KeyRefusal>
    ensures given { (state : ExtendedEndState) → ExtendedGives state.happened display.old
        → IsGivenBy display.old display.new state
        (entered_on display.old.display.screen state full key.page key.key) result }
    ensures same { OnErr result (display.new ≡ display.old) }
{
    let TypedKey { key, page } = key;
    match key {
        ExtendedKey::Profile(key) => press_profile(display, full, page, key),
        ExtendedKey::Reset => display.press(ExtendedKey::Reset),
    }
}

impl EntryDisplay {
    /// Whether the open field is full: a character has filled it, and a key has to leave it.
    pub fn is_full(&self) -> bool
        ensures { result ≡ self.now.full }
    {
        self.full
    }

    /// The first cell of the first field for which a key would now be refused as `MandatoryEnter` or `MandatoryFill`;
    /// `None` at any other refusal.
    pub fn missing(&self, refusal: KeyRefusal) -> Option<Address>
        ensures { result ≡ option_map (λ f. f.start) (find
            (Spec.lacks self.now.display.display.screen refusal)
            self.now.display.display.screen.fields) }
    {
        match first_lacking(self.display.screen(), refusal) {
            Some(field) => Some(field.start),
            None => None,
        }
    }

    /// Whether Enter follows a key, where the key is carried out now.
    pub fn is_followed(&self, key: &Key) -> bool
        ensures { result ≡ Spec.is_followed self.now.display.display.screen key.now }
    {
        is_followed(self.display.screen(), key)
    }

    /// The display that live hosts use.
    pub fn extended(&self) -> &ExtendedDisplay
        ensures { result.now ≡ self.now.display }
    {
        &self.display
    }
}

impl StationDisplay for EntryDisplay {
    type Commands = ExtendedCommands;

    type Key = TypedKey;

    type Reply = ExtendedReply;

    ghost Happened = { EntryHappened };

    ghost PlaceWritten = { Unit {0} };

    ghost Written = { ℕ };

    ghost does = { by_format_words };

    fn new(terminal: TerminalType) -> Self {
        EntryDisplay {
            display: ExtendedDisplay::new(terminal),
            full: false,
        }
    }

    fn reply(bytes: Reply) -> ExtendedReply {
        ExtendedDisplay::reply(bytes)
    }

    fn bytes<'a>(&'a self, reply: &'a ExtendedReply) -> &'a [u8] {
        self.display.bytes(reply)
    }

    fn apply(&mut self, head: Head, kept: &[u8]) -> Result<ExtendedReply, Reason> {
        match self.display.apply(head, kept) {
            Ok(reply) => {
                self.full = false;
                Ok(reply)
            }
            Err(reason) => Err(reason),
        }
    }

    fn sends(key: &TypedKey) -> bool {
        ExtendedDisplay::sends(&key.key)
    }

    fn press(&mut self, key: TypedKey) -> Result<Option<Answer>, KeyRefusal> {
        let full = full_after(self.display.screen(), self.full, &key.key);
        self.display.screen().known();
        match carry_out(&mut self.display, self.full, key) {
            Ok(sent) => {
                self.full = full;
                Ok(sent)
            }
            Err(refusal) => Err(refusal),
        }
    }

    fn screen(&self) -> &Screen {
        self.display.screen()
    }

    fn alarms(&self) -> u64 {
        self.display.alarms()
    }

    ghost spells = { λ screen kind aid. spelled_alike (answer_record screen kind aid ∷ []) };
}
