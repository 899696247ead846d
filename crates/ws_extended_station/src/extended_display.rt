//! The display that live hosts use, as a station stands on it.
ghost use Rattle.std.specs.Prelude.{◌≡◌, ◌≤◌, ◌+◌, ◌++◌, ◌∷◌, [], ℕ, None, length, map};
ghost use Rattle.ws_record.specs.Encode.{plain_spelling};
ghost use Rattle.ws_record.specs.RawBody.{raw_rules};
ghost use Rattle.ws_end.specs.station.StationEndState.{answer_record, opcode_answer};
ghost use Rattle.ws_extended.specs.ExtendedStates.{ExtendedState};
ghost use Rattle.ws_extended.specs.ExtendedViews.{Shows};
ghost use Rattle.ws_extended_station.specs.Bytewise.{by_bytes, spelled_alike};
ghost use Rattle.ws_extended_station.specs.ExtendedDisplays.{ExtendedHappened, extended, standing_row};
ghost use Rattle.ws_extended_station.specs.ExtendedRecords as spec;

mod screen_keys;

use crate::carrying_out::apply_kept;
use crate::record_bytes::{EMPTY_RECORD_BYTES, MOST_RECORD_BYTES, MOST_WRITTEN_BYTES, put_record};
use crate::{ExtendedKey, ExtendedReply};
use arrayvec::ArrayVec;
use std::marker::Model;
use ws_code::Reason;
use ws_extended::{Ask, ExtendedCommands, ExtendedScreen, put_told};
use ws_keys::{Answer, KeyRefusal};
use ws_nego::{Reply, TerminalType};
use ws_record::{Head, Opcode};
use ws_screen::Screen;
use ws_session::{ProfileDisplay, StationDisplay, StationOn};

/// The display that live hosts use: a screen with an error line, which is asked at once for what it shows, and the
/// count of the host's alarms.
///
/// A contract sees it as the record `DisplayParts`.
#[derive(Drop)]
pub struct ExtendedDisplay {
    screen: ExtendedScreen,
    alarms: u64,
    /// Room for the display before a record, which comes back where the record is refused.
    before: ExtendedScreen,
    terminal: TerminalType,
    /// What the last record had it write.
    told: ArrayVec<u8, MOST_WRITTEN_BYTES>,
}

/// A display station as live hosts use it: that of the profile, and what they send beside it.
pub type ExtendedStation = StationOn<ExtendedDisplay>;

impl Model for ExtendedDisplay {
    ghost use Rattle.std.specs.Prelude.{◌≡◌, None};
    ghost use Rattle.ws_extended_station.specs.ExtendedDisplays.{DisplayParts};

    ghost Value = { DisplayParts };

    ghost view = { λ d. record { display = d.screen; alarms = d.alarms; terminal = d.terminal; told = d.told.items } };

    // Between records no write is open.
    ghost invariant = { λ d. d.screen.screen.writing ≡ None };
}

// The opcode of what is told at once.
fn told_opcode(ask: Ask) -> Opcode
    ensures { result ≡ spec.told_opcode ask }
{
    match ask {
        Ask::Query => Opcode::NoOperation,
        Ask::SaveScreen => Opcode::SaveScreen,
        Ask::ReadScreen | Ask::ReadImmediate | Ask::ReadImmediateAlternate => Opcode::PutGet,
    }
}

// Puts what is told of a display that is asked behind what is written.
fn put_asked(
    written: &mut ArrayVec<u8, MOST_WRITTEN_BYTES>,
    display: &ExtendedScreen,
    terminal: TerminalType,
    ask: Option<Ask>,
)
    requires closed { display.now.screen.writing ≡ None }
    requires room { length written.old.items + MOST_RECORD_BYTES ≤ MOST_WRITTEN_BYTES }
    ensures told { (state : ExtendedState) → Shows state display.now
        → written.new.items ≡ written.old.items
        ++ plain_spelling raw_rules (spec.told_items terminal state ask) }
    ensures size { length written.new.items
        ≤ length written.old.items + MOST_RECORD_BYTES }
{
    if let Some(ask) = ask {
        let mut body = ArrayVec::new();
        put_told(ask, terminal, display, &mut body);
        put_record(written, told_opcode(ask), body.as_slice());
    }
}

// Puts the answer to Cancel Invite behind what is written.
fn put_opcode_answer(written: &mut ArrayVec<u8, MOST_WRITTEN_BYTES>, opcode: Opcode)
    requires room { length written.old.items + EMPTY_RECORD_BYTES ≤ MOST_WRITTEN_BYTES }
    ensures answer { written.new.items ≡ written.old.items
        ++ plain_spelling raw_rules (map by_bytes (opcode_answer opcode)) }
    ensures size { length written.new.items
        ≤ length written.old.items + EMPTY_RECORD_BYTES }
{
    if opcode == Opcode::CancelInvite {
        put_record(written, Opcode::CancelInvite, &[]);
    }
}

impl ExtendedDisplay {
    /// The row on which an error stands, if one does (SC30-3533, Write Error Code command). Then all keys wait for
    /// Reset but Attention and System Request.
    pub fn error_row(&self) -> Option<u8>
        ensures { result ≡ standing_row self.now.display }
    {
        if self.screen.error_stands() {
            Some(self.screen.error_row())
        } else {
            None
        }
    }
}

impl StationDisplay for ExtendedDisplay {
    type Commands = ExtendedCommands;

    type Key = ExtendedKey;

    type Reply = ExtendedReply;

    ghost Happened = { ExtendedHappened };

    ghost PlaceWritten = { Unit {0} };

    ghost Written = { ℕ };

    ghost does = { extended };

    fn new(terminal: TerminalType) -> Self {
        let screen = ExtendedScreen::new();
        let before = ExtendedScreen::new();
        let told = ArrayVec::new();
        ExtendedDisplay {
            screen,
            alarms: 0,
            before,
            terminal,
            told,
        }
    }

    fn reply(bytes: Reply) -> ExtendedReply {
        ExtendedReply::Bytes(bytes)
    }

    fn bytes<'a>(&'a self, reply: &'a ExtendedReply) -> &'a [u8] {
        match reply {
            ExtendedReply::Bytes(bytes) => bytes.as_slice(),
            ExtendedReply::Kept => self.told.as_slice(),
        }
    }

    fn apply(&mut self, head: Head, kept: &[u8]) -> Result<ExtendedReply, Reason> {
        match apply_kept(&mut self.screen, &mut self.before, head.opcode, kept) {
            Ok(heard) => {
                self.alarms = self.alarms.saturating_add(heard.alarms);
                self.told.clear();
                let ask = heard.asked.ask;
                put_asked(&mut self.told, &self.screen, self.terminal, ask);
                put_opcode_answer(&mut self.told, head.opcode);
                Ok(ExtendedReply::Kept)
            }
            Err(reason) => Err(reason),
        }
    }

    fn sends(key: &ExtendedKey) -> bool {
        match key {
            ExtendedKey::Profile(key) => ProfileDisplay::sends(key),
            ExtendedKey::Reset => false,
        }
    }

    fn press(&mut self, key: ExtendedKey) -> Result<Option<Answer>, KeyRefusal> {
        match key {
            ExtendedKey::Profile(key) => {
                self.screen.screen().known();
                self.screen.press(key)
            }
            ExtendedKey::Reset => {
                self.screen.reset();
                Ok(None)
            }
        }
    }

    fn screen(&self) -> &Screen {
        self.screen.screen()
    }

    fn alarms(&self) -> u64 {
        self.alarms
    }

    ghost spells = { λ screen kind aid. spelled_alike (answer_record screen kind aid ∷ []) };
}
