//! The profile's display, as a station stands on it.
ghost use Rattle.std.specs.Prelude.{refl, ◌≡◌};
ghost use Rattle.ws_screen.specs.Events.{History};
ghost use Rattle.ws_stream.specs.declared.answer_part.AnswerPart.{AnswerPart};
ghost use Rattle.ws_stream.specs.declared.answer_place.AnswerPlace.{AnswerPlace};
ghost use Rattle.ws_end.specs.station.StationEndState.{profile};

use crate::StationDisplay;
use crate::station::apply::{apply_kept, opcode_reply};
use std::marker::Model;
use ws_code::Reason;
use ws_keys::{Answer, Key, KeyRefusal, press};
use ws_nego::{Reply, TerminalType};
use ws_record::Head;
use ws_screen::Screen;
use ws_stream::Commands;

/// The display of the profile: a screen, and the count of the host's alarms.
///
/// A contract sees it as the record `ProfileParts`.
#[derive(Drop)]
pub struct ProfileDisplay {
    screen: Screen,
    alarms: u64,
    /// Room for the screen before a record, which comes back where the record is refused.
    before: Screen,
}

impl Model for ProfileDisplay {
    ghost use Rattle.std.specs.Prelude.{◌≡◌, None};
    ghost use Rattle.ws_end.specs.station.StationEndState.{ProfileParts};

    ghost Value = { ProfileParts };

    ghost view = { λ d. record { screen = d.screen; alarms = d.alarms } };

    // Between records no write is open.
    ghost invariant = { λ d. d.screen.writing ≡ None };
}

impl StationDisplay for ProfileDisplay {
    type Commands = Commands;

    type Key = Key;

    type Reply = Reply;

    ghost Happened = { History };

    ghost PlaceWritten = { AnswerPlace };

    ghost Written = { AnswerPart };

    ghost does = { profile };

    fn new(_terminal: TerminalType) -> Self {
        let screen = Screen::new();
        let before = Screen::new();
        ProfileDisplay {
            screen,
            alarms: 0,
            before,
        }
    }

    fn reply(bytes: Reply) -> Reply {
        bytes
    }

    fn bytes<'a>(&'a self, reply: &'a Reply) -> &'a [u8] {
        reply.as_slice()
    }

    fn apply(&mut self, head: Head, kept: &[u8]) -> Result<Reply, Reason> {
        match apply_kept(&mut self.screen, &mut self.before, head.opcode, kept) {
            Ok(sounded) => {
                self.alarms = self.alarms.saturating_add(sounded);
                Ok(opcode_reply(head.opcode))
            }
            Err(reason) => Err(reason),
        }
    }

    fn sends(key: &Key) -> bool {
        matches!(key, Key::Aid(_) | Key::Attention | Key::SystemRequest)
    }

    fn press(&mut self, key: Key) -> Result<Option<Answer>, KeyRefusal> {
        self.screen.known();
        press(&mut self.screen, key)
    }

    fn screen(&self) -> &Screen {
        &self.screen
    }

    fn alarms(&self) -> u64 {
        self.alarms
    }

    ghost spells = { λ screen kind aid. refl };
}
