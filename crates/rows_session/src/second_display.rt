//! A display of another kind, on which a station stands as well.

ghost use Rattle.std.specs.Prelude.{◌≡◌, refl};
ghost use Rattle.ws_stream.specs.declared.answer_part.AnswerPart.{AnswerPart};
ghost use Rattle.ws_stream.specs.declared.answer_place.AnswerPlace.{AnswerPlace};
ghost use Rattle.rows_session.specs.SecondDisplay.{SecondHappened, second};

use crate::end_rows::CANCEL;
use arrayvec::ArrayVec;
use std::marker::Model;
use ws_code::Reason;
use ws_keys::{Answer, Key, KeyRefusal};
use ws_nego::{Reply, TerminalType};
use ws_record::{Head, RawBody};
use ws_screen::Screen;
use ws_session::{ProfileDisplay, StationDisplay};

/// A display beside the profile's, which shows that a station stands on any: each byte of a record's body is a unit, a
/// record rings and is answered by an empty Cancel Invite whose bytes are kept here, and one key more ends the ringing.
#[derive(Drop)]
pub(crate) struct SecondDisplay {
    profile: ProfileDisplay,
    told: ArrayVec<u8, 9000>,
    rings: bool,
}

impl Model for SecondDisplay {
    ghost use Rattle.rows_session.specs.SecondDisplay.{SecondParts};

    ghost Value = { SecondParts };

    ghost view = { λ d. record { profile = d.profile; told = d.told.items; rings = d.rings } };
}

impl SecondDisplay {
    // Whether it rings.
    pub(crate) fn rings(&self) -> bool
        ensures { result ≡ self.now.rings }
    {
        self.rings
    }
}

impl StationDisplay for SecondDisplay {
    type Commands = RawBody;

    // None is the key that ends the ringing.
    type Key = Option<Key>;

    // None is what is kept.
    type Reply = Option<Reply>;

    ghost Happened = { SecondHappened };

    ghost PlaceWritten = { AnswerPlace };

    ghost Written = { AnswerPart };

    ghost does = { second };

    fn new(terminal: TerminalType) -> Self {
        let told = ArrayVec::new();
        SecondDisplay {
            profile: ProfileDisplay::new(terminal),
            told,
            rings: false,
        }
    }

    fn reply(bytes: Reply) -> Option<Reply> {
        Some(bytes)
    }

    fn bytes<'a>(&'a self, reply: &'a Option<Reply>) -> &'a [u8] {
        match reply {
            Some(bytes) => bytes.as_slice(),
            None => self.told.as_slice(),
        }
    }

    fn apply(&mut self, _head: Head, _kept: &[u8]) -> Result<Option<Reply>, Reason> {
        self.told.clear();
        self.told.try_extend_from_slice(CANCEL).unwrap();
        self.rings = true;
        Ok(None)
    }

    fn sends(key: &Option<Key>) -> bool {
        match key {
            Some(key) => ProfileDisplay::sends(key),
            None => false,
        }
    }

    fn press(&mut self, key: Option<Key>) -> Result<Option<Answer>, KeyRefusal> {
        match key {
            Some(key) => self.profile.press(key),
            None => {
                self.rings = false;
                Ok(None)
            }
        }
    }

    fn screen(&self) -> &Screen {
        self.profile.screen()
    }

    fn alarms(&self) -> u64 {
        self.profile.alarms()
    }

    ghost spells = { λ screen kind aid. refl };
}
