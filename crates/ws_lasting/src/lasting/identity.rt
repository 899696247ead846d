//! What a station that no record ends tells by NEW-ENVIRON.
ghost use Rattle.std.specs.Prelude.{◌≡◌};
ghost use Rattle.std.specs.Option.{option_copied, option_map, option_map_or};
ghost use Rattle.ws_lasting.specs.Footings.{IsReplied};
ghost use Rattle.ws_end.specs.station.Displays.{on_display as on};

use crate::{LastingReply, LastingStation};
use ws_code::Code;
use ws_identity::Identity;
use ws_session::StationDisplay;
use ws_telnet::Telnet;

impl<D: StationDisplay> LastingStation<D> {
    /// Who it says that it is.
    pub fn identity(&self) -> Option<&Identity>
        ensures { option_copied result
            ≡ option_map (λ environ. environ.identity) self.now.environ }
    {
        match &self.environ {
            Some(environ) => Some(environ.identity()),
            None => None,
        }
    }

    /// How often the host has refused the device's name, as one that is in use: `ws_identity::Environ::names_refused`.
    /// Without an identity it is 0.
    pub fn names_refused(&self) -> u64
        ensures { result ≡ option_map_or (λ environ. environ.names_refused) self.now.environ 0 }
    {
        match &self.environ {
            Some(environ) => environ.names_refused(),
            None => 0,
        }
    }

    // The reply to a Telnet command: that of NEW-ENVIRON, where there is an identity and the command is of it, else this
    // one of the station on the display.
    pub(super) fn replied(&mut self, token: &Telnet, reply: D::Reply) -> LastingReply<D::Reply>
        ensures { IsReplied (on D.Commands.rules D.does) self.old self.new token.now reply result }
    {
        let Some(environ) = &mut self.environ else {
            return LastingReply::Station(reply);
        };
        let Some(bytes) = environ.answer(token) else {
            return LastingReply::Station(reply);
        };
        self.environ_reply = bytes;
        LastingReply::Environ
    }
}
