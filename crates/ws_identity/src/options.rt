//! The options of a display station with an identity: those of the profile, and NEW-ENVIRON beside them.
ghost use Rattle.std.specs.Prelude.{◌≡◌, false};
ghost use Rattle.ws_telnet.specs.declared.token.Telnet.{Telnet};
ghost use Rattle.ws_nego.specs.Options.{telnet_bytes};
ghost use Rattle.ws_nego.specs.Station.{station_allows_records};
ghost use Rattle.ws_identity.specs.Environ.{is_of_environ};
ghost use Rattle.ws_identity.specs.Options.{IdentityState, new_identity, identity_answer, IsAsProfile};

use crate::{Environ, Identity, Reply};
use arrayvec::ArrayVec;
use std::marker::Model;
use ws_code::ByteList;
use ws_nego::{StationOptions, TerminalType};
use ws_telnet::Telnet;

/// The options of a display station with an identity: those of [`StationOptions`], and NEW-ENVIRON.
#[derive(Drop)]
pub struct IdentityOptions {
    station: StationOptions,
    environ: Environ,
}

impl Model for IdentityOptions {
    ghost Value = { IdentityState };

    ghost view = { λ options. record { station = options.station; environ = options.environ } };
}

impl IdentityOptions {
    /// The options of a new session: all are off.
    pub fn new(terminal: TerminalType, identity: Identity) -> Self
        ensures { result ≡ new_identity terminal identity }
    {
        IdentityOptions {
            station: StationOptions::new(terminal),
            environ: Environ::new(identity),
        }
    }

    /// Takes a token from the host end, and gives what the station writes: [`Environ::answer`] where the token is of
    /// NEW-ENVIRON, else [`StationOptions::answer`].
    pub fn answer(&mut self, token: &Telnet) -> Reply
        ensures table { self.new ≡ (identity_answer self.old token.now).after }
        ensures reply { result ≡ telnet_bytes (identity_answer self.old token.now).reply }
    {
        match self.environ.answer(token) {
            Some(reply) => reply,
            None => longer(self.station.answer(token)),
        }
    }

    /// Whether records are allowed, as by [`StationOptions::records_allowed`].
    pub fn records_allowed(&self) -> bool
        ensures { result ≡ station_allows_records self.now.station }
    {
        self.station.records_allowed()
    }

    /// How often the host has refused the device's name: [`Environ::names_refused`].
    pub fn names_refused(&self) -> u64
        ensures { result ≡ self.now.environ.names_refused }
    {
        self.environ.names_refused()
    }
}

// The same bytes in the greater room.
fn longer(reply: ws_nego::Reply) -> Reply
    ensures { result ≡ reply }
{
    let mut bytes = ArrayVec::new();
    // They are at most 17.
    bytes.try_extend_from_slice(reply.as_slice()).unwrap();
    ByteList::of(bytes)
}

/// A Telnet command that isn't of NEW-ENVIRON is answered as by the profile's options, with the same options
/// afterwards.
pub fn others_as_profile()
    ensures { (options : IdentityState) (token : Telnet) → is_of_environ token ≡ false
        → IsAsProfile options token }
{}
