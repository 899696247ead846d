//! What outlasts a record that a station refuses.
ghost use Rattle.std.specs.Prelude.{◌≡◌, List, []};
ghost use Rattle.ws_nego.specs.Options.{telnet_bytes};
ghost use Rattle.ws_nego.specs.Station.{station_answer};
ghost use Rattle.ws_record.specs.declared.record.Item.{Item};
ghost use Rattle.ws_end.specs.station.Displays.{EndStateOn};
ghost use Rattle.ws_end.specs.station.Displays.{on_display as on};
ghost use Rattle.ws_end.specs.station.StationReacting.{StationStands};
ghost use Rattle.ws_end.specs.station.Stations.{ReachedOn};

use super::AtStation;
use crate::station::body_bytes::BodyBytes;
use crate::{Driver, StationDisplay};
use ws_record::Telnet;

impl<D: StationDisplay> Driver<AtStation<D>> {
    /// Begins anew after a refused byte, with the options and the display that it has. It then has taken no byte and
    /// applied no record.
    pub fn revive(&mut self)
        ensures led { (items : List (Item D.Commands.Unit)) (state : EndStateOn D.Happened)
            → StationStands D.does self.old.reacts items state
            → ReachedOn (on D.Commands.rules D.does) self.new [] [] state }
        ensures same { self.new.reacts ≡ record self.old.reacts { records = 0 } }
    {
        self.reacts.records = 0;
        self.begin_anew(BodyBytes::new());
    }

    /// Answers a Telnet command that didn't come by its own bytes.
    pub fn answer_telnet(&mut self, token: &Telnet) -> D::Reply
        ensures reply { D.does.written self.new.reacts.screen result
            ≡ telnet_bytes (station_answer self.old.reacts.options token.now).reply }
        ensures options { self.new ≡ record self.old {
          reacts = record self.old.reacts {
            options = (station_answer self.old.reacts.options token.now).after;
          };
        } }
    {
        self.reacts.answer(token)
    }
}

impl<D: StationDisplay> AtStation<D> {
    // Answers a Telnet command.
    fn answer(&mut self, token: &Telnet) -> D::Reply
        ensures reply { D.does.written self.new.screen result
            ≡ telnet_bytes (station_answer self.old.options token.now).reply }
        ensures options { self.new
            ≡ record self.old { options = (station_answer self.old.options token.now).after } }
    {
        D::reply(self.options.answer(token))
    }
}
