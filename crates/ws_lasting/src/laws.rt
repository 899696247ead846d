//! Laws of records that stand each for itself.
ghost use Rattle.std.specs.Prelude.{ℕ, List};
ghost use Rattle.ws_lasting.specs.AsStation.{LastsAsStation};
ghost use Rattle.ws_lasting.specs.Lasting.{IsPerformed, IsRefusedFor};
ghost use Rattle.ws_lasting.specs.Others.{OthersAsBefore};
ghost use Rattle.ws_lasting.specs.declared.record_event.RefusedRecord.{RefusedRecord};
ghost use Rattle.ws_end.specs.station.Displays.{EndStateOn};
ghost use Rattle.ws_end.specs.station.Displays.{on_display as on};

use ws_session::StationDisplay;

/// A record is carried out or refused, and not both.
pub fn judged_one_way<D: StationDisplay>()
    ensures { (state next : EndStateOn D.Happened) (bytes written : List ℕ) (why : RefusedRecord)
        → IsPerformed (on D.Commands.rules D.does) state bytes next written
        → IsRefusedFor (on D.Commands.rules D.does) state bytes why → ⊥ }
{}

/// Where a station refuses no record, one that no record ends and that has no identity does as it.
pub fn lasts_as_station<D: StationDisplay>()
    ensures { LastsAsStation (on D.Commands.rules D.does) }
{}

/// With an identity what is no token of NEW-ENVIRON is answered as without one.
pub fn others_as_before<D: StationDisplay>()
    ensures { OthersAsBefore (on D.Commands.rules D.does) }
{}
