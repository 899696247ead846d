//! What a station tells of itself.
ghost use Rattle.std.specs.Prelude.{◌≡◌, List};
ghost use Rattle.ws_nego.specs.Station.{station_allows_records};
ghost use Rattle.ws_record.specs.declared.record.Item.{Item};
ghost use Rattle.ws_end.specs.station.Alarms.{alarm_count};
ghost use Rattle.ws_end.specs.station.StationReacting.{StationStands};
ghost use Rattle.ws_end.specs.station.Stations.{AtStationOn};
ghost use Rattle.ws_end.specs.station.StationCounts.{records_in};
ghost use Rattle.ws_end.specs.station.Displays.{EndStateOn};
ghost use Rattle.ws_end.specs.station.Displays.{on_display as on};

use super::AtStation;
use crate::{Driver, StationDisplay};
use ws_screen::Screen;

impl<D: StationDisplay> Driver<AtStation<D>> {
    /// The screen.
    pub fn screen(&self) -> &Screen
        ensures { result.now ≡ D.does.shown self.now.reacts.screen }
    {
        self.reacts.display.screen()
    }

    /// The display.
    pub fn display(&self) -> &D
        ensures { result.now ≡ self.now.reacts.screen }
    {
        &self.reacts.display
    }

    /// Whether the negotiation has come so far that records may be sent both ways (RFC 1205, section 2).
    pub fn is_ready(&self) -> bool
        ensures { result ≡ station_allows_records self.now.reacts.options }
    {
        self.reacts.options.records_allowed()
    }

    /// How many records it has applied to its screen.
    pub fn records(&self) -> u64
        ensures count { result ≡ self.now.reacts.records }
        ensures applied { AtStationOn (on D.Commands.rules D.does) self.now (λ bytes items state.
            result ≡ records_in items) }
    {
        // There are no more of them than bytes, which are counted.
        let _taken = self.live.taken();
        self.reacts.records
    }

    /// How many alarms the host has sounded: the Write commands, of records that were applied, whose second control
    /// character has the bit for it (SC30-3533, Write to Display command, control character 2). It counts over the
    /// station's whole life, and stops at 18,446,744,073,709,551,615.
    pub fn alarms(&self) -> u64
        ensures count { result ≡ D.does.sounded self.now.reacts.screen }
        ensures sounded { AtStationOn (on D.Commands.rules D.does) self.now (λ bytes items state.
            result ≡ alarm_count (D.does.sounds state.happened)) }
        // So too after a byte that it refused.
        ensures stopped { (items : List (Item D.Commands.Unit)) (state : EndStateOn D.Happened)
            → StationStands D.does self.now.reacts items state
            → result ≡ alarm_count (D.does.sounds state.happened) }
    {
        self.reacts.display.alarms()
    }
}
