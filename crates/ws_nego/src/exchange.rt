//! What holds of every exchange between a new station and a new host end. These functions do
//! nothing: a caller gets the law by the call.

ghost use Rattle.std.specs.Prelude.{◌≡◌, ◌≤◌, ◌+◌, List, [], length, true, false};
ghost use Rattle.ws_nego.specs.declared.terminal.TerminalType.{TerminalType};
ghost use Rattle.ws_nego.specs.Station.{station_allows_records};
ghost use Rattle.ws_nego.specs.Host.{host_allows_records};
ghost use Rattle.ws_nego.specs.Exchange.{Move, new_exchange, after_token_moves, IsExchangeQuiet, TablesAgree, after_three_deliveries};
ghost use Rattle.ws_nego.specs.Dialogue.{new_dialogue, after_arrivals, IsAllArrived};

/// In whatever order tokens arrive: whenever nothing is in flight the option tables agree, at most
/// twelve tokens are ever written, and the host end refuses none.
pub fn exchanges_agree()
    ensures agree { (terminal : TerminalType) (moves : List Move)
        → let now = after_token_moves moves (new_exchange terminal) in
        IsExchangeQuiet now → TablesAgree now.station now.host }
    ensures twelve { (terminal : TerminalType) (moves : List Move)
        → (after_token_moves moves (new_exchange terminal)).count ≤ 12 }
    ensures none_refused { (terminal : TerminalType) (moves : List Move)
        → (after_token_moves moves (new_exchange terminal)).refused ≡ false }
{}

/// Wherever an exchange stands, three full deliveries each way end it, with records allowed at both
/// ends.
pub fn three_deliveries_suffice()
    ensures quiet { (terminal : TerminalType) (moves : List Move)
        → IsExchangeQuiet (after_three_deliveries (after_token_moves moves
        (new_exchange terminal))) }
    ensures station { (terminal : TerminalType) (moves : List Move)
        → let last = after_three_deliveries (after_token_moves moves (new_exchange terminal)) in
        station_allows_records last.station ≡ true }
    ensures host { (terminal : TerminalType) (moves : List Move)
        → let last = after_three_deliveries (after_token_moves moves (new_exchange terminal)) in
        host_allows_records last.host ≡ true }
{}

/// Once the station allows records, nothing is in flight to it; and once nothing is in flight to
/// the host end either, this one allows them too. Once the host end allows records, nothing is in
/// flight, and the station allows them.
pub fn once_allowed()
    ensures station { (terminal : TerminalType) (moves : List Move)
        → let now = after_token_moves moves (new_exchange terminal) in
        station_allows_records now.station ≡ true → now.to_station ≡ [] }
    ensures then_host { (terminal : TerminalType) (moves : List Move)
        → let now = after_token_moves moves (new_exchange terminal) in
        station_allows_records now.station ≡ true → now.to_host ≡ []
        → host_allows_records now.host ≡ true }
    ensures host { (terminal : TerminalType) (moves : List Move)
        → let now = after_token_moves moves (new_exchange terminal) in
        host_allows_records now.host ≡ true
        → IsExchangeQuiet now × (station_allows_records now.station ≡ true) }
{}

/// The law of `exchanges_agree`, said of all tokens that were ever written and of how many of them
/// have arrived.
pub fn dialogues_agree()
    ensures agree { (terminal : TerminalType) (moves : List Move)
        → let now = after_arrivals moves (new_dialogue terminal) in
        IsAllArrived now → TablesAgree now.station now.host }
    ensures twelve { (terminal : TerminalType) (moves : List Move)
        → let now = after_arrivals moves (new_dialogue terminal) in
        length now.to_station + length now.to_host ≤ 12 }
    ensures none_refused { (terminal : TerminalType) (moves : List Move)
        → (after_arrivals moves (new_dialogue terminal)).refused ≡ false }
{}
