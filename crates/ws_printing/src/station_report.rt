//! What a line asks to be told of a station.

use ws_code::{Address, List};
use ws_screen::Screen;

/// What a line of a script prints beside fields and screens.
#[derive(Drop)]
pub enum StationReport {
    /// The station's state.
    Status,
    /// What the cells of a row hold, and the attributes under which they show: of the row in which this cell stands.
    Cells(Address),
    /// What cells show.
    Text(Span),
    /// These bytes.
    Note(List<u8>),
}

/// What a report can tell of a station.
#[derive(Clone, Copy)]
pub struct StationStatus<'a> {
    /// Its screen.
    pub screen: &'a Screen,
    /// Whether records may be sent both ways.
    pub is_ready: bool,
    /// How many records it has carried out.
    pub records: u64,
    /// How many bytes it has taken.
    pub taken: u64,
}

/// Cells along the rows: one and those behind it, so many or up to the last of the screen.
#[derive(Clone, Copy)]
pub struct Span {
    /// The first cell.
    pub at: Address,
    /// How many.
    pub count: u16,
}
