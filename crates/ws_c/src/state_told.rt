//! What of a screen is no cell and no field, as C sees it.
ghost use Rattle.std.specs.Prelude.{◌≡◌};
ghost use Rattle.ws_c.specs.Calls.{no_state as nothing_told};

/// In place of a field's index, where there is no field.
pub(crate) const NO_FIELD: u16 = 0xffff;

/// What of a station is no cell and no field.
#[repr(C)]
#[derive(Clone, Copy)]
pub struct StateTold {
    /// How many records were carried out.
    pub records: u64,
    /// Where a byte was refused; 0 where none was.
    pub refused_place: u64,
    /// How many alarms the host has sounded.
    pub alarms: u64,
    /// How many records were refused, and answered by a negative response.
    pub refused_records: u64,
    /// Which of its own bytes the last of them was refused at, counted from 0; 0 where none was refused.
    pub record_place: u64,
    /// How often the host has refused the device's name.
    pub names_refused: u64,
    /// At most 256.
    pub field_count: u16,
    /// The index of the field that holds the cursor, or `NO_FIELD`.
    pub cursor_field: u16,
    /// 1 to 24.
    pub cursor_row: u8,
    /// 1 to 80.
    pub cursor_column: u8,
    /// 1 Read Input Fields, 2 Read MDT Fields, 3 Read MDT Fields Alternate; 0 where no read waits for a key.
    pub pending_read: u8,
    /// The number of the reason of a refused byte; 0 where none was.
    pub refused_reason: u8,
    /// Whether records are allowed.
    pub is_ready: bool,
    pub is_locked: bool,
    pub is_message_lit: bool,
    pub is_blinking: bool,
    /// The row on which an error of the host's stands, 1 to 24; 0 where none does.
    pub error_row: u8,
    /// The number of the reason for which the last record was refused; 0 where none was.
    pub record_reason: u8,
    /// Whether the field that holds the cursor takes no further character before a key leaves it.
    pub is_full: bool,
}

impl StateTold {
    /// Nothing of a station.
    pub(crate) fn nothing() -> Self
        ensures { result ≡ nothing_told }
    {
        StateTold {
            records: 0,
            refused_place: 0,
            alarms: 0,
            refused_records: 0,
            record_place: 0,
            names_refused: 0,
            field_count: 0,
            cursor_field: 0,
            cursor_row: 0,
            cursor_column: 0,
            pending_read: 0,
            refused_reason: 0,
            is_ready: false,
            is_locked: false,
            is_message_lit: false,
            is_blinking: false,
            error_row: 0,
            record_reason: 0,
            is_full: false,
        }
    }
}
