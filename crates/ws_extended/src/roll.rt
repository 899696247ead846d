//! A Roll: which rows move, which way and how far (SC30-3533, Roll command).
ghost use Rattle.std.specs.Prelude.{◌≡◌, ◌≤◌, ◌<◌, SomeIff};
ghost use Rattle.ws_extended.specs.RollParts.{IsRoll, RollParts, roll_distance, rolls_down};

use std::marker::Model;
use ws_code::ROWS;

/// A Roll: rows of the screen whose cells move up or down (SC30-3533, Roll command).
///
/// A contract sees it as the record `RollParts`.
#[derive(Clone, Copy, Debug, PartialEq, Eq)]
pub struct Roll {
    control: u8,
    top: u8,
    bottom: u8,
}

impl Model for Roll {
    ghost use Rattle.ws_extended.specs.RollParts.{IsRoll, RollParts};

    ghost Value = { RollParts };

    ghost view = { λ r. record { control = r.control; top = r.top; bottom = r.bottom } };

    ghost invariant = { λ r. IsRoll (record { control = r.control; top = r.top; bottom = r.bottom }) };

    ghost inverse = { λ r. record { control = r.control; top = r.top; bottom = r.bottom } };
}

impl Roll {
    /// The Roll of a control byte, whose bit 80 is down and whose low five bits are the number of rows, from one row to
    /// another, both counted from 1.
    ///
    /// `None` unless bits 60 of the control byte are off, and the rows are 1 to 24, the first at most the last.
    pub fn new(control: u8, top: u8, bottom: u8) -> Option<Self>
        ensures { let roll : RollParts = record { control = control; top = top; bottom = bottom } in
            SomeIff result (IsRoll roll) roll }
    {
        if control % 0x80 < 0x20 && top >= 1 && top <= bottom && bottom <= ROWS {
            Some(Roll {
                control,
                top,
                bottom,
            })
        } else {
            None
        }
    }

    /// Its control byte: 80 for down, and by how many rows.
    pub fn control(&self) -> u8
        ensures value { result ≡ self.now.control }
        ensures legal { IsRoll self.now }
    {
        self.control
    }

    /// The first of its rows, 1 to 24.
    pub fn top(&self) -> u8
        ensures value { result ≡ self.now.top }
        ensures legal { IsRoll self.now }
    {
        self.top
    }

    /// The last of its rows, 1 to 24.
    pub fn bottom(&self) -> u8
        ensures value { result ≡ self.now.bottom }
        ensures legal { IsRoll self.now }
    {
        self.bottom
    }

    /// Whether what the rows hold moves down, and not up.
    pub fn is_down(&self) -> bool
        ensures { result ≡ rolls_down self.now }
    {
        self.control >= 0x80
    }

    /// By how many rows, 0 to 31.
    pub fn distance(&self) -> u8
        ensures value { result ≡ roll_distance self.now }
        ensures small { result < 32 }
    {
        self.control % 0x20
    }
}
