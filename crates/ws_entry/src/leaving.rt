//! What becomes of a field's cells where a key leaves it that its format word changes.
ghost use Rattle.std.specs.Prelude.{◌≡◌, ◌≤◌, ◌<◌, ◌-◌, ◌++◌, ◌∷◌, [], ℕ, length};
ghost use Rattle.ws_keys.specs.Edits.{after_exit, digits_of, is_signed_word};
ghost use Rattle.ws_entry.specs.EntryRules as Spec;

use ws_code::{Ffw, Shift};
use ws_keys::exit;
use ws_screen::CellEdit;

// A blank and a minus sign in code page 037.
const BLANK: u8 = 0x40;

const MINUS: u8 = 0x60;

// A digit with a minus.
fn with_minus(byte: u8) -> u8
    ensures { result ≡ Spec.negative_digit byte }
{
    match byte {
        0xf0..=0xf9 => byte - 0x20,
        _ => byte,
    }
}

// A minus at the last of the first bytes of a field.
fn put_minus(cells: &mut [u8], end: usize)
    requires { end ≤ length cells.old }
    ensures { cells.new ≡ Spec.minus_before cells.old end }
{
    if end > 0 {
        cells[end - 1] = with_minus(cells[end - 1]);
    }
}

// A sign in the last cell.
fn put_sign(cells: &mut [u8], sign: u8)
    requires { 1 ≤ length cells.old }
    ensures { cells.new ≡ digits_of cells.old ++ sign ∷ [] }
{
    let last = cells.len() - 1;
    cells[last] = sign;
}

/// Whether a field has a sign cell.
pub(crate) fn is_signed(format: Ffw) -> bool
    ensures { result ≡ is_signed_word format }
{
    format.shift() == Shift::SignedNumeric
}

/// A numeric only field that Field Minus leaves at one of its cells.
#[derive(Drop)]
pub(crate) struct NumericExit {
    pub(crate) format: Ffw,
    pub(crate) at: u16,
}

impl CellEdit for NumericExit {
    ghost asks = { λ e n. e.at < n };

    ghost becomes = { λ e x. after_exit e.format (Spec.minus_before x e.at) e.at };

    fn carry_out(&self, cells: &mut [u8]) {
        put_minus(cells, self.at as usize);
        exit(cells, self.format, self.at as usize);
    }
}

/// A full field that Field Exit leaves.
#[derive(Drop)]
pub(crate) struct FullExit {
    pub(crate) format: Ffw,
}

impl CellEdit for FullExit {
    ghost asks = { λ e n. 1 ≤ n };

    ghost becomes = { λ e x. Spec.left_full e.format 0x40 x };

    fn carry_out(&self, cells: &mut [u8]) {
        if is_signed(self.format) {
            put_sign(cells, BLANK);
        }
    }
}

/// A full field that Field Minus leaves.
#[derive(Drop)]
pub(crate) struct FullMinus {
    pub(crate) format: Ffw,
}

impl CellEdit for FullMinus {
    ghost asks = { λ e n. 1 ≤ n };

    ghost becomes = { λ e x. Spec.left_full_with_minus e.format x };

    fn carry_out(&self, cells: &mut [u8]) {
        if is_signed(self.format) {
            put_sign(cells, MINUS);
        } else {
            put_minus(cells, cells.len());
        }
    }
}
