//! What an attribute looks like.
ghost use Rattle.std.specs.Prelude.{◌≡◌, false, true};
ghost use Rattle.ws_stream.specs.FieldOrder.{is_attribute};
ghost use Rattle.ws_c.specs.Calls.{status_number};
ghost use Rattle.ws_c.specs.Looks.{color_look as in_color, color_number as number_of_color, look_told, monochrome_look as in_monochrome, no_look};

use crate::Status;
use ws_screen::{Attribute, Color};

/// What an attribute looks like on a display.
#[repr(C)]
#[derive(Clone, Copy)]
pub struct LookTold {
    /// 1 green, 2 white, 3 red, 4 turquoise, 5 yellow, 6 pink, 7 blue; 0 on a display without colours.
    pub color: u8,
    /// Nothing displays.
    pub is_hidden: bool,
    /// Character and ground change places.
    pub is_reversed: bool,
    /// High intensity; on a display without colours alone.
    pub is_intense: bool,
    /// A line stands below it.
    pub is_underscored: bool,
    /// It blinks.
    pub is_blinking: bool,
    /// Lines stand between the columns.
    pub has_separators: bool,
}

impl LookTold {
    // Nothing of a look.
    fn nothing() -> Self
        ensures { result ≡ no_look }
    {
        LookTold {
            color: 0,
            is_hidden: false,
            is_reversed: false,
            is_intense: false,
            is_underscored: false,
            is_blinking: false,
            has_separators: false,
        }
    }

    // On a display that is or isn't in colour.
    fn of(attribute: Attribute, is_color: bool) -> Self
        ensures { result ≡ look_told is_color attribute }
    {
        if is_color {
            color_look(attribute)
        } else {
            monochrome_look(attribute)
        }
    }
}

// The number of a colour.
fn color_number(color: Color) -> u8
    ensures { result ≡ number_of_color color }
{
    match color {
        Color::Green => 1,
        Color::White => 2,
        Color::Red => 3,
        Color::Turquoise => 4,
        Color::Yellow => 5,
        Color::Pink => 6,
        Color::Blue => 7,
    }
}

// On a colour display.
fn color_look(attribute: Attribute) -> LookTold
    ensures { result ≡ in_color attribute }
{
    let style = attribute.color();
    LookTold {
        color: color_number(style.color),
        is_hidden: attribute.is_hidden(),
        is_reversed: style.is_reversed,
        is_intense: false,
        is_underscored: style.is_underscored,
        is_blinking: style.is_blinking,
        has_separators: style.has_separators,
    }
}

// On a monochrome display.
fn monochrome_look(attribute: Attribute) -> LookTold
    ensures { result ≡ in_monochrome attribute }
{
    let mut look = LookTold::nothing();
    if attribute.is_hidden() {
        look.is_hidden = true;
        return look;
    }
    LookTold {
        color: 0,
        is_hidden: false,
        is_reversed: attribute.is_reversed(),
        is_intense: attribute.is_intense(),
        is_underscored: attribute.is_underscored(),
        is_blinking: attribute.is_blinking(),
        has_separators: attribute.has_separators(),
    }
}

/// Tells what an attribute looks like, on a colour display or on a monochrome one.
///
/// `BadArgument` unless the byte is an attribute, 20 to 3F; `look` is then zero.
#[unsafe(no_mangle)]
pub extern "C" fn ws_c_attribute_look(attribute: u8, is_color: bool, look: &mut LookTold) -> u32
    ensures attribute { is_attribute attribute ≡ true → (result ≡ status_number Status.Done)
        × (look.new ≡ look_told is_color attribute) }
    ensures other { is_attribute attribute ≡ false
        → (result ≡ status_number Status.BadArgument) × (look.new ≡ no_look) }
{
    match Attribute::from_byte(attribute) {
        Some(attribute) => {
            *look = LookTold::of(attribute, is_color);
            Status::Done.number()
        }
        None => {
            *look = LookTold::nothing();
            Status::BadArgument.number()
        }
    }
}
