//! Items as text, both ways: the lines that `show` prints of a stream, and the items that such lines spell.
#![tactic(auto)]

mod element_text;
mod element_words;
mod extended_text;
mod extended_words;
mod item_text;
mod item_words;
mod items;
mod line;
mod lined;
mod lines;
mod named_element;
mod output;
mod partial_items;
mod runs;
mod text;
mod worded;
mod words;

pub use item_text::put_item;
pub use items::{TextFault, read_elements, read_items, shown_is_read};
pub use line::finds_units;
pub use lined::{Listed, RunName};
pub use lines::first_line;
pub use output::{Output, put, put_cell, put_hex, put_hex_behind_blank, put_number, put_text};
pub use text::{
    As, Bytes, Cell, Character, EachAs, Hex, HexBehindBlank, Number, Text, TextAs, print,
};
pub use worded::Worded;
pub use words::{read_byte, read_number};
