//! What live hosts send beside the profile (SC30-3533), the elements of eight commands more; the image of a screen that
//! is saved, rows that roll, and the line on which an error stands; what a station tells at once, and the bodies that it sends. No call
//! takes memory.
#![tactic(auto)]

mod answer_laws;
mod ask;
mod asked;
mod command_names;
mod error_line;
mod extended_answer_part;
mod extended_answer_place;
mod extended_answers;
mod extended_commands;
mod extended_element;
mod extended_place;
mod extended_screen;
mod image;
mod laws;
mod replies;
mod roll;
mod rolling;
mod spell;
mod telling;

pub use answer_laws::{answer_reasons_stay, answers_are_extended, told_is_body};
pub use ask::Ask;
pub use asked::Asked;
pub use command_names::{command_name, command_named, names_are_read};
pub use extended_answer_part::ExtendedAnswerPart;
pub use extended_answer_place::ExtendedAnswerPlace;
pub use extended_answers::ExtendedAnswers;
pub use extended_commands::ExtendedCommands;
pub use extended_element::ExtendedElement;
pub use extended_place::ExtendedPlace;
pub use extended_screen::ExtendedScreen;
pub use image::{known_image, put_image};
pub use laws::{
    image_gives, image_is_small, profile_acts_alike, profile_is_extended, reasons_stay,
    reset_gives_back, restore_gives_back, roll_moves_rows,
};
pub use replies::{QUERY_REPLY_BYTES, query_reply};
pub use roll::Roll;
pub use telling::{MOST_TOLD_BYTES, put_told};
