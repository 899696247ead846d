//! The machine that reads what a live host's station sends, part by part.

ghost use Rattle.std.specs.Prelude.{◌≡◌, true};
ghost use Rattle.ws_extended.specs.ExtendedAnswers.{extended_answer_rules};
ghost use Rattle.ws_extended.specs.ExtendedAnswerLaws.{answer_nonempty, answer_part_bytes, answer_prefix_free, answer_begins, answer_can_end};
ghost use Rattle.ws_extended.specs.ExtendedAnswerMachine.{element_begun, is_waiting, waits_at, waits_behind};

mod spelling;
mod steps;
mod waits;

use crate::{ExtendedAnswerPart, ExtendedAnswerPlace, ExtendedCommands};
use arrayvec::ArrayVec;
use spelling::spell_part;
use steps::{behind_reply, element_place, waiting_at};
use waits::Waits;
use ws_code::{Body, Code, Push};
use ws_stream::{AnswerPart, Answers};

// How many bytes of a reply stand after the first that follows its front.
const LATER_REPLY_BYTES: u8 = 52;

/// Reads what a live host's station sends, part by part: what `Answers` reads, and beside it what is told at once
/// (SC30-3533, commands: the replies to 5250 Query and Save Screen, and what Read Screen and immediate reads tell).
///
/// A byte is refused as `Answers` refuses it, and beside that (own choice): in the front of a reply to a query and
/// after a reply by `StructuredField`, after a Restore Screen, where no Clear Unit follows, by `SaveRestore`, and in
/// a saved screen as `ExtendedCommands` refuses it.
#[derive(Drop)]
pub struct ExtendedAnswers {
    waits: Waits,
    elements: ExtendedCommands,
    ghost sound: { is_waiting waits ≡ true },
}

impl Code for ExtendedAnswers {
    type Unit = ExtendedAnswerPart;

    type Place = ExtendedAnswerPlace;

    ghost rules = { extended_answer_rules };

    ghost place = { λ m. waits_at m.waits m.elements.place };

    ghost unfinished = { λ m. waits_behind m.waits (element_begun m.elements) };

    ghost nonempty = { answer_nonempty };

    ghost bytes = { answer_part_bytes };

    ghost prefix_free = { answer_prefix_free };

    ghost begins = { answer_begins };

    fn first() -> ExtendedAnswerPlace {
        ExtendedAnswerPlace::Beginning
    }

    fn after(part: &ExtendedAnswerPart) -> ExtendedAnswerPlace {
        match part {
            ExtendedAnswerPart::Profile(_) | ExtendedAnswerPart::AtOnce(_) => {
                ExtendedAnswerPlace::Fields
            }
            ExtendedAnswerPart::QueryReply => ExtendedAnswerPlace::InReply(LATER_REPLY_BYTES),
            ExtendedAnswerPart::Reply { left, .. } => behind_reply(*left),
            ExtendedAnswerPart::Saved => ExtendedAnswerPlace::InSaved(ExtendedCommands::first()),
            ExtendedAnswerPart::Of(element) => {
                ExtendedAnswerPlace::InSaved(ExtendedCommands::after(element))
            }
        }
    }

    fn start(at: ExtendedAnswerPlace) -> Self {
        ExtendedAnswers {
            waits: waiting_at(at),
            elements: ExtendedCommands::start(element_place(at)),
        }
    }

    fn restart(&mut self, at: ExtendedAnswerPlace) {
        self.elements.restart(element_place(at));
        self.waits = waiting_at(at);
    }

    fn push(&mut self, byte: u8) -> Push<ExtendedAnswerPart> {
        self.step(byte)
    }

    fn known(part: &ExtendedAnswerPart) {
        match part {
            ExtendedAnswerPart::Profile(part) => Answers::known(part),
            ExtendedAnswerPart::Of(element) => ExtendedCommands::known(element),
            ExtendedAnswerPart::Reply { byte, .. } => {
                let _read = *byte;
            }
            ExtendedAnswerPart::AtOnce(cursor) => {
                let _read = cursor.place();
            }
            ExtendedAnswerPart::QueryReply | ExtendedAnswerPart::Saved => {}
        }
    }
}

impl Body for ExtendedAnswers {
    ghost can_end = { answer_can_end };

    fn may_follow(place: ExtendedAnswerPlace, part: &ExtendedAnswerPart) -> bool {
        match place {
            ExtendedAnswerPlace::Beginning => match part {
                ExtendedAnswerPart::Profile(part) => matches!(part, AnswerPart::Head { .. }),
                ExtendedAnswerPart::QueryReply
                | ExtendedAnswerPart::Saved
                | ExtendedAnswerPart::AtOnce(_) => true,
                ExtendedAnswerPart::Reply { .. } | ExtendedAnswerPart::Of(_) => false,
            },
            ExtendedAnswerPlace::Fields => match part {
                ExtendedAnswerPart::Profile(part) => !matches!(part, AnswerPart::Head { .. }),
                _ => false,
            },
            ExtendedAnswerPlace::InReply(at) => match part {
                ExtendedAnswerPart::Reply { left, .. } => *left == at,
                _ => false,
            },
            ExtendedAnswerPlace::Replied => matches!(part, ExtendedAnswerPart::QueryReply),
            ExtendedAnswerPlace::InSaved(at) => match part {
                ExtendedAnswerPart::Of(element) => ExtendedCommands::may_follow(at, element),
                _ => false,
            },
        }
    }

    fn may_end(place: ExtendedAnswerPlace) -> bool {
        !matches!(place, ExtendedAnswerPlace::InReply(_))
    }

    fn spell(part: &ExtendedAnswerPart, into: &mut ArrayVec<u8, 32>) {
        spell_part(part, into);
    }
}
