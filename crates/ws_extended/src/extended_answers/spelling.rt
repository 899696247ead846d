//! How parts of what a live host's station sends are spelled.

ghost use Rattle.std.specs.Prelude.{◌≡◌};
ghost use Rattle.ws_extended.specs.ExtendedAnswers.{extended_part_spelling};

use crate::replies::HEAD;
use crate::telling::NO_KEY;
use crate::{ExtendedAnswerPart, ExtendedCommands};
use arrayvec::ArrayVec;
use ws_code::Body;
use ws_stream::Answers;
use ws_stream::command_code::{CLEAR_UNIT, ESCAPE, RESTORE_SCREEN};

/// Replaces what the list held by a part's spelling.
pub(crate) fn spell_part(part: &ExtendedAnswerPart, into: &mut ArrayVec<u8, 32>)
    ensures { into.new.items ≡ extended_part_spelling part.now }
{
    into.clear();
    match part {
        ExtendedAnswerPart::Profile(part) => Answers::spell(part, into),
        ExtendedAnswerPart::Of(element) => ExtendedCommands::spell(element, into),
        ExtendedAnswerPart::QueryReply => into.try_extend_from_slice(&HEAD).unwrap(),
        ExtendedAnswerPart::Reply { byte, .. } => into.push(*byte),
        ExtendedAnswerPart::Saved => {
            into.push(ESCAPE);
            into.push(RESTORE_SCREEN);
            into.push(ESCAPE);
            into.push(CLEAR_UNIT);
        }
        ExtendedAnswerPart::AtOnce(cursor) => {
            into.push(cursor.row());
            into.push(cursor.col());
            into.push(NO_KEY);
        }
    }
}
