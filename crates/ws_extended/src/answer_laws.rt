//! What holds of the bodies of live hosts' stations by their definitions. These functions do nothing: a caller gets the
//! law by the call.

ghost use Rattle.std.specs.Prelude.{◌≡◌, ◌∷◌, ◌++◌, [], ◌<◌, ℕ, List, map};
ghost use Rattle.ws_code.specs.Code.{IsPrefix, IsUnfinished, IsWhole, spelling_of};
ghost use Rattle.ws_nego.specs.declared.terminal.TerminalType.{TerminalType};
ghost use Rattle.ws_stream.specs.AnswerParts.{answer_rules, part_reason};
ghost use Rattle.ws_stream.specs.declared.answer_part.AnswerPart.{AnswerPart};
ghost use Rattle.ws_stream.specs.declared.answer_place.AnswerPlace.{AnswerPlace};
ghost use Rattle.ws_screen.specs.ScreenParts.{IsLegal, ScreenParts};
ghost use Rattle.ws_extended.specs.ExtendedAnswers.{answer_reason, extended_answer_rules};
ghost use Rattle.ws_extended.specs.Image.{IsTyped};
ghost use Rattle.ws_extended.specs.Telling.{told_of};
ghost use Rattle.ws_extended.specs.ToldParts.{BeginsTold, answer_place, told_parts};
ghost use Rattle.ws_extended.specs.declared.ask.Ask.{Ask as AnAsk};
ghost use Rattle.ws_extended.specs.declared.extended_answer_part.ExtendedAnswerPart.TheVariants.{Profile};

/// Each answer of the profile is a body of a live host's station, spelled alike; and such a body is one of the profile
/// where all its parts are.
pub fn answers_are_extended()
    ensures body { (ps : List AnswerPart) → IsWhole answer_rules ps
        → IsWhole extended_answer_rules (map Profile ps) }
    ensures only { (ps : List AnswerPart) → IsWhole extended_answer_rules (map Profile ps)
        → IsWhole answer_rules ps }
    ensures spelled { (ps : List AnswerPart)
        → spelling_of extended_answer_rules (map Profile ps) ≡ spelling_of answer_rules ps }
{}

/// Where an answer of the profile stands, a byte that it takes is taken; one that isn't taken is refused for the
/// profile's reason; and the profile refuses no other bytes that are taken than those with which one of the three
/// bodies beside it begins.
pub fn answer_reasons_stay()
    ensures taken { (place : AnswerPlace) (bytes : List ℕ) (b : ℕ)
        → IsUnfinished answer_rules place bytes
        → IsPrefix answer_rules place (bytes ++ b ∷ [])
        → IsPrefix extended_answer_rules (answer_place place) (bytes ++ b ∷ []) }
    ensures same { (place : AnswerPlace) (bytes : List ℕ) (b : ℕ)
        → IsUnfinished answer_rules place bytes
        → answer_reason (answer_place place) bytes b ≡ part_reason place bytes b }
    ensures three { (place : AnswerPlace) (bytes : List ℕ) (b : ℕ)
        → IsUnfinished answer_rules place bytes
        → (IsPrefix answer_rules place (bytes ++ b ∷ []) → ⊥)
        → IsPrefix extended_answer_rules (answer_place place) (bytes ++ b ∷ [])
        → BeginsTold place bytes b }
{}

/// What is told at once is a body of a live host's station.
pub fn told_is_body()
    ensures body { (ask : AnAsk) (terminal : TerminalType) (row : ℕ) (s : ScreenParts)
        → IsLegal s → IsTyped s → row < 256
        → IsWhole extended_answer_rules (told_parts ask terminal row s) }
    ensures spelled { (ask : AnAsk) (terminal : TerminalType) (row : ℕ) (s : ScreenParts)
        → spelling_of extended_answer_rules (told_parts ask terminal row s)
        ≡ told_of ask terminal row s }
{}
