//! What holds of live hosts' bodies, images and errors by their definitions. These functions do nothing: a caller gets
//! the law by the call.

ghost use Rattle.std.specs.Prelude.{◌≡◌, ◌∷◌, ◌++◌, [], ◌<◌, ◌≤◌, length, ℕ, List, None, map, false, true, unwrap_or};
ghost use Rattle.ws_code.specs.Code.{IsPrefix, IsUnfinished, IsWhole, spelling_of};
ghost use Rattle.ws_stream.specs.Elements.{element_rules};
ghost use Rattle.ws_stream.specs.Reasons.{element_reason, is_one_of};
ghost use Rattle.ws_stream.specs.declared.command_code.TheConstants.{ESCAPE};
ghost use Rattle.ws_stream.specs.declared.element.Element.{Element};
ghost use Rattle.ws_stream.specs.declared.place.Place.{Place as APlace};
ghost use Rattle.ws_screen.specs.Bodies.{after_elements, after_end, body_fault, element_fault, screen_of};
ghost use Rattle.ws_screen.specs.Events.{History};
ghost use Rattle.ws_screen.specs.Given.{Gives};
ghost use Rattle.ws_screen.specs.ScreenParts.{IsLegal, ScreenParts};
ghost use Rattle.ws_screen.specs.Writes.{open_write};
ghost use Rattle.ws_extended.specs.ErrorLine.{IsErrorText, IsRow, RESETS, after_error, after_reset, error_row, error_shown, given_back, row_cells, row_of, text_cursor};
ghost use Rattle.ws_extended.specs.ExtendedElements.{extended_rules};
ghost use Rattle.ws_extended.specs.ExtendedReasons.{extended_reason, other_commands};
ghost use Rattle.ws_extended.specs.ExtendedStates.{ExtendedState, saved_screen, state_after, state_after_all, state_after_end, state_after_reset, state_fault};
ghost use Rattle.ws_extended.specs.Image.{image, IsTyped};
ghost use Rattle.ws_extended.specs.RollParts.{IsRoll, RollParts};
ghost use Rattle.ws_extended.specs.Rolling.{cells_after_roll};
ghost use Rattle.ws_extended.specs.declared.extended_element.ExtendedElement.TheVariants.{Profile, Roll, Text, WriteError};
ghost use Rattle.ws_extended.specs.declared.extended_place.ExtendedPlace.TheVariants.{InProfile};

/// Each body of the profile is a body of a live host, spelled alike; and such a body is one of the profile where all
/// its elements are.
pub fn profile_is_extended()
    ensures body { (es : List Element) → IsWhole element_rules es
        → IsWhole extended_rules (map Profile es) }
    ensures only { (es : List Element) → IsWhole extended_rules (map Profile es)
        → IsWhole element_rules es }
    ensures spelled { (es : List Element)
        → spelling_of extended_rules (map Profile es) ≡ spelling_of element_rules es }
{}

/// Where the profile stands, a byte that it takes is taken; one that isn't taken is refused for the profile's reason;
/// and the profile refuses no other bytes that are taken than the codes of the eight commands beside it.
pub fn reasons_stay()
    ensures taken { (place : APlace) (bytes : List ℕ) (b : ℕ)
        → IsUnfinished element_rules place bytes
        → IsPrefix element_rules place (bytes ++ b ∷ [])
        → IsPrefix extended_rules (InProfile place) (bytes ++ b ∷ []) }
    ensures same { (place : APlace) (bytes : List ℕ) (b : ℕ)
        → IsUnfinished element_rules place bytes
        → extended_reason (InProfile place) bytes b ≡ element_reason place bytes b }
    ensures others { (place : APlace) (bytes : List ℕ) (b : ℕ)
        → IsUnfinished element_rules place bytes
        → (IsPrefix element_rules place (bytes ++ b ∷ []) → ⊥)
        → IsPrefix extended_rules (InProfile place) (bytes ++ b ∷ [])
        → (bytes ≡ ESCAPE ∷ []) × (is_one_of b other_commands ≡ true) }
{}

/// Carried out on any screen between two bodies, the image of a screen that events gave makes it equal to that one,
/// and nothing of it is refused. It is a body of the profile.
pub fn image_gives()
    ensures given { (g : History) (s : ScreenParts) → Gives g s → IsLegal s
        → s.writing ≡ None
        → (row : ℕ) (h : History) → open_write h ≡ None
        → s ≡ screen_of (after_end (after_elements h (image row s))) }
    ensures unrefused { (g : History) (s : ScreenParts)
        → Gives g s → IsLegal s → s.writing ≡ None
        → (row : ℕ) (h : History) → open_write h ≡ None → body_fault h (image row s) ≡ None }
    ensures body { (row : ℕ) (s : ScreenParts) → IsLegal s → IsTyped s → row < 256
        → IsWhole element_rules (image row s) }
{}

/// An image is at most 4,252 bytes long, and its error line is that of the row that it was given.
pub fn image_is_small()
    ensures size { (row : ℕ) (s : ScreenParts) → IsLegal s
        → length (spelling_of element_rules (image row s)) ≤ 4252 }
    ensures row { (row : ℕ) (s : ScreenParts) (h : History)
        → error_row (after_end (after_elements h (image row s))) ≡ row_of row }
{}

/// On a display on which no error stands the profile's elements do what they do in it, and are refused alike.
pub fn profile_acts_alike()
    ensures after { (h : History) (n : ℕ) (es : List Element)
        → state_after_all (record { history = h; kept = None; text = n }) (map Profile es)
        ≡ record { history = after_elements h es; kept = None; text = n } }
    ensures refused { (h : History) (n : ℕ) (e : Element)
        → state_fault (record { history = h; kept = None; text = n }) (Profile e)
        ≡ element_fault h e }
{}

/// A Roll gives each of its rows the cells of another, where it has one, and leaves all else of a screen as it was:
/// the other rows, fields, cursor, lock and lights.
pub fn roll_moves_rows()
    ensures { (h : History) (s : ScreenParts) → Gives h s → IsLegal s → s.writing ≡ None
        → (n : ℕ) (roll : RollParts) → IsRoll roll
        → Gives (state_after (record { history = h; kept = None; text = n }) (Roll roll)).history
        (record s { cells = cells_after_roll roll s.cells }) }
{}

/// Whatever stood on a display, a saved screen that comes back is as it was, its error line too, and no error stands.
/// It is a body of a live host.
pub fn restore_gives_back()
    ensures restored { (g : History) (s : ScreenParts)
        → Gives g s → IsLegal s → s.writing ≡ None
        → (row : ℕ) (state : ExtendedState)
        → s ≡ screen_of (state_after_end (state_after_all state (saved_screen row s))).history }
    ensures row { (row : ℕ) (s : ScreenParts) (state : ExtendedState)
        → error_row (state_after_end (state_after_all state (saved_screen row s))).history
        ≡ row_of row }
    ensures none { (row : ℕ) (s : ScreenParts) (state : ExtendedState)
        → (state_after_all state (saved_screen row s)).kept ≡ None }
    ensures body { (row : ℕ) (s : ScreenParts) → IsLegal s → IsTyped s → row < 256
        → IsWhole extended_rules (saved_screen row s) }
{}

/// After a Write Error Code and its text, the key Reset gives the screen as it was, but for the lock and the cursor,
/// and of neither is anything refused: as events, and on a display. Where no error stands Reset does nothing.
pub fn reset_gives_back()
    ensures given { (h : History) (s : ScreenParts)
        → Gives h s → IsLegal s → s.writing ≡ None
        → (row : ℕ) (text : List Element) → IsRow row → IsErrorText text
        → Gives (after_reset h row text s.cells) (record s {
          locked = false;
          cursor = unwrap_or (text_cursor text None) s.cursor;
        }) }
    ensures unrefused { (h : History) (s : ScreenParts)
        → Gives h s → IsLegal s → s.writing ≡ None
        → (row : ℕ) (text : List Element) → IsRow row → IsErrorText text
        → (body_fault h (error_shown row text) ≡ None)
        × (body_fault (after_error h row text) (given_back RESETS row
        (row_cells row s.cells)) ≡ None) }
    ensures reset { (h : History) (s : ScreenParts) → Gives h s → IsLegal s
        → s.writing ≡ None
        → (n : ℕ) (text : List Element) → IsErrorText text → IsRow (error_row h)
        → Gives (state_after_reset (state_after_end (state_after_all
        (record { history = h; kept = None; text = n }) (WriteError ∷ map Text text)))).history
        (record s {
          locked = false;
          cursor = unwrap_or (text_cursor text None) s.cursor;
        }) }
    ensures nothing { (h : History) (n : ℕ)
        → state_after_reset (record { history = h; kept = None; text = n })
        ≡ record { history = h; kept = None; text = n } }
{}
