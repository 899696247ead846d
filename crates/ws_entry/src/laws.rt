//! Laws of the keys of this display.
ghost use Rattle.std.specs.Prelude.{◌≡◌, ℕ, false};
ghost use Rattle.ws_code.specs.CodePage.{page_number};
ghost use Rattle.ws_code.specs.declared.code_page.CodePage.{CodePage as ACodePage};
ghost use Rattle.ws_screen.specs.Bodies.{screen_of};
ghost use Rattle.ws_screen.specs.ScreenParts.{ScreenParts};
ghost use Rattle.ws_keys.specs.Keys.{between};
ghost use Rattle.ws_extended_station.specs.ExtendedDisplays.{extended};
ghost use Rattle.ws_entry.specs.EntryDisplays.{EntryEndState, as_extended, by_format_words, extended_state};
ghost use Rattle.ws_entry.specs.EntryLaws.{AsksNoMore};
ghost use Rattle.ws_entry.specs.EntryRules.{as_typed};
ghost use Rattle.ws_entry.specs.Following.{follows};
ghost use Rattle.ws_entry.specs.declared.typed_key.TypedKey.{TypedKey as ATypedKey};

/// Where no format word asks for field exit, auto enter or mandatory fill, no field is numeric only, the character that
/// is entered is the one that is typed, and no insert finds a blank at its field's end, a key does what it does at an
/// extended station: no field is full after it, and no Enter follows. At code page 037 each character but the letters
/// from E0 to FE, in a monocase field, is entered as it is typed.
pub fn asks_no_more()
    ensures same { (s : EntryEndState) (k : ATypedKey) → s.happened.full ≡ false
        → AsksNoMore (screen_of s.happened.shown.state.history) k
        → by_format_words.presses s k ≡ as_extended false (extended.presses (extended_state s) k.key) }
    ensures alone { (s : ScreenParts) (k : ATypedKey) → AsksNoMore s k
        → follows s k.key ≡ false }
    ensures typed { (page : ACodePage) (s : ScreenParts) (c : ℕ) → page_number page ≡ 37
        → between 0xE0 0xFE c ≡ false → as_typed page s c ≡ c }
{}
