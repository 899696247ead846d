//! Laws of an extended station, each the contract of a function without effect.
// What holds of the display that live hosts use by its definition. These functions do nothing: a caller gets the law
// by the call.
ghost use Rattle.std.specs.Prelude.{◌≡◌, ◌+◌, ◌∷◌, [], ℕ, List, None, false, map};
ghost use Rattle.std.specs.List.{AllByRecursion};
ghost use Rattle.ws_code.specs.Code.{IsWhole, spelling_of};
ghost use Rattle.ws_nego.specs.declared.terminal.TerminalType.{TerminalType};
ghost use Rattle.ws_record.specs.declared.record.Item.{Item};
ghost use Rattle.ws_record.specs.declared.record.Record.{Record};
ghost use Rattle.ws_record.specs.Encode.{plain_spelling};
ghost use Rattle.ws_record.specs.RawBody.{raw_rules};
ghost use Rattle.ws_stream.specs.AnswerParts.{answer_rules};
ghost use Rattle.ws_stream.specs.Elements.{element_rules};
ghost use Rattle.ws_stream.specs.declared.answer_part.AnswerPart.{AnswerPart};
ghost use Rattle.ws_stream.specs.declared.element.Element.{Element};
ghost use Rattle.ws_screen.specs.Given.{Gives};
ghost use Rattle.ws_screen.specs.ScreenParts.{IsLegal, ScreenParts};
ghost use Rattle.ws_keys.specs.declared.key.Key.{Key as AKey};
ghost use Rattle.ws_extended.specs.ErrorLine.{IsErrorText};
ghost use Rattle.ws_extended.specs.ExtendedElements.{extended_rules};
ghost use Rattle.ws_extended.specs.ExtendedStates.{ExtendedState, state_after_reset};
ghost use Rattle.ws_extended.specs.Telling.{told_bytes};
ghost use Rattle.ws_extended.specs.declared.ask.Ask.TheVariants.{SaveScreen};
ghost use Rattle.ws_extended.specs.declared.extended_element.ExtendedElement.{ExtendedElement as AnElement};
ghost use Rattle.ws_extended.specs.declared.extended_element.ExtendedElement.TheVariants.{Text, WriteError};
ghost use Rattle.ws_end.specs.Acts.{Act, Happening, doing};
ghost use Rattle.ws_end.specs.station.Alarms.{alarms_of};
ghost use Rattle.ws_end.specs.station.Displays.{Silent};
ghost use Rattle.ws_end.specs.Reaction.{GoesOn};
ghost use Rattle.ws_end.specs.station.StationTransitions.{key_on, takes_on};
ghost use Rattle.ws_end.specs.station.StationReacting.{transitions_on};
ghost use Rattle.ws_end.specs.station.StationEndState.{StationEndState, opcode_events, profile};
ghost use Rattle.ws_end.specs.declared.end_step.Applied.{Applied};
ghost use Rattle.ws_extended_station.specs.BesideProfile.{ExtendedTraces, NoErrorStands, ProfileTraces, act_there, as_reacted, item_there};
ghost use Rattle.ws_extended_station.specs.Bytewise.{by_bytes};
ghost use Rattle.ws_extended_station.specs.ExtendedAlarms.{extended_alarms_in};
ghost use Rattle.ws_extended_station.specs.ExtendedDisplays.{ExtendedEndState, as_profile, extended, profile_state, with_profile};
ghost use Rattle.ws_extended_station.specs.ExtendedRecords.{record_writes, state_after_record};
ghost use Rattle.ws_extended_station.specs.SavedScreens.{BringsBack, ComesBack, IsSaved, TakesErrorBack};
ghost use Rattle.ws_extended_station.specs.Written.{MayBeWritten};
ghost use Rattle.ws_extended_station.specs.declared.extended_key.ExtendedKey.{ExtendedKey as AnExtendedKey};
ghost use Rattle.ws_extended_station.specs.declared.extended_key.ExtendedKey.TheVariants.{Profile as ProfileKey, Reset};

/// Where no error stands, an item and a key of the profile do what they do at its station, and what is written is
/// spelled alike. So whatever bytes and keys of the profile come, it writes the same bytes, tells the same, and has
/// the same screen.
pub fn acts_as_profile()
    ensures items { (s : ExtendedEndState) (item : Item Element) → NoErrorStands s
        → takes_on extended s (item_there item)
        ≡ as_reacted s (takes_on profile (profile_state s) item) }
    ensures keys { (s : ExtendedEndState) (key : AKey) → NoErrorStands s
        → key_on extended s (ProfileKey key) ≡ as_profile s (key_on profile (profile_state s) key) }
    ensures spelled { (items : List (Item AnswerPart))
        → plain_spelling raw_rules (map by_bytes items) ≡ plain_spelling answer_rules items }
    ensures runs { (bytes : List ℕ) (items arrived : List (Item Element)) (s : ExtendedEndState)
        (next : StationEndState) (acts : List (Act AKey)) (written : List ℕ) (told : List Applied)
        → NoErrorStands s
        → ProfileTraces (profile_state s) next arrived bytes items acts written told
        → ExtendedTraces s (with_profile s next) (map item_there arrived) bytes
        (map item_there items) (map act_there acts) written told }
{}

/// What a display tells when it is saved is a body of a live host. As a record it is refused by no display, whatever
/// stands on it, and leaves the screen that was saved, its error line too. It sounds no alarm, also where the screen that
/// was saved came by a Write that did.
pub fn saved_screen_comes_back()
    ensures body { (terminal : TerminalType) (saved : ExtendedState) (screen : ScreenParts)
        → IsSaved saved screen → (body : List AnElement) × IsWhole extended_rules body
        × (spelling_of extended_rules body ≡ told_bytes SaveScreen terminal saved) }
    ensures back { (terminal : TerminalType) (saved : ExtendedState) (screen : ScreenParts)
        → IsSaved saved screen → (state : ExtendedState) (r : Record AnElement)
        → BringsBack terminal saved r → ComesBack saved screen state r }
{}

/// The alarm sounds at each Write of a record whose second control character has the bit for it, and at nothing else: not
/// at an error or its text, nor where a row comes back, at Reset or before another element.
pub fn only_writes_sound()
    ensures records { (state : ExtendedState) (r : Record AnElement)
        → alarms_of (state_after_record state r).history
        ≡ alarms_of state.history + extended_alarms_in r.body }
    ensures reset { (state : ExtendedState)
        → alarms_of (state_after_reset state).history ≡ alarms_of state.history }
{}

/// Behind a record of Write Error Code and its text, Reset leaves the screen as it was but for the lock and the
/// cursor, and no error stands. Where none stands it leaves all as it is. It never sends.
pub fn reset_takes_errors_back()
    ensures back { (s : ExtendedEndState) (screen : ScreenParts) → NoErrorStands s
        → Gives s.happened.state.history screen → IsLegal screen → screen.writing ≡ None
        → (r : Record AnElement) (text : List Element) → IsErrorText text
        → r.body ≡ WriteError ∷ map Text text → opcode_events r.opcode ≡ []
        → TakesErrorBack s screen r text }
    ensures none { (s : ExtendedEndState) → NoErrorStands s → extended.presses s Reset
        ≡ Silent s }
    ensures silent { extended.sends Reset ≡ false }
{}

/// Whatever happens, nothing else is written than Telnet commands, answers to reads, empty records, and what was asked
/// at once; and at a record first what it asks, told of the display that it leaves, and then the answer to its opcode.
pub fn writes_nothing_else()
    ensures all { (s : ExtendedEndState) (happened : List (Happening AnElement AnExtendedKey))
        → AllByRecursion MayBeWritten (doing (transitions_on extended) s happened).written }
    ensures record_ { (s next : ExtendedEndState) (r : Record AnElement) (writes : List (Item ℕ))
        → extended.applies s r ≡ GoesOn next writes
        → writes ≡ record_writes s.happened.terminal next.happened.state r }
{}
