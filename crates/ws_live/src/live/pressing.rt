//! Keys that are pressed at a station, what they come to, and what is printed of that.
ghost use Rattle.std.specs.Prelude.{◌≡◌, false, IfOk};
ghost use Rattle.ws_live.specs.live.ConnectText as Spec;
ghost use Rattle.ws_live.specs.live.Operating.{live_station};
ghost use Rattle.ws_script.specs.lines.Stroking.{keys_behind as the_keys_behind, stroke_keys};
ghost use Rattle.ws_text.specs.Printing.{Prints};
ghost use Rattle.ws_code.specs.Device.{on_devices};

use crate::live::live_station::LiveStation;
use crate::live::{ByLine, Carried, Closing};
use ws_code::{Fault, Sink, Source};
use ws_printing::put_key_fault;
use ws_script::{FieldFault, NamedKey, ScriptStroke};
use ws_session::{Acted, Attached, KeyFault, StationDisplay};
use ws_text::{Character, Output, Text, put_text, texts};

/// Why keys weren't all taken.
#[derive(Clone, Copy)]
pub(crate) enum Untaken {
    /// One was refused, which would have entered this character.
    Refused {
        entered: Option<char>,
        why: KeyFault,
    },
    /// The field of the number that the stroke names can't be filled.
    Unfilled(FieldFault),
    /// What one of them sends didn't go out.
    Unwritten(Fault),
}

/// Presses a key, and the one that follows it where it is taken, if one does. Why the second is refused isn't told.
pub(crate) fn press_key<E: LiveStation, S: Source, K: Sink>(
    attached: &mut Attached<E, S, K>,
    key: E::Named,
) -> Result<(), Untaken>
where
    E::Named: NamedKey,
    requires works { attached.old.broken ≡ false }
    ensures comes { Spec.KeyComes
        (live_station E.behaviour E.keyed E.typing E.seen E.Display.does.shown
        E.Display.operated E.Named.words)
        (on_devices K.writer S.reader) key attached.old result attached.new }
    ensures works { IfOk (Spec.pressed_outcome result) (λ closing. attached.new.broken ≡ false) }
{
    let entered = key.entered();
    let next = attached.end().following(&key);
    let typed = attached.end().typed(key);
    match attached.press(typed) {
        Ok(Acted::Done) => press_next(attached, next),
        Ok(Acted::Refused(why)) => Err(Untaken::Refused { entered, why }),
        Err(fault) => Err(Untaken::Unwritten(fault)),
    }
}

// Presses the key that follows one that was taken, if one does.
fn press_next<E: LiveStation, S: Source, K: Sink>(
    attached: &mut Attached<E, S, K>,
    next: Option<E::Key>,
) -> Result<(), Untaken>
where
    E::Named: NamedKey,
    requires works { attached.old.broken ≡ false }
    ensures follows { Spec.Followed
        (live_station E.behaviour E.keyed E.typing E.seen E.Display.does.shown
        E.Display.operated E.Named.words)
        (on_devices K.writer S.reader) next attached.old result attached.new }
    ensures works { IfOk (Spec.pressed_outcome result) (λ closing. attached.new.broken ≡ false) }
{
    let Some(key) = next else {
        return Ok(());
    };
    match attached.press(key) {
        Ok(_) => Ok(()),
        Err(fault) => Err(Untaken::Unwritten(fault)),
    }
}

/// Presses the keys of a stroke one after another, up to the first that isn't taken.
pub(crate) fn press_stroke<E: LiveStation, S: Source, K: Sink>(
    attached: &mut Attached<E, S, K>,
    stroke: &ScriptStroke<E::Named>,
) -> Result<(), Untaken>
where
    E::Named: NamedKey,
    requires works { attached.old.broken ≡ false }
    ensures comes { Spec.StrokeComes
        (live_station E.behaviour E.keyed E.typing E.seen E.Display.does.shown
        E.Display.operated E.Named.words)
        (on_devices K.writer S.reader)
        (stroke_keys E.Named.words (E.Display.does.shown (E.seen.display attached.old.end)) stroke.now)
        attached.old result attached.new }
    ensures works { IfOk (Spec.pressed_outcome result) (λ closing. attached.new.broken ≡ false) }
{
    let runs = match stroke.runs(attached.end().display().screen()) {
        Ok(runs) => runs,
        Err(why) => return Err(Untaken::Unfilled(why)),
    };
    for run in runs.as_slice() {
        let key = E::Named::from_profile(run.key);
        for _ in 0..run.times {
            press_key(attached, key)?;
        }
    }
    for key in keys_behind(stroke) {
        press_key(attached, *key)?;
    }
    Ok(())
}

// What a stroke fills a field with, after the keys of the profile with which it begins.
fn keys_behind<Q>(stroke: &ScriptStroke<Q>) -> &[Q]
    ensures { result.now ≡ the_keys_behind stroke.now }
{
    match stroke {
        ScriptStroke::Fill(filling) => filling.keys.as_slice(),
        _ => &[],
    }
}

/// Prints why keys that a line of this number has pressed weren't all taken, if they weren't; and how the line closes.
pub(crate) fn put_pressed<O: Sink>(
    out: &mut O,
    output: Output,
    line: Option<u64>,
    pressed: Result<(), Untaken>,
) -> Carried
    ensures outcome { result.outcome ≡ Spec.pressed_outcome pressed }
    ensures text { Prints O.writer out.old out.new output result.output
        (Spec.pressed_text line pressed) }
{
    let Err(untaken) = pressed else {
        return Carried::new(output, Ok(Closing::Done));
    };
    match untaken {
        Untaken::Refused { entered, why } => Carried {
            output: put_key_refused(out, output, line, entered, why),
            outcome: Ok(Closing::Declined),
        },
        Untaken::Unfilled(why) => Carried {
            output: texts!("field refused ", field_fault_word(why), ByLine(line), "\n").put_to(
                out, output,
            ),
            outcome: Ok(Closing::Declined),
        },
        Untaken::Unwritten(fault) => Carried::new(output, Err(fault)),
    }
}

// The word for why a field can't be filled.
fn field_fault_word(why: FieldFault) -> &'static str
    ensures { result.now ≡ Spec.field_fault_word why }
{
    match why {
        FieldFault::NoSuchField => "NoSuchField",
        FieldFault::TooLong => "TooLong",
    }
}

// Writes why a key is refused, and the character that it would have entered.
fn put_key_refused<O: Sink>(
    out: &mut O,
    output: Output,
    line: Option<u64>,
    entered: Option<char>,
    why: KeyFault,
) -> Output
    ensures { Prints O.writer out.old out.new output result
        (Spec.key_refused_line line entered why) }
{
    let output = put_text(out, output, "key refused ");
    let output = put_key_fault(out, output, why);
    let output = put_entered(out, output, entered);
    let output = ByLine(line).put_to(out, output);
    put_text(out, output, "\n")
}

// Writes a character behind a blank, where there is one.
fn put_entered<O: Sink>(out: &mut O, output: Output, entered: Option<char>) -> Output
    ensures { Prints O.writer out.old out.new output result
        (Spec.entered_behind entered) }
{
    match entered {
        None => output,
        Some(character) => texts!(" ", Character(character)).put_to(out, output),
    }
}
