//! A line of a script of both ends.
ghost use Rattle.std.specs.Prelude.{◌≡◌, ◌++◌, ◌∷◌, ◌<◌, [], List as Seq, true, length, codes, IfErr, OnOk};
ghost use Rattle.std.specs.Str.{IsUtf8};
ghost use Rattle.ws_session.specs.declared.world.Move.{Move as AMove};
ghost use Rattle.ws_printing.specs.script.Script as Spec;
ghost use Rattle.ws_printing.specs.script.ScriptFaults.{AreAdded, IsGoodSoFar, IsNoComment, has_no_blank};

use crate::script::ScriptFault;
use crate::script::script_move::{read_move, split_word};
use std::alloc::Global;
use std::str;
use ws_keys::Key;
use ws_session::Move;

/// Adds a line's moves.
///
/// # Errors
///
/// `Line(1)` where the line isn't UTF-8, or is no line of a script of both ends. `Memory` where a growth was refused:
/// it is one, or a `send` that is good up to the blank before its body.
pub fn read_line(alloc: Global, line: &[u8], moves: &mut Vec<Move>) -> Result<(), ScriptFault>
    ensures { AreAdded (Spec.IsScriptLine line.now) (IsUtf8 line.now × IsGoodSoFar line.now)
        moves.old.items moves.new.items result }
{
    let Ok(text) = str::from_utf8(line) else {
        return Err(ScriptFault::Line(1));
    };
    if text.is_empty() {
        return Ok(());
    }
    if text.strip_prefix('#').is_some() {
        return Ok(());
    }
    match split_word(text) {
        None => read_word(text, moves),
        Some((command, words)) => read_command(alloc, command, words, moves),
    }
}

// Adds the moves of a line that is one word.
fn read_word(word: &str, moves: &mut Vec<Move>) -> Result<(), ScriptFault>
    // A word alone on its line.
    requires some { 0 < length word.now }
    requires no_blank { has_no_blank word.now ≡ true }
    requires no_comment { IsNoComment word.now }
    // What it means, or that it means nothing.
    ensures { AreAdded (Spec.MeansMoves word.now) (IsGoodSoFar word.now)
        moves.old.items moves.new.items result }
{
    match word {
        "cancel" => add(moves, Move::Cancel),
        "settle" => settle(moves),
        _ => Err(ScriptFault::Line(1)),
    }
}

// Adds the moves of a command with words behind its blank.
fn read_command(
    alloc: Global,
    command: &str,
    words: &str,
    moves: &mut Vec<Move>,
) -> Result<(), ScriptFault>
    requires no_blank { has_no_blank command.now ≡ true }
    requires no_comment { IsNoComment (command.now ++ codes " " ++ words.now) }
    ensures { AreAdded (Spec.MeansMoves (command.now ++ codes " " ++ words.now))
        (IsGoodSoFar (command.now ++ codes " " ++ words.now))
        moves.old.items moves.new.items result }
{
    match command {
        "type" => type_text(words, false, moves),
        "insert" => type_text(words, true, moves),
        _ => {
            let step = read_move(alloc, command, words)?;
            add(moves, step)
        }
    }
}

/// Adds an item to a list.
///
/// # Errors
///
/// `Memory` where the growth was refused.
pub fn add<T: Drop>(items: &mut Vec<T>, item: T) -> Result<(), ScriptFault>
    ensures ok { OnOk result (items.new.items ≡ items.old.items ++ item ∷ []) }
    ensures fault { IfErr result (λ fault. fault ≡ ScriptFault.Memory) }
{
    match items.push(item) {
        Ok(()) => Ok(()),
        Err(_) => Err(ScriptFault::Memory),
    }
}

// All that is in flight arrives, four times to and fro.
fn settle(moves: &mut Vec<Move>) -> Result<(), ScriptFault>
    ensures ok { OnOk result (moves.new.items ≡ moves.old.items ++ Spec.settling) }
    ensures fault { IfErr result (λ fault. fault ≡ ScriptFault.Memory) }
{
    deliver_all(moves)?;
    deliver_all(moves)?;
    deliver_all(moves)?;
    deliver_all(moves)
}

fn deliver_all(moves: &mut Vec<Move>) -> Result<(), ScriptFault>
    ensures ok { OnOk result (moves.new.items ≡ moves.old.items ++ Spec.to_and_fro) }
    ensures fault { IfErr result (λ fault. fault ≡ ScriptFault.Memory) }
{
    add(moves, Move::ToStation(usize::MAX))?;
    add(moves, Move::ToHost(usize::MAX))
}

// Adds a key for each character of the text.
fn type_text(text: &str, inserts: bool, moves: &mut Vec<Move>) -> Result<(), ScriptFault>
    ensures ok { OnOk result ((given : Seq AMove) × Spec.AreTypedMoves inserts text.now given
        × (moves.new.items ≡ moves.old.items ++ given)) }
    ensures fault { IfErr result (λ fault. fault ≡ ScriptFault.Memory) }
{
    for character in text.chars() {
        add(moves, Move::Key(typed_key(inserts, character)))?;
    }
    Ok(())
}

pub fn typed_key(inserts: bool, character: char) -> Key
    ensures { result ≡ Spec.typed_key inserts character }
{
    if inserts {
        Key::Insert(character)
    } else {
        Key::Char(character)
    }
}
