//! The lines of standard input, one by one, as those of a script's file are read. Where they are typed at a terminal,
//! some more words can be.
ghost use Rattle.std.specs.Prelude.{◌≡◌, true, None, Ok, Some, OnOk, IfOk, IfErr, IfSome, IsOkAnd};
ghost use Rattle.std.specs.Option.{option_map};
ghost use Rattle.std.specs.Str.Lines.{lines};
ghost use Rattle.ws_code.specs.Device.{one_more};
ghost use Rattle.ws_network.specs.InputLines.{InputState, typed_words, untaken};
ghost use Rattle.ws_network.specs.InputLines.{IsInputFault, TellsBadLine, IsNextInput, IsNextKept, IsUnreadFault, unread_fault};
ghost use Rattle.ws_text.specs.Names.{look_up};

use std::alloc::Global;
use std::io::{BufRead, ErrorKind};
use std::marker::Model;
use ws_live::Closing;
use ws_script::{
    LiveLine, RunFault, ScriptFault, ToldFault, Vocabulary, cause_in_block, cause_text, is_indented,
};
use ws_text::first_line;

/// What comes of standard input.
#[derive(Drop)]
pub(crate) enum Next<L> {
    /// A line, with those that belong to it.
    Line(L),
    /// A line that is bad, or with one that belongs to it, by its number counted from 1 and its cause. It comes where
    /// lines are typed alone.
    Bad { number: u64, cause: String },
    /// A word that asks for something else. It comes where lines are typed alone.
    Word(TypedWord),
    /// There is none more.
    End,
}

/// A word that stands for no line.
#[derive(Clone, Copy, PartialEq, Eq)]
pub(crate) enum TypedWord {
    /// Prints which lines there are.
    Help,
    /// Ends the session.
    Quit,
}

/// Reads the next line of standard input with those that belong to it. Where the session tells when it is ready, what
/// stands for a bad line comes in its place.
///
/// # Errors
///
/// `Line` where it is bad with those that belong to it, no line is typed, and the session doesn't tell when it is ready;
/// `Read` where standard input can't be read, `Memory` where a growth was refused.
pub(crate) fn next_line<B: BufRead + Drop, L: LiveLine>(
    input: &mut InputLines<B>,
    vocabulary: Vocabulary,
    ready: bool,
) -> Result<Next<L>, ToldFault>
    ensures line { IfOk result (IsNextInput L.language vocabulary ready input.old) }
    ensures fault { IfErr result (IsInputFault ready) }
    ensures bad { IfErr result (TellsBadLine L.language vocabulary input.old.taken) }
    ensures typed { input.old.is_typed ≡ true → IfErr result IsUnreadFault }
    ensures kept { input.new.is_typed ≡ input.old.is_typed }
{
    let before = input.number;
    let is_typed = input.is_typed;
    let Some(raw) = input.take()? else {
        return Ok(Next::End);
    };
    let line = without_end(raw.as_slice());
    if is_typed {
        if let Some(word) = typed_word(line) {
            return Ok(Next::Word(word));
        }
    }
    let mut inside = Vec::new(input.alloc);
    if L::opens(line) {
        input.gather(&mut inside)?;
    }
    match L::read(input.alloc, line, inside.as_slice()) {
        Ok(line) => Ok(Next::Line(line)),
        Err(ScriptFault::Memory) => Err(ToldFault::Run(RunFault::Memory)),
        Err(ScriptFault::Line(at)) => {
            let why = cause_in_block(line, inside.as_slice(), at, vocabulary);
            let Ok(cause) = cause_text(input.alloc, why) else {
                return Err(ToldFault::Run(RunFault::Memory));
            };
            if ready {
                return Ok(Next::Line(L::bad(cause)));
            }
            let number = before.saturating_add(at);
            if is_typed {
                return Ok(Next::Bad { number, cause });
            }
            Err(ToldFault::Line { number, cause })
        }
    }
}

// The word that a line is.
fn typed_word(line: &[u8]) -> Option<TypedWord>
    ensures { result ≡ look_up line.now typed_words }
{
    match line {
        [b'h', b'e', b'l', b'p'] => Some(TypedWord::Help),
        [b'q', b'u', b'i', b't'] => Some(TypedWord::Quit),
        _ => None,
    }
}

// A line as it was read, without what ends it.
fn without_end(raw: &[u8]) -> &[u8] {
    match raw {
        [] => raw,
        _ => first_line(raw).0,
    }
}

/// The lines of standard input, one by one. It is seen as the number of those that were taken, whether they are typed,
/// the one that was read ahead, and whether there are no more.
#[derive(Drop)]
pub(crate) struct InputLines<B> {
    reader: B,
    alloc: Global,
    // Whether they are typed at a terminal, by someone who reads what is told of each.
    is_typed: bool,
    // One that was read to see that it belongs to none before it.
    ahead: Option<Vec<u8>>,
    // How many were taken.
    number: u64,
    // The next was asked for.
    is_asked: bool,
    // There are no more.
    is_over: bool,
}

impl<B> Model for InputLines<B> {
    ghost Value = { InputState };

    ghost view = { λ input. record {
      taken = input.number;
      is_typed = input.is_typed;
      ahead = option_map (λ line. line.items) input.ahead;
      is_over = input.is_over;
    } };
}

impl<B: BufRead + Drop> InputLines<B> {
    /// None was taken.
    pub(crate) fn new(alloc: Global, reader: B, is_typed: bool) -> Self
        ensures { result ≡ untaken is_typed }
    {
        InputLines {
            reader,
            alloc,
            is_typed,
            ahead: None,
            number: 0,
            is_asked: false,
            is_over: false,
        }
    }

    /// Whether the next line is asked of who types it, and hasn't been read already.
    pub(crate) fn is_asking(&self) -> bool
        ensures { result ≡ true → self.now.is_typed ≡ true }
    {
        self.is_typed && self.ahead.is_none() && !self.is_over
    }

    /// Whether it wasn't asked for since a line was taken, or something told meanwhile. It is asked for then.
    pub(crate) fn asks_anew(&mut self) -> bool
        ensures { self.new ≡ self.old }
    {
        let is_first = !self.is_asked;
        self.is_asked = true;
        is_first
    }

    /// After a line that told something it is asked for once more.
    pub(crate) fn ask_again_after(&mut self, closing: Closing)
        ensures { self.new ≡ self.old }
    {
        self.is_asked = self.is_asked && matches!(closing, Closing::Done);
    }

    /// Whether the end of what is typed has come.
    pub(crate) fn is_typed_out(&self) -> bool {
        self.is_typed && self.is_over
    }

    // Takes the next line, with its line feed.
    fn take(&mut self) -> Result<Option<Vec<u8>>, ToldFault>
        ensures taken { OnOk result (self.new.taken ≡ one_more self.old.taken) }
        ensures kept { self.new.is_typed ≡ self.old.is_typed }
        ensures ahead { IfSome self.old.ahead (λ ahead. IsOkAnd result (λ line.
            option_map (λ l. l.items) line ≡ Some ahead)) }
        ensures none_ahead { OnOk result (self.new.ahead ≡ None) }
        ensures fault { IfErr result IsUnreadFault }
    {
        let line = match self.ahead.take() {
            Some(line) => Some(line),
            None => self.read()?,
        };
        self.number = self.number.saturating_add(1);
        self.is_asked = false;
        Ok(line)
    }

    // Takes the lines that begin with two blanks: their text, as it stands. The one behind them is kept.
    fn gather(&mut self, inside: &mut Vec<u8>) -> Result<(), ToldFault>
        ensures fault { IfErr result IsUnreadFault }
        ensures kept { self.new.is_typed ≡ self.old.is_typed }
        ensures next { self.old.ahead ≡ None → OnOk result (IsNextKept self.new) }
    {
        for _ in 0..u64::MAX {
            let Some(line) = self.read()? else {
                return Ok(());
            };
            if !is_indented(line.as_slice()) {
                self.ahead = Some(line);
                return Ok(());
            }
            self.number = self.number.saturating_add(1);
            if inside.extend_from_slice(line.as_slice()).is_err() {
                return Err(ToldFault::Run(RunFault::Memory));
            }
        }
        // No memory holds so many lines.
        Err(ToldFault::Run(RunFault::Memory))
    }

    // Reads a line, with its line feed. Behind the last none is asked for again.
    fn read(&mut self) -> Result<Option<Vec<u8>>, ToldFault>
        ensures untaken { self.new ≡ record self.old { is_over = self.new.is_over } }
        ensures over { result ≡ Ok None → self.new.is_over ≡ true }
        ensures fault { IfErr result IsUnreadFault }
    {
        if self.is_over {
            return Ok(None);
        }
        let mut line = Vec::new(self.alloc);
        if let Err(error) = self.reader.read_until(b'\n', &mut line) {
            return Err(unread_line(error.kind()));
        }
        if line.is_empty() {
            self.is_over = true;
            return Ok(None);
        }
        Ok(Some(line))
    }
}

/// Why no line was to be had, by the kind of the error.
pub(crate) fn unread_line(kind: ErrorKind) -> ToldFault
    ensures { result ≡ unread_fault kind }
{
    ToldFault::Run(match kind {
        ErrorKind::OutOfMemory => RunFault::Memory,
        _ => RunFault::Read,
    })
}
