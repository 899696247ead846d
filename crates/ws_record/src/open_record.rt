//! The record that a stream is in the middle of: its header byte by byte, its body run by run, and its end.

ghost use Rattle.std.specs.Prelude.{◌≡◌, ◌≢◌, ◌++◌, ◌∷◌, ◌+◌, ◌*◌, ◌<◌, ◌≤◌, [], List, ℕ, Option, Some, None, true, false, length, take, slice_index, IfSome, IfNone};
ghost use Rattle.ws_code.specs.Run.{IsAt, intake, with_keep};
ghost use Rattle.ws_telnet.specs.declared.token.Token.TheVariants.{Data};
ghost use Rattle.ws_record.specs.Grammar.{IsFramed};
ghost use Rattle.ws_record.specs.Refusal.{header_reason};
ghost use Rattle.ws_record.specs.HeaderSoFar.{HeaderSoFar, head_in};
ghost use Rattle.ws_record.specs.OpenRecord.{RecordSoFar, no_record, HasRead};
ghost use Rattle.ws_record.specs.Taking.{ArePlain, IsHeaderStep, IsTaken, IsRecordEnd, IsWordTaken};
ghost use Rattle.ws_record.specs.declared.news.News.{News as SomeNews};

use crate::{Advance, Head, News, Opcode};
use std::marker::Model;
use ws_code::{Body, End, Keep, Reason, Run, ShortList, Standing, word};
use ws_telnet::{IAC, Word};

// The reason why a byte can't stand after these in a header, before the opcode.
fn header_refusal(header: &[u8], byte: u8) -> Option<Reason>
    requires { length header.now < 9 }
    ensures none { IfNone result (HeaderSoFar header.now
        → HeaderSoFar (header.now ++ byte ∷ [])) }
    ensures some { IfSome result (λ reason.
        ((m : List ℕ) → IsFramed (header.now ++ byte ∷ m) → ⊥)
        × (reason ≡ header_reason header.now (Data byte))) }
{
    match header.len() {
        1 if header[0] == 0 && byte < 10 => Some(Reason::LengthBelowHeader),
        2 if byte != 0x12 => Some(Reason::BadType),
        3 if byte != 0xa0 => Some(Reason::BadType),
        4 if byte != 0 => Some(Reason::BadReserved),
        5 if byte != 0 => Some(Reason::BadReserved),
        6 if byte != 4 => Some(Reason::BadVariableLength),
        _ => None,
    }
}

// How many bytes the piece has before its first FF, but at most so many.
fn plain_length(piece: &[u8], most: usize) -> usize
    // A piece whose first byte is plain.
    requires some { 0 < length piece.now }
    requires room { 0 < most }
    requires plain { slice_index piece.now 0 ≢ IAC }
    // How many from the first on are, up to the most.
    ensures within { result ≤ length piece.now }
    ensures few { result ≤ most }
    ensures some { 0 < result }
    ensures plain { ArePlain (take result piece.now) }
{
    for (index, byte) in piece.iter().enumerate() {
        if *byte == IAC || index == most {
            return index;
        }
    }
    piece.len()
}

// The next unit stands where a body begins.
fn begin_body<B: Body>(machine: &mut B, at: &mut Standing<B::Place>)
    ensures place { B.place machine.new ≡ B.rules.first }
    ensures fresh { B.unfinished machine.new ≡ [] }
    ensures stands { IsAt B.rules
        (record { place = B.place machine.new; begun = B.unfinished machine.new }) at.new }
{
    let place = B::first();
    machine.restart(place);
    *at = Standing {
        place,
        is_inside: false,
    };
}

/// The open record of a stream: its header, and of its body what the unit that is read needs.
#[derive(Drop)]
pub(crate) struct OpenRecord<B: Body> {
    header: ShortList<u8, 10>,
    left: u16,
    machine: B,
    at: Standing<B::Place>,
}

impl<B: Body> Model for OpenRecord<B> {
    ghost use Rattle.ws_record.specs.OpenRecord.{Keeping};
    ghost use Rattle.ws_record.specs.ReadyRecord.{IsReady};

    ghost Value = { Keeping B.Place };

    ghost view = { λ o. record {
      header = o.header;
      left = o.left;
      place = B.place o.machine;
      begun = B.unfinished o.machine;
    } };

    ghost invariant = { λ o. IsReady B.rules o.header o.left
        (record { place = B.place o.machine; begun = B.unfinished o.machine }) o.at };
}

impl<B: Body> OpenRecord<B> {
    /// No record is open.
    pub(crate) fn new() -> Self
        ensures { HasRead B.rules result no_record }
    {
        let place = B::first();
        OpenRecord {
            header: ShortList::new(),
            left: 0,
            machine: B::start(place),
            at: Standing {
                place,
                is_inside: false,
            },
        }
    }

    /// Whether no byte of a record was taken.
    pub(crate) fn is_empty(&self) -> bool
        ensures { (so_far : RecordSoFar B.Unit) → HasRead B.rules self.now so_far
            → (result ≡ true → so_far ≡ no_record) × (result ≡ false → so_far.bytes ≢ []) }
    {
        self.header.is_empty()
    }

    /// Takes bytes of the piece up to an FF, as values: some of the header, or some of the body.
    #[inline(always)]
    pub(crate) fn take<K: Keep<B::Unit>>(&mut self, piece: &[u8], keep: &mut K) -> Advance
        // A piece whose first byte is plain.
        requires some { 0 < length piece.now }
        requires plain { slice_index piece.now 0 ≢ IAC }
        // How much of it is used, and what that brings to the open record.
        ensures within { result.used ≤ length piece.now }
        ensures used { 0 < result.used }
        ensures plain { ArePlain (take result.used piece.now) }
        ensures taken { (so_far : RecordSoFar B.Unit) → HasRead B.rules self.old so_far
            → IsTaken (intake B.rules K.keeper) (with_keep so_far keep.old)
            (take result.used piece.now) (with_keep self.new keep.new) result.news }
    {
        if self.left > 0 {
            let most = usize::from(self.left);
            let count = plain_length(piece, most);
            self.take_body(&piece[..count], keep)
        } else {
            let count = plain_length(piece, 10);
            self.take_header(&piece[..count], keep)
        }
    }

    // Takes a value, which may be FF.
    #[inline(never)]
    fn take_value<K: Keep<B::Unit>>(&mut self, value: u8, keep: &mut K) -> News
        ensures { (so_far : RecordSoFar B.Unit) → HasRead B.rules self.old so_far
            → IsTaken (intake B.rules K.keeper) (with_keep so_far keep.old)
            (value ∷ []) (with_keep self.new keep.new) result }
    {
        if self.left > 0 {
            self.take_body(&[value], keep).news
        } else {
            self.take_header(&[value], keep).news
        }
    }

    // Takes values of the body.
    #[inline(always)]
    fn take_body<K: Keep<B::Unit>>(&mut self, values: &[u8], keep: &mut K) -> Advance
        // Values for the body, no more than are left of it.
        requires some { 0 < length values.now }
        requires room { length values.now ≤ self.old.left }
        // How many are used, and what they bring to the open record.
        ensures within { result.used ≤ length values.now }
        ensures used { 0 < result.used }
        ensures taken { (so_far : RecordSoFar B.Unit) → HasRead B.rules self.old so_far
            → IsTaken (intake B.rules K.keeper) (with_keep so_far keep.old)
            (take result.used values.now) (with_keep self.new keep.new) result.news }
    {
        let Run { used, end } = self.machine.run(&mut self.at, values, keep);
        self.left -= used as u16;
        keep.took(&values[..used]);
        match end {
            End::More => Advance {
                used,
                news: News::More,
            },
            End::Enough => Advance {
                used,
                news: News::Unit,
            },
            End::NoMemory => {
                begin_body(&mut self.machine, &mut self.at);
                Advance {
                    used,
                    news: News::NoMemory,
                }
            }
            End::Bad(reason) => {
                begin_body(&mut self.machine, &mut self.at);
                Advance {
                    used,
                    news: News::Refused(reason),
                }
            }
        }
    }

    // Takes values of the header, or the first one after a whole record.
    #[inline(never)]
    fn take_header<K: Keep<B::Unit>>(&mut self, values: &[u8], _keep: &mut K) -> Advance
        // Values for the header.
        requires some { 0 < length values.now }
        requires header { self.old.left ≡ 0 }
        // How many are used, and what they bring to the open record.
        ensures within { result.used ≤ length values.now }
        ensures used { 0 < result.used }
        ensures taken { (so_far : RecordSoFar B.Unit) → HasRead B.rules self.old so_far
            → IsTaken (intake B.rules K.keeper) (with_keep so_far _keep.old)
            (take result.used values.now) (with_keep self.new _keep.new) result.news }
    {
        for (index, value) in values.iter().enumerate() {
            match self.take_header_byte(*value) {
                News::More => {}
                news => {
                    return Advance {
                        used: index + 1,
                        news,
                    };
                }
            }
        }
        Advance {
            used: values.len(),
            news: News::More,
        }
    }

    // Takes a byte of the header, or one after a whole record.
    #[inline(always)]
    fn take_header_byte(&mut self, byte: u8) -> News
        requires { self.old.left ≡ 0 }
        ensures step { (so_far : RecordSoFar B.Unit) → HasRead B.rules self.old so_far
            → IsHeaderStep B.rules self.new so_far byte result }
        ensures more { result ≡ SomeNews.More
            → (self.new.left ≡ 0) × (length self.new.header < 10) }
    {
        if self.header.len() >= 10 {
            return News::Refused(Reason::TooLong);
        }
        if self.header.len() == 9 {
            return self.take_opcode(byte);
        }
        if let Some(reason) = header_refusal(self.header.as_slice(), byte) {
            return News::Refused(reason);
        }
        self.header.push(byte);
        News::More
    }

    fn take_opcode(&mut self, byte: u8) -> News
        requires header { length self.old.header ≡ 9 }
        ensures step { (so_far : RecordSoFar B.Unit) → HasRead B.rules self.old so_far
            → IsHeaderStep B.rules self.new so_far byte result }
        ensures more { result ≢ SomeNews.More }
    {
        match Opcode::from_byte(byte) {
            None => News::Refused(Reason::UnknownOpcode),
            Some(opcode) => {
                let head = head_of(self.header.as_slice(), opcode);
                self.header.push(byte);
                self.left = head.length - 10;
                News::Open(head)
            }
        }
    }

    // Ends the record, where it is whole, and tells its head, else why not. The next one begins.
    // The head is read from its ten bytes anew: none is kept, nor made up before the first record.
    fn end(&mut self) -> News
        ensures { (so_far : RecordSoFar B.Unit) → HasRead B.rules self.old so_far
            → IsRecordEnd B.rules so_far self.new result }
    {
        if self.header.len() < 10 || self.left > 0 {
            return News::Refused(Reason::TooShort);
        }
        if self.at.is_inside || !B::may_end(self.at.place) {
            return News::Refused(Reason::EndedInside);
        }
        let header = self.header.as_slice();
        let Some(opcode) = Opcode::from_byte(header[9]) else {
            return News::Refused(Reason::TooShort);
        };
        let head = head_of(header, opcode);
        self.header.clear();
        begin_body(&mut self.machine, &mut self.at);
        News::Close(head)
    }

    /// Takes what a token's last byte has made of it.
    #[inline(always)]
    pub(crate) fn complete<K: Keep<B::Unit>>(&mut self, word: Word, keep: &mut K) -> News
        ensures { (so_far : RecordSoFar B.Unit) → HasRead B.rules self.old so_far
            → IsWordTaken (intake B.rules K.keeper) so_far (with_keep self.old keep.old) word
            (with_keep self.new keep.new) result }
    {
        match word {
            Word::More => News::More,
            Word::Data => self.take_value(IAC, keep),
            Word::Eor => self.end(),
            Word::Telnet(said) => News::Telnet(said),
            Word::Bad(reason) => News::Refused(reason),
        }
    }
}

// What nine bytes of a header, or more, and its opcode say.
fn head_of(header: &[u8], opcode: Opcode) -> Head
    requires { 9 ≤ length header.now }
    ensures { result ≡ head_in header.now opcode }
{
    Head {
        flags: word(header[7], header[8]),
        opcode,
        length: word(header[0], header[1]),
    }
}
