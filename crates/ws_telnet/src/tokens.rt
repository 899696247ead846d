//! The machine that reads tokens byte by byte (RFC 854; EOR: RFC 885).

ghost use Rattle.std.specs.Prelude.{◌≡◌, ◌≢◌, ◌++◌, ◌∷◌, ◌<◌, [], true, false, ◌⊎◌, IfSome, IfNone};
ghost use Rattle.ws_telnet.specs.Token.{token_rules, token_reason, command_byte, verb_byte, doubled};
ghost use Rattle.ws_code.specs.Code.{IsUnfinished};
ghost use Rattle.ws_telnet.specs.Machine.{unfinished_token, sub_begun, sub_of};
ghost use Rattle.ws_telnet.specs.Words.{IsWord, telnet_of};
ghost use Rattle.ws_telnet.specs.TokenLaws.{token_nonempty, token_bytes_are, token_prefix_free, token_begins};

use crate::{CommandCode, EOR, IAC, SB, SE, Sub, Telnet, TelnetWord, Token, Verb, Word};
use arrayvec::ArrayVec;
use ws_code::{ByteList, Code, Push, Reason};

// What a machine waits for.
#[derive(Clone, Copy)]
enum Phase {
    Begin,
    Iac,
    Negotiation(Verb),
    SubOption,
    Content,
    ContentIac,
}

/// Reads tokens byte by byte (RFC 854; EOR: RFC 885). A token comes with the last byte of its spelling.
///
/// `Bad` comes with the first byte after which the bytes begin no token. Its reason is
/// - `BadCommand` (1) at 00 to EE after an FF, outside a subnegotiation;
/// - `StraySe` (2) at F0 after an FF, outside a subnegotiation;
/// - `BadSub` (3) at a byte other than FF and F0 after an FF in a subnegotiation's data;
/// - `SubTooLong` (4) at the byte that completes a 65th byte of a subnegotiation's data: another than FF, or
///   the second FF of a pair.
#[derive(Drop)]
pub struct Tokens {
    phase: Phase,
    option: u8,
    content: ArrayVec<u8, 64>,
}

fn command_of(byte: u8) -> Option<CommandCode>
    ensures some { IfSome result (λ code. command_byte code ≡ byte) }
    ensures none { IfNone result ((byte < 0xf1) ⊎ (0xf9 < byte)) }
{
    match byte {
        0xf1 => Some(CommandCode::Nop),
        0xf2 => Some(CommandCode::DataMark),
        0xf3 => Some(CommandCode::Break),
        0xf4 => Some(CommandCode::InterruptProcess),
        0xf5 => Some(CommandCode::AbortOutput),
        0xf6 => Some(CommandCode::AreYouThere),
        0xf7 => Some(CommandCode::EraseCharacter),
        0xf8 => Some(CommandCode::EraseLine),
        0xf9 => Some(CommandCode::GoAhead),
        _ => None,
    }
}

fn verb_of(byte: u8) -> Option<Verb>
    ensures some { IfSome result (λ verb. verb_byte verb ≡ byte) }
    ensures none { IfNone result ((byte < 0xfb) ⊎ (0xfe < byte)) }
{
    match byte {
        0xfb => Some(Verb::Will),
        0xfc => Some(Verb::Wont),
        0xfd => Some(Verb::Do),
        0xfe => Some(Verb::Dont),
        _ => None,
    }
}

impl Tokens {
    /// Whether a token has begun and isn't whole.
    #[inline(always)]
    pub fn is_inside(&self) -> bool
        ensures yes { result ≡ true → unfinished_token self.now ≢ [] }
        ensures no { result ≡ false → unfinished_token self.now ≡ [] }
    {
        !matches!(self.phase, Phase::Begin)
    }

    /// Takes an FF between tokens, which begins one (RFC 854, "TELNET COMMAND STRUCTURE").
    #[inline(always)]
    pub fn begin(&mut self)
        requires { unfinished_token self.old ≡ [] }
        ensures begun { unfinished_token self.new ≡ IAC ∷ [] }
        ensures more { IsUnfinished token_rules tt (unfinished_token self.new) }
    {
        self.phase = Phase::Iac;
    }

    /// Takes the byte after an FF outside a subnegotiation (RFC 854, "TELNET COMMAND STRUCTURE"). Whoever has both
    /// bytes needs no `begin`.
    #[inline(always)]
    pub fn after_iac(&mut self, byte: u8) -> Word
        ensures { IsWord (IAC ∷ []) byte self.new result }
    {
        self.phase = Phase::Begin;
        match byte {
            IAC => Word::Data,
            EOR => Word::Eor,
            SB => {
                self.phase = Phase::SubOption;
                Word::More
            }
            SE => Word::Bad(Reason::StraySe),
            _ => self.command(byte),
        }
    }

    /// Takes a byte of a token that has begun (RFC 854, "TELNET COMMAND STRUCTURE"; subnegotiations: RFC 855).
    #[inline(always)]
    pub fn go_on(&mut self, byte: u8) -> Word
        requires inside { unfinished_token self.old ≢ [] }
        requires begun { IsUnfinished token_rules tt (unfinished_token self.old) }
        ensures { IsWord (unfinished_token self.old) byte self.new result }
    {
        match self.phase {
            Phase::Begin | Phase::Iac => self.after_iac(byte),
            Phase::Negotiation(verb) => {
                self.phase = Phase::Begin;
                Word::Telnet(TelnetWord::Option(verb, byte))
            }
            Phase::SubOption => {
                self.take_option(byte);
                Word::More
            }
            Phase::Content => self.after_content(byte),
            Phase::ContentIac => self.after_content_iac(byte),
        }
    }

    /// The Telnet command that has just ended. A subnegotiation is taken out of the machine.
    pub fn telnet(&mut self, word: TelnetWord) -> Telnet
        requires { unfinished_token self.old ≡ [] }
        ensures telnet { result ≡ telnet_of word (sub_of self.old) }
        ensures between { unfinished_token self.new ≡ [] }
        ensures same { word ≢ TelnetWord.Sub → self.new ≡ self.old }
    {
        match word {
            TelnetWord::Command(code) => Telnet::Command(code),
            TelnetWord::Option(verb, option) => Telnet::Option(verb, option),
            TelnetWord::Sub => Telnet::Sub(Sub {
                option: self.option,
                data_: ByteList::of(self.content.take()),
            }),
        }
    }

    // A verb, or a command that stands alone.
    #[inline(always)]
    fn command(&mut self, byte: u8) -> Word
        // After an IAC between two tokens, with a byte that goes with it alone.
        requires between { unfinished_token self.old ≡ [] }
        requires no_data { byte ≢ IAC }
        requires no_eor { byte ≢ EOR }
        requires no_sb { byte ≢ SB }
        requires no_se { byte ≢ SE }
        // What the two are.
        ensures { IsWord (IAC ∷ []) byte self.new result }
    {
        if let Some(code) = command_of(byte) {
            return Word::Telnet(TelnetWord::Command(code));
        }
        match verb_of(byte) {
            Some(verb) => {
                self.phase = Phase::Negotiation(verb);
                Word::More
            }
            None => Word::Bad(Reason::BadCommand),
        }
    }

    // The option of a subnegotiation, whose data follow.
    #[inline(always)]
    fn take_option(&mut self, option: u8)
        ensures { unfinished_token self.new ≡ IAC ∷ SB ∷ option ∷ [] }
    {
        self.option = option;
        self.content.clear();
        self.phase = Phase::Content;
    }

    // What follows the option or the data of a subnegotiation.
    #[inline(always)]
    fn after_content(&mut self, byte: u8) -> Word
        requires phase { self.old.phase ≡ Phase.Content }
        requires begun { IsUnfinished token_rules tt (unfinished_token self.old) }
        ensures { IsWord (unfinished_token self.old) byte self.new result }
    {
        if byte == IAC {
            self.phase = Phase::ContentIac;
            return Word::More;
        }
        self.take_content(byte)
    }

    // What follows an FF in a subnegotiation: a second one, or the end.
    #[inline(always)]
    fn after_content_iac(&mut self, byte: u8) -> Word
        requires phase { self.old.phase ≡ Phase.ContentIac }
        requires begun { IsUnfinished token_rules tt (unfinished_token self.old) }
        ensures { IsWord (unfinished_token self.old) byte self.new result }
    {
        if byte == IAC {
            return self.take_content(byte);
        }
        self.phase = Phase::Begin;
        if byte == SE {
            Word::Telnet(TelnetWord::Sub)
        } else {
            Word::Bad(Reason::BadSub)
        }
    }

    // Takes the byte that completes one of a subnegotiation's data: another than FF, or the second FF of a pair.
    #[inline(always)]
    fn take_content(&mut self, byte: u8) -> Word
        requires begun { IsUnfinished token_rules tt
            (sub_begun self.old.option self.old.content.items) }
        requires completes { unfinished_token self.old ++ byte ∷ []
            ≡ sub_begun self.old.option self.old.content.items ++ doubled byte }
        requires reason { token_reason (unfinished_token self.old) byte ≡ Reason.SubTooLong }
        ensures { IsWord (unfinished_token self.old) byte self.new result }
    {
        if self.content.is_full() {
            self.phase = Phase::Begin;
            return Word::Bad(Reason::SubTooLong);
        }
        self.content.push(byte);
        self.phase = Phase::Content;
        Word::More
    }
}

impl Code for Tokens {
    type Unit = Token;

    type Place = ();

    ghost rules = { token_rules };

    ghost place = { λ _. tt };

    ghost unfinished = { unfinished_token };

    ghost nonempty = { token_nonempty };

    ghost bytes = { token_bytes_are };

    ghost prefix_free = { token_prefix_free };

    ghost begins = { token_begins };

    fn first() -> () {
        ()
    }

    fn after(_unit: &Token) -> () {
        ()
    }

    fn start(_at: ()) -> Self {
        Tokens {
            phase: Phase::Begin,
            option: 0,
            content: ArrayVec::new(),
        }
    }

    #[inline(always)]
    fn restart(&mut self, _at: ()) {
        self.phase = Phase::Begin;
    }

    #[inline(always)]
    fn push(&mut self, byte: u8) -> Push<Token> {
        if !self.is_inside() {
            if byte != IAC {
                return Push::Unit(Token::Data(byte));
            }
            self.begin();
            return Push::More;
        }
        match self.go_on(byte) {
            Word::More => Push::More,
            Word::Data => Push::Unit(Token::Data(IAC)),
            Word::Eor => Push::Unit(Token::Eor),
            Word::Telnet(word) => Push::Unit(Token::Telnet(self.telnet(word))),
            Word::Bad(reason) => Push::Bad(reason),
        }
    }

    fn known(unit: &Token) {
        match unit {
            Token::Data(_byte) => {
                let _read = *_byte;
            }
            Token::Eor => {}
            Token::Telnet(Telnet::Command(_code)) => {}
            Token::Telnet(Telnet::Option(_verb, _option)) => {
                let _read = *_option;
            }
            Token::Telnet(Telnet::Sub(_sub)) => {
                let _read = _sub.option;
                let _bytes = _sub.data_.as_slice();
            }
        }
    }
}
