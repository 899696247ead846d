//! How tokens are spelled, into a list or out to a sink (RFC 854; EOR: RFC 885).

ghost use Rattle.std.specs.Prelude.{◌≡◌, ◌++◌, ◌∷◌, ◌+◌, ◌*◌, ◌≤◌, [], length, OnOk, IfErr};
ghost use Rattle.std.specs.List.{flat_map};
ghost use Rattle.ws_code.specs.Device.{WentOut, FailedWithin};
ghost use Rattle.ws_telnet.specs.Token.{doubled, telnet_spelling, token_spelling};

use crate::{EOR, IAC, SB, SE, Telnet, Token};
use arrayvec::ArrayVec;
use ws_code::{Fault, Sink, write_whole};

/// Replaces what the list held by the token's spelling (RFC 854; EOR: RFC 885).
pub fn spell(token: &Token, into: &mut ArrayVec<u8, 133>)
    ensures { into.new.items ≡ token_spelling token.now }
{
    into.clear();
    match token {
        Token::Data(byte) => push_doubled(into, *byte),
        Token::Eor => {
            into.push(IAC);
            into.push(EOR);
        }
        Token::Telnet(telnet) => spell_telnet(telnet, into),
    }
}

/// Writes the token's spelling (RFC 854; EOR: RFC 885).
///
/// # Errors
///
/// `Write` alone: the sink failed, and what went out of the spelling is a prefix of it.
pub fn write_token<S: Sink>(sink: &mut S, token: &Token) -> Result<(), Fault>
    ensures ok { OnOk result (WentOut S.writer sink.old sink.new
        (token_spelling token.now)) }
    ensures err { IfErr result (λ fault. (fault ≡ Fault.Write)
        × FailedWithin S.writer sink.old sink.new (token_spelling token.now)) }
{
    let mut spelling = ArrayVec::new();
    spell(token, &mut spelling);
    write_whole(sink, spelling.as_slice())
}

// Beside write_token, since a token can't be made of a borrowed command without a copy.
/// Writes a command's spelling (RFC 854).
///
/// # Errors
///
/// `Write` alone: the sink failed, and what went out of the spelling is a prefix of it.
pub fn write_telnet<S: Sink>(sink: &mut S, telnet: &Telnet) -> Result<(), Fault>
    ensures ok { OnOk result (WentOut S.writer sink.old sink.new
        (telnet_spelling telnet.now)) }
    ensures err { IfErr result (λ fault. (fault ≡ Fault.Write)
        × FailedWithin S.writer sink.old sink.new (telnet_spelling telnet.now)) }
{
    let mut bytes = ArrayVec::new();
    spell_telnet(telnet, &mut bytes);
    write_whole(sink, bytes.as_slice())
}

fn spell_telnet(telnet: &Telnet, into: &mut ArrayVec<u8, 133>)
    requires { into.old.items ≡ [] }
    ensures { into.new.items ≡ telnet_spelling telnet.now }
{
    into.push(IAC);
    match telnet {
        Telnet::Command(code) => into.push(code.byte()),
        Telnet::Option(verb, option) => {
            into.push(verb.byte());
            into.push(*option);
        }
        Telnet::Sub(sub) => {
            into.push(SB);
            into.push(sub.option);
            push_all_doubled(into, sub.data_.as_slice());
            into.push(IAC);
            into.push(SE);
        }
    }
}

// An FF among a subnegotiation's bytes and a record's is doubled.
fn push_doubled(into: &mut ArrayVec<u8, 133>, byte: u8)
    requires { length into.old.items + 2 ≤ 133 }
    ensures { into.new.items ≡ into.old.items ++ doubled byte }
{
    into.push(byte);
    if byte == IAC {
        into.push(byte);
    }
}

fn push_all_doubled(into: &mut ArrayVec<u8, 133>, bytes: &[u8])
    requires { length into.old.items + 2 * length bytes.now ≤ 131 }
    ensures items { into.new.items ≡ into.old.items ++ flat_map doubled bytes.now }
    ensures room { length into.new.items ≤ 131 }
{
    for byte in bytes {
        push_doubled(into, *byte);
    }
}
