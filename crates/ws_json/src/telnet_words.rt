//! A Telnet command as its words.
ghost use Rattle.std.specs.Prelude.{◌≡◌};
ghost use Rattle.ws_text.specs.ItemLines.{telnet_command_name, telnet_name, verb_name};

use ws_code::Sink;
use ws_telnet::{CommandCode, Telnet, Verb};
use ws_text::{HexBehindBlank, Number, Output, Text, texts};

/// The words of a Telnet command: its name, and what it is about.
#[derive(Clone, Copy)]
pub(crate) struct TelnetWords<'a>(pub(crate) &'a Telnet);

impl Text for TelnetWords<'_> {
    ghost text = { λ words. telnet_name words.0.now };

    fn put_to<S: Sink>(&self, sink: &mut S, output: Output) -> Output {
        match self.0 {
            Telnet::Command(code) => command_name(*code).put_to(sink, output),
            Telnet::Option(verb, option) => {
                texts!(verb_name(*verb), " ", Number(*option as u64)).put_to(sink, output)
            }
            Telnet::Sub(sub) => {
                let bytes = HexBehindBlank(sub.data_.as_slice());
                texts!("SB ", Number(sub.option as u64), bytes).put_to(sink, output)
            }
        }
    }
}

fn command_name(code: CommandCode) -> &'static str
    ensures { result.now ≡ telnet_command_name code }
{
    match code {
        CommandCode::Nop => "NOP",
        CommandCode::DataMark => "DM",
        CommandCode::Break => "BRK",
        CommandCode::InterruptProcess => "IP",
        CommandCode::AbortOutput => "AO",
        CommandCode::AreYouThere => "AYT",
        CommandCode::EraseCharacter => "EC",
        CommandCode::EraseLine => "EL",
        CommandCode::GoAhead => "GA",
    }
}

fn verb_name(verb: Verb) -> &'static str
    ensures { result.now ≡ verb_name verb }
{
    match verb {
        Verb::Will => "WILL",
        Verb::Wont => "WONT",
        Verb::Do => "DO",
        Verb::Dont => "DONT",
    }
}
