//! Words that can't stand where they do.
use std::alloc::{AllocError, Global};

/// A word that can't stand where it does, by what it should have named; or why it can't.
#[derive(Clone, Copy)]
pub(crate) enum WrongWord<'a> {
    Host(&'a str),
    Address(&'a str),
    Port(&'a str),
    Device(&'a str),
    Keyboard(&'a str),
    CodePage(&'a str),
    Terminal(&'a str),
    Reason(&'a str),
    OneTooMany(&'a str),
    Because(&'a str),
}

impl WrongWord<'_> {
    /// Why it can't.
    ///
    /// # Errors
    ///
    /// `AllocError` where a growth was refused.
    pub(crate) fn told(self, alloc: Global) -> Result<String, AllocError> {
        match self {
            WrongWord::Host(word) => {
                format!(in alloc; "`{word}` names no host: HOST, HOST:PORT, [V6]:PORT")
            }
            WrongWord::Address(word) => {
                format!(in alloc; "`{word}` names no address to listen at: HOST:PORT, [V6]:PORT")
            }
            WrongWord::Port(word) => format!(in alloc; "`{word}` is no port"),
            WrongWord::Device(name) => {
                format!(in alloc;
                    "no device has the name `{name}`: 1 to 10 of A to Z, 0 to 9 and $ # @ _ ., first a letter or $ # @"
                )
            }
            WrongWord::Keyboard(name) => {
                format!(in alloc;
                    "no keyboard has the type `{name}`: three letters and digits, as USB"
                )
            }
            WrongWord::CodePage(word) => {
                format!(in alloc;
                    "no code page has the number `{word}`: 37, 273, 277, 278, 280, 284, 285, 297, 500, 871, 1140 to 1149"
                )
            }
            WrongWord::Terminal(name) => format!(in alloc; "no terminal has the name `{name}`"),
            WrongWord::Reason(word) => format!(in alloc; "no reason has the number `{word}`"),
            WrongWord::OneTooMany(word) => format!(in alloc; "`{word}` is one word too many"),
            WrongWord::Because(why) => String::from_str(alloc, why),
        }
    }
}
