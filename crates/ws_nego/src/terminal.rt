//! The displays that a session can name as its terminal (RFC 1205; names: RFC 1091).

ghost use Rattle.std.specs.Prelude.{◌≡◌, ◌≤◌, ◌↔◌, length, IsTrue};
ghost use Rattle.ws_nego.specs.Terminal.{terminal_type_name, is_name_of, terminal_named};

/// A display of 24 rows and 80 columns (RFC 1205). Each has a name in the option TERMINAL-TYPE (RFC
/// 1091).
#[derive(Clone, Copy, Debug, PartialEq, Eq)]
pub enum TerminalType {
    /// IBM-5251-11, a monochrome display.
    Ibm5251Model11,
    /// IBM-5291-1, a monochrome display.
    Ibm5291Model1,
    /// IBM-5292-2, a colour display.
    Ibm5292Model2,
    /// IBM-3196-A1, a monochrome display.
    Ibm3196ModelA1,
    /// IBM-3179-2, a colour display.
    Ibm3179Model2,
}

impl Default for TerminalType {
    ghost use Rattle.std.specs.Prelude.{◌≡◌};
    ghost use Rattle.ws_nego.specs.declared.terminal.TerminalType.TheVariants.{Ibm3179Model2};

    ghost is_default = { λ terminal. terminal ≡ Ibm3179Model2 };

    fn default() -> Self {
        TerminalType::Ibm3179Model2
    }
}

impl TerminalType {
    // Every terminal type.
    const ALL: [TerminalType; 5] = [
        TerminalType::Ibm5251Model11,
        TerminalType::Ibm5291Model1,
        TerminalType::Ibm5292Model2,
        TerminalType::Ibm3196ModelA1,
        TerminalType::Ibm3179Model2,
    ];

    /// The terminal type of this name, with letters in either case (RFC 1091); none where no
    /// terminal type has the name.
    #[tactic(auto, unfolding(crate::specs::Terminal::terminal_named))]
    pub fn from_name(name: &[u8]) -> Option<TerminalType>
        ensures value { result ≡ terminal_named name.now }
        ensures exactly { (terminal : TerminalType)
            → (result ≡ Some terminal) ↔ IsTrue (is_name_of name.now terminal) }
    {
        Self::ALL
            .iter()
            .copied()
            .find(|terminal| terminal.is_named(name))
    }

    fn is_named(self, name: &[u8]) -> bool
        ensures { result ≡ is_name_of name.now self }
    {
        name.eq_ignore_ascii_case(self.name())
    }

    /// Its name, in upper case (RFC 1205). It has at most 11 bytes.
    pub fn name(self) -> &'static [u8]
        ensures value { result.now ≡ terminal_type_name self }
        ensures short { length result.now ≤ 11 }
    {
        match self {
            TerminalType::Ibm5251Model11 => b"IBM-5251-11",
            TerminalType::Ibm5291Model1 => b"IBM-5291-1",
            TerminalType::Ibm5292Model2 => b"IBM-5292-2",
            TerminalType::Ibm3196ModelA1 => b"IBM-3196-A1",
            TerminalType::Ibm3179Model2 => b"IBM-3179-2",
        }
    }
}
