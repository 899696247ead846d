//! The bytes that a text spells in hex.
ghost use Rattle.std.specs.Prelude.{◌≡◌, List, ℕ, true, false, IfOk, IfErr, IsErr};
ghost use Rattle.hex.specs.Hex.{decode_of};
ghost use Rattle.ws_program.specs.HexText.{is_blank_byte, text_run_fault, without_blanks, IsHexOf, IsHexTextFault};

use std::alloc::{AllocError, Global};
use thiserror::Error;
use ws_script::RunFault;

/// Why a text gives no bytes.
#[derive(Clone, Copy, Debug, PartialEq, Eq, Error)]
pub enum TextFault {
    #[error("not hex")]
    NotHex,
    #[error("memory")]
    Memory,
}

impl From<TextFault> for RunFault {
    ghost from_gives = { λ fault told. told ≡ text_run_fault fault };

    fn from(fault: TextFault) -> Self {
        match fault {
            TextFault::NotHex => RunFault::NotHex,
            TextFault::Memory => RunFault::Memory,
        }
    }
}

/// A blank, a tab, CR or LF. Digits are told from them by the first comparison.
pub(crate) fn is_blank(byte: u8) -> bool
    ensures { result ≡ is_blank_byte byte }
{
    byte <= b' ' && matches!(byte, b' ' | b'\t' | b'\r' | b'\n')
}

// Whether the text is hex. It goes on behind a wrong byte, since a loop with no way out looks at many bytes at once.
pub(crate) fn is_hex(text: &[u8]) -> bool
    ensures yes { result ≡ true → (bytes : List ℕ) × IsHexOf bytes text.now }
    ensures no { result ≡ false → IsErr (decode_of (without_blanks text.now)) }
{
    let mut is_odd = false;
    let mut is_text = true;
    for byte in text {
        let is_digit = byte.is_ascii_hexdigit();
        is_odd ^= is_digit;
        is_text &= is_digit | is_blank(*byte);
    }
    is_text && !is_odd
}

// The text without its blanks, tabs, CR and LF.
fn digits_of(alloc: Global, text: &[u8]) -> Result<Vec<u8>, AllocError>
    ensures { IfOk result (λ digits. digits.items ≡ without_blanks text.now) }
{
    let mut digits = Vec::new(alloc);
    for part in text.split(|byte| is_blank(*byte)) {
        digits.extend_from_slice(part)?;
    }
    Ok(digits)
}

/// The bytes that a hex text gives without its blanks, tabs, CR and LF.
///
/// # Errors
///
/// `NotHex` where the rest isn't hex text, before memory is asked for. `Memory` where it is, and a growth was refused.
pub fn hex_bytes(alloc: Global, text: &[u8]) -> Result<Vec<u8>, TextFault>
    ensures ok { IfOk result (λ bytes. IsHexOf bytes.items text.now) }
    ensures fault { IfErr result (IsHexTextFault text.now) }
{
    if !is_hex(text) {
        return Err(TextFault::NotHex);
    }
    let digits = digits_of(alloc, text).map_err(|_| TextFault::Memory)?;
    hex::decode(alloc, digits.as_slice()).map_err(|_| TextFault::Memory)
}
