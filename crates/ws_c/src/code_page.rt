//! Code pages: the character of a byte, and the byte of a character.
ghost use Rattle.std.specs.Prelude.{◌≡◌, Option};
ghost use Rattle.std.specs.Char.{IsScalar};
ghost use Rattle.ws_code.specs.declared.code_page.CodePage.{CodePage as APage};
ghost use Rattle.ws_c.specs.Calls.{status_number};
ghost use Rattle.ws_c.specs.CodePage.{IsByteTold, IsCharacterTold, IsPageOf, byte_on_some, char_on_some};

use crate::Status;
use ws_code::CodePage;

// The character of a byte, on a page if there is one.
fn character_on(page: Option<CodePage>, byte: u8) -> Option<char>
    ensures { result ≡ char_on_some page byte }
{
    page?.to_char(byte)
}

// The byte of a character, on a page if there is one.
fn byte_on(page: Option<CodePage>, character: char) -> Option<u8>
    ensures { result ≡ byte_on_some page character }
{
    page?.from_char(character)
}

/// Gives the character of a byte on the code page of a number, as a Unicode scalar value.
///
/// `BadArgument` where no page has the number, and where the byte has no character, below 40 and at FF; `character` is
/// then 0.
#[unsafe(no_mangle)]
pub extern "C" fn ws_c_from_page(page: u16, byte: u8, character: &mut u32) -> u32
    ensures { (named : Option APage) × IsPageOf page named
        × IsCharacterTold (char_on_some named byte) result character.new }
{
    match character_on(CodePage::from_number(page), byte) {
        Some(found) => {
            *character = found as u32;
            Status::Done.number()
        }
        None => {
            *character = 0;
            Status::BadArgument.number()
        }
    }
}

/// Gives the byte of a character, given as a Unicode scalar value, on the code page of a number.
///
/// `BadArgument` where no page has the number, and where the character has no byte; `byte` is then 0.
#[unsafe(no_mangle)]
pub extern "C" fn ws_c_to_page(page: u16, character: u32, byte: &mut u8) -> u32
    ensures scalar { IsScalar character → (named : Option APage) × IsPageOf page named
        × IsByteTold (byte_on_some named character) result byte.new }
    ensures other { ¬ IsScalar character
        → (result ≡ status_number Status.BadArgument) × (byte.new ≡ 0) }
{
    *byte = 0;
    let Some(given) = char::from_u32(character) else {
        return Status::BadArgument.number();
    };
    match byte_on(CodePage::from_number(page), given) {
        Some(found) => {
            *byte = found;
            Status::Done.number()
        }
        None => Status::BadArgument.number(),
    }
}
