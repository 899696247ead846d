//! The names of an identity, which are checked once, when they are made.
ghost use Rattle.std.specs.Prelude.{◌≡◌, SomeIff, IsTrue};
ghost use Rattle.std.specs.List.{list_all};
ghost use Rattle.ws_identity.specs.Names.{capitals, is_capital, is_name_digit, is_capital_or_digit, begins_name, goes_on_name, begins_as_name, is_device_name, is_keyboard_type};

use arrayvec::ArrayVec;
use std::marker::Model;
use ws_code::ByteList;

/// The name of a display station's device: 1 to 10 of A to Z, 0 to 9, `$`, `#`, `@`, `_` and `.`, first a letter, `$`,
/// `#` or `@` (RFC 4777).
///
/// A contract sees it as its bytes.
#[derive(Debug, Drop)]
pub struct DeviceName {
    bytes: ByteList<10>,
}

impl Model for DeviceName {
    ghost use Rattle.std.specs.Prelude.{◌≡◌, true, ℕ, List};
    ghost use Rattle.ws_identity.specs.Names.{is_device_name};

    ghost Value = { List ℕ };

    ghost view = { λ name. name.bytes };

    ghost invariant = { λ name. is_device_name name.bytes ≡ true };
}

impl DeviceName {
    /// The name of these bytes, with small letters as capitals. `None` where they are no name.
    pub fn new(name: &[u8]) -> Option<Self>
        ensures { SomeIff result (IsTrue (is_device_name (capitals name.now))) (capitals name.now) }
    {
        let mut bytes = ArrayVec::try_from(name).ok()?;
        bytes.as_mut_slice().make_ascii_uppercase();
        if is_device_name(bytes.as_slice()) {
            Some(DeviceName {
                bytes: ByteList::of(bytes),
            })
        } else {
            None
        }
    }

    /// Its bytes, 1 to 10.
    pub fn as_slice(&self) -> &[u8]
        ensures value { result.now ≡ self.now }
        ensures legal { IsTrue (is_device_name result.now) }
    {
        self.bytes.as_slice()
    }
}

/// A keyboard's type: three letters and digits, as `USB` (RFC 4777).
///
/// A contract sees it as its bytes.
#[derive(Debug, Drop)]
pub struct Keyboard {
    bytes: ByteList<3>,
}

impl Model for Keyboard {
    ghost use Rattle.std.specs.Prelude.{◌≡◌, true, ℕ, List};
    ghost use Rattle.ws_identity.specs.Names.{is_keyboard_type};

    ghost Value = { List ℕ };

    ghost view = { λ keyboard. keyboard.bytes };

    ghost invariant = { λ keyboard. is_keyboard_type keyboard.bytes ≡ true };
}

impl Keyboard {
    /// The type of these bytes, with small letters as capitals. `None` where they aren't three letters and digits.
    pub fn new(name: &[u8]) -> Option<Self>
        ensures { SomeIff result (IsTrue (is_keyboard_type (capitals name.now)))
            (capitals name.now) }
    {
        let mut letters = ArrayVec::try_from(name).ok()?;
        letters.as_mut_slice().make_ascii_uppercase();
        if is_keyboard_type(letters.as_slice()) {
            Some(Keyboard {
                bytes: ByteList::of(letters),
            })
        } else {
            None
        }
    }

    /// Its three bytes.
    pub fn as_slice(&self) -> &[u8]
        ensures value { result.now ≡ self.now }
        ensures legal { IsTrue (is_keyboard_type result.now) }
    {
        self.bytes.as_slice()
    }
}

fn is_device_name(bytes: &[u8]) -> bool
    ensures { result ≡ is_device_name bytes.now }
{
    bytes.len() <= 10 && begins_as_name(bytes) && goes_on_as_name(bytes)
}

fn begins_as_name(bytes: &[u8]) -> bool
    ensures { result ≡ begins_as_name bytes.now }
{
    match bytes {
        [first, ..] => begins_name(*first),
        [] => false,
    }
}

fn goes_on_as_name(bytes: &[u8]) -> bool
    ensures { result ≡ list_all goes_on_name bytes.now }
{
    bytes.iter().all(|byte| goes_on_name(*byte))
}

fn begins_name(byte: u8) -> bool
    ensures { result ≡ begins_name byte }
{
    is_capital(byte) || byte == b'$' || byte == b'#' || byte == b'@'
}

fn goes_on_name(byte: u8) -> bool
    ensures { result ≡ goes_on_name byte }
{
    begins_name(byte) || is_digit(byte) || byte == b'_' || byte == b'.'
}

fn is_keyboard_type(bytes: &[u8]) -> bool
    ensures { result ≡ is_keyboard_type bytes.now }
{
    bytes.len() == 3 && are_capitals_and_digits(bytes)
}

fn are_capitals_and_digits(bytes: &[u8]) -> bool
    ensures { result ≡ list_all is_capital_or_digit bytes.now }
{
    bytes.iter().all(|byte| is_capital_or_digit(*byte))
}

fn is_capital_or_digit(byte: u8) -> bool
    ensures { result ≡ is_capital_or_digit byte }
{
    is_capital(byte) || is_digit(byte)
}

fn is_capital(byte: u8) -> bool
    ensures { result ≡ is_capital byte }
{
    byte >= b'A' && byte <= b'Z'
}

fn is_digit(byte: u8) -> bool
    ensures { result ≡ is_name_digit byte }
{
    byte >= b'0' && byte <= b'9'
}
