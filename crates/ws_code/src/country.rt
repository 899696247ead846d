//! The countries that code pages are made for, and what each one's page changes of 037.
ghost use Rattle.std.specs.Prelude.{◌≡◌, ◌↔◌, ◌==◌, ◌<◌, ℕ, Some, IfSome, find};
ghost use Rattle.std.specs.Option.{option_map};
ghost use Rattle.ws_code.specs.CodePage.{changes_of, national_char};

use crate::ebcdic;

/// A country that has a code page, and a second one with the euro sign. Others share some of them.
#[derive(Clone, Copy, Debug, PartialEq, Eq)]
pub enum Country {
    /// The United States, Canada, Brazil and others: 037 and 1140.
    UnitedStates,
    /// Germany and Austria: 273 and 1141.
    Germany,
    /// Denmark and Norway: 277 and 1142.
    Denmark,
    /// Finland and Sweden: 278 and 1143.
    Finland,
    /// Italy: 280 and 1144.
    Italy,
    /// Spain and Latin America: 284 and 1145.
    Spain,
    /// The United Kingdom and Ireland: 285 and 1146.
    UnitedKingdom,
    /// France: 297 and 1147.
    France,
    /// Belgium, Switzerland and international use: 500 and 1148.
    International,
    /// Iceland: 871 and 1149.
    Iceland,
}

#[rattlefmt::skip]
static GERMANY: [(u8, char); 21] = [
    (0x43, '{'), (0x4A, 'Ä'), (0x4F, '!'), (0x59, '~'), (0x5A, 'Ü'), (0x5F, '^'),
    (0x63, '['), (0x6A, 'ö'), (0x7C, '§'), (0xA1, 'ß'), (0xB0, '¢'), (0xB5, '@'),
    (0xBA, '¬'), (0xBB, '|'), (0xC0, 'ä'), (0xCC, '¦'), (0xD0, 'ü'), (0xDC, '}'),
    (0xE0, 'Ö'), (0xEC, '\\'), (0xFC, ']'),
];

#[rattlefmt::skip]
static DENMARK: [(u8, char); 22] = [
    (0x47, '}'), (0x4A, '#'), (0x4F, '!'), (0x5A, '¤'), (0x5B, 'Å'), (0x5F, '^'),
    (0x67, '$'), (0x6A, 'ø'), (0x70, '¦'), (0x7B, 'Æ'), (0x7C, 'Ø'), (0x80, '@'),
    (0x9C, '{'), (0x9E, '['), (0x9F, ']'), (0xA1, 'ü'), (0xB0, '¢'), (0xBA, '¬'),
    (0xBB, '|'), (0xC0, 'æ'), (0xD0, 'å'), (0xDC, '~'),
];

#[rattlefmt::skip]
static FINLAND: [(u8, char); 27] = [
    (0x43, '{'), (0x47, '}'), (0x4A, '§'), (0x4F, '!'), (0x51, '`'), (0x5A, '¤'),
    (0x5B, 'Å'), (0x5F, '^'), (0x63, '#'), (0x67, '$'), (0x6A, 'ö'), (0x71, '\\'),
    (0x79, 'é'), (0x7B, 'Ä'), (0x7C, 'Ö'), (0x9F, ']'), (0xA1, 'ü'), (0xB0, '¢'),
    (0xB5, '['), (0xBA, '¬'), (0xBB, '|'), (0xC0, 'ä'), (0xCC, '¦'), (0xD0, 'å'),
    (0xDC, '~'), (0xE0, 'É'), (0xEC, '@'),
];

#[rattlefmt::skip]
static ITALY: [(u8, char); 25] = [
    (0x44, '{'), (0x48, '\\'), (0x4A, '°'), (0x4F, '!'), (0x51, ']'), (0x54, '}'),
    (0x58, '~'), (0x5A, 'é'), (0x5F, '^'), (0x6A, 'ò'), (0x79, 'ù'), (0x7B, '£'),
    (0x7C, '§'), (0x90, '['), (0xA1, 'ì'), (0xB0, '¢'), (0xB1, '#'), (0xB5, '@'),
    (0xBA, '¬'), (0xBB, '|'), (0xC0, 'à'), (0xCD, '¦'), (0xD0, 'è'), (0xDD, '`'),
    (0xE0, 'ç'),
];

#[rattlefmt::skip]
static SPAIN: [(u8, char); 11] = [
    (0x49, '¦'), (0x4A, '['), (0x5A, ']'), (0x69, '#'), (0x6A, 'ñ'), (0x7B, 'Ñ'),
    (0xA1, '¨'), (0xB0, '¢'), (0xBA, '^'), (0xBB, '!'), (0xBD, '~'),
];

#[rattlefmt::skip]
static UNITED_KINGDOM: [(u8, char); 7] = [
    (0x4A, '$'), (0x5B, '£'), (0xA1, '¯'), (0xB0, '¢'), (0xB1, '['), (0xBA, '^'),
    (0xBC, '~'),
];

#[rattlefmt::skip]
static FRANCE: [(u8, char); 25] = [
    (0x44, '@'), (0x48, '\\'), (0x4A, '°'), (0x4F, '!'), (0x51, '{'), (0x54, '}'),
    (0x5A, '§'), (0x5F, '^'), (0x6A, 'ù'), (0x79, 'µ'), (0x7B, '£'), (0x7C, 'à'),
    (0x90, '['), (0xA0, '`'), (0xA1, '¨'), (0xB0, '¢'), (0xB1, '#'), (0xB5, ']'),
    (0xBA, '¬'), (0xBB, '|'), (0xBD, '~'), (0xC0, 'é'), (0xD0, 'è'), (0xDD, '¦'),
    (0xE0, 'ç'),
];

#[rattlefmt::skip]
static INTERNATIONAL: [(u8, char); 7] = [
    (0x4A, '['), (0x4F, '!'), (0x5A, ']'), (0x5F, '^'), (0xB0, '¢'), (0xBA, '¬'),
    (0xBB, '|'),
];

#[rattlefmt::skip]
static ICELAND: [(u8, char); 22] = [
    (0x4A, 'Þ'), (0x4F, '!'), (0x5A, 'Æ'), (0x5F, 'Ö'), (0x79, 'ð'), (0x7C, 'Ð'),
    (0x8C, '`'), (0x8E, '{'), (0x9C, '}'), (0x9E, ']'), (0xA1, 'ö'), (0xAC, '@'),
    (0xAE, '['), (0xB0, '¢'), (0xBA, '¬'), (0xBB, '|'), (0xBE, '\\'), (0xC0, 'þ'),
    (0xCC, '~'), (0xD0, 'æ'), (0xE0, '´'), (0xEC, '^'),
];

impl Country {
    // The bytes whose characters aren't 037's, and these characters.
    #[tactic(auto, unfolding(crate::specs::CodePage::changes_of))]
    fn changes(self) -> &'static [(u8, char)]
        ensures { result.now ≡ changes_of self }
    {
        match self {
            Country::UnitedStates => &[],
            Country::Germany => &GERMANY,
            Country::Denmark => &DENMARK,
            Country::Finland => &FINLAND,
            Country::Italy => &ITALY,
            Country::Spain => &SPAIN,
            Country::UnitedKingdom => &UNITED_KINGDOM,
            Country::France => &FRANCE,
            Country::International => &INTERNATIONAL,
            Country::Iceland => &ICELAND,
        }
    }

    // The character that the changes give a byte.
    fn changed_char(self, byte: u8) -> Option<char>
        ensures { result ≡ option_map (λ change. change.1)
            (find (λ change. change.0 == byte) (changes_of self)) }
    {
        self.changes()
            .iter()
            .find(|change| change.0 == byte)
            .map(|change| change.1)
    }

    // The byte to which the changes give a character.
    fn changed_byte(self, character: char) -> Option<u8>
        ensures { result ≡ option_map (λ change. change.0)
            (find (λ change. change.1 == character) (changes_of self)) }
    {
        self.changes()
            .iter()
            .find(|change| change.1 == character)
            .map(|change| change.0)
    }

    // The character of a byte on the page without the euro sign.
    pub(crate) fn to_char(self, byte: u8) -> Option<char>
        ensures value { result ≡ national_char self byte }
        ensures latin { IfSome result (λ c. c < 256) }
    {
        match self.changed_char(byte) {
            Some(character) => Some(character),
            None => ebcdic::to_char(byte),
        }
    }

    // A page has the characters of 037, each once: one that isn't among the changes stands where it stands there.
    // The byte of a character on the page without the euro sign.
    pub(crate) fn from_char(self, character: char) -> Option<u8>
        ensures { (b : ℕ) → (result ≡ Some b) ↔ (national_char self b ≡ Some character) }
    {
        match self.changed_byte(character) {
            Some(byte) => Some(byte),
            None => ebcdic::from_char(character),
        }
    }
}
