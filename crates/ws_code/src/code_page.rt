//! The code pages of twenty countries and languages, by which cells are characters.
ghost use Rattle.std.specs.Prelude.{◌≡◌, ◌↔◌, ◌<◌, ◌⊎◌, ℕ, Some, IfSome};
ghost use Rattle.ws_code.specs.CodePage.{IsOneToOne, char_on, byte_on, page_number, page_keyboard, page_digits, page_character_set};
ghost use Rattle.ws_code.specs.declared.code_page.CodePage.{CodePage};

use crate::Country;

/// A code page: which characters the bytes of a screen are (IBM Character Data Representation Architecture, CCSIDs
/// 37, 273, 277, 278, 280, 284, 285, 297, 500, 871 and 1140 to 1149). The default is 037.
#[derive(Clone, Copy, Debug, PartialEq, Eq)]
pub struct CodePage {
    /// Whose characters it has.
    pub country: Country,
    /// Whether it has the euro sign where the country's other page has the currency sign.
    pub has_euro: bool,
}

impl CodePage {
    /// The page of a number: one of 37, 273, 277, 278, 280, 284, 285, 297, 500, 871 and 1140 to 1149.
    /// `None` for another.
    pub fn from_number(number: u16) -> Option<Self>
        ensures { (page : CodePage) → (result ≡ Some page) ↔ (page_number page ≡ number) }
    {
        let (country, has_euro) = match number {
            37 => (Country::UnitedStates, false),
            273 => (Country::Germany, false),
            277 => (Country::Denmark, false),
            278 => (Country::Finland, false),
            280 => (Country::Italy, false),
            284 => (Country::Spain, false),
            285 => (Country::UnitedKingdom, false),
            297 => (Country::France, false),
            500 => (Country::International, false),
            871 => (Country::Iceland, false),
            1140 => (Country::UnitedStates, true),
            1141 => (Country::Germany, true),
            1142 => (Country::Denmark, true),
            1143 => (Country::Finland, true),
            1144 => (Country::Italy, true),
            1145 => (Country::Spain, true),
            1146 => (Country::UnitedKingdom, true),
            1147 => (Country::France, true),
            1148 => (Country::International, true),
            1149 => (Country::Iceland, true),
            _ => return None,
        };
        Some(CodePage { country, has_euro })
    }

    /// Its number: 37 to 1149.
    pub fn number(self) -> u16
        ensures { result ≡ page_number self }
    {
        match (self.country, self.has_euro) {
            (Country::UnitedStates, false) => 37,
            (Country::UnitedStates, true) => 1140,
            (Country::Germany, false) => 273,
            (Country::Germany, true) => 1141,
            (Country::Denmark, false) => 277,
            (Country::Denmark, true) => 1142,
            (Country::Finland, false) => 278,
            (Country::Finland, true) => 1143,
            (Country::Italy, false) => 280,
            (Country::Italy, true) => 1144,
            (Country::Spain, false) => 284,
            (Country::Spain, true) => 1145,
            (Country::UnitedKingdom, false) => 285,
            (Country::UnitedKingdom, true) => 1146,
            (Country::France, false) => 297,
            (Country::France, true) => 1147,
            (Country::International, false) => 500,
            (Country::International, true) => 1148,
            (Country::Iceland, false) => 871,
            (Country::Iceland, true) => 1149,
        }
    }

    /// The character of a byte. `None` below 40 and at FF, in hexadecimal.
    #[tactic(auto, unfolding(crate::specs::CodePage::char_on))]
    pub fn to_char(self, byte: u8) -> Option<char>
        ensures value { result ≡ char_on self byte }
        ensures latin { IfSome result (λ c. (c < 256) ⊎ (c ≡ 0x20AC)) }
    {
        let character = self.country.to_char(byte)?;
        if self.has_euro && character == '¤' {
            Some('€')
        } else {
            Some(character)
        }
    }

    /// The byte of a character: the one whose character it is. `None` if there is no such byte.
    pub fn from_char(self, character: char) -> Option<u8>
        ensures inverse { (b : ℕ)
            → (result ≡ Some b) ↔ (char_on self b ≡ Some character) }
        ensures value { result ≡ byte_on self character }
    {
        if !self.has_euro {
            return self.country.from_char(character);
        }
        match character {
            '€' => self.country.from_char('¤'),
            '¤' => None,
            _ => self.country.from_char(character),
        }
    }

    /// What a display station says of its keyboard to a host (RFC 4777, KBDTYPE): three letters.
    pub fn keyboard_type(self) -> &'static str
        ensures { result.now ≡ page_keyboard self.country }
    {
        match self.country {
            Country::UnitedStates => "USB",
            Country::Germany => "AGB",
            Country::Denmark => "DMB",
            Country::Finland => "FNB",
            Country::Italy => "ITB",
            Country::Spain => "SPB",
            Country::UnitedKingdom => "UKB",
            Country::France => "FAB",
            Country::International => "BLI",
            Country::Iceland => "ICB",
        }
    }

    /// What a display station says of its code page to a host (RFC 4777, CODEPAGE): the number, in three digits at least.
    pub fn digits(self) -> &'static str
        ensures { result.now ≡ page_digits self }
    {
        match (self.country, self.has_euro) {
            (Country::UnitedStates, false) => "037",
            (Country::UnitedStates, true) => "1140",
            (Country::Germany, false) => "273",
            (Country::Germany, true) => "1141",
            (Country::Denmark, false) => "277",
            (Country::Denmark, true) => "1142",
            (Country::Finland, false) => "278",
            (Country::Finland, true) => "1143",
            (Country::Italy, false) => "280",
            (Country::Italy, true) => "1144",
            (Country::Spain, false) => "284",
            (Country::Spain, true) => "1145",
            (Country::UnitedKingdom, false) => "285",
            (Country::UnitedKingdom, true) => "1146",
            (Country::France, false) => "297",
            (Country::France, true) => "1147",
            (Country::International, false) => "500",
            (Country::International, true) => "1148",
            (Country::Iceland, false) => "871",
            (Country::Iceland, true) => "1149",
        }
    }

    /// What a display station says of its character set to a host (RFC 4777, CHARSET).
    pub fn character_set(self) -> &'static str
        ensures { result.now ≡ page_character_set self }
    {
        if self.has_euro { "695" } else { "697" }
    }
}

impl Default for CodePage {
    // 037.
    fn default() -> Self
        ensures { page_number result ≡ 37 }
    {
        CodePage {
            country: Country::UnitedStates,
            has_euro: false,
        }
    }
}

/// Each page is one to one: no two bytes have the same character, and `from_char` takes each back. It has the
/// characters of 037, with the euro sign for the currency sign where the page has that.
pub fn code_pages_are_one_to_one()
    ensures { (page : CodePage) → IsOneToOne page }
{}
