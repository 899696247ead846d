//! The keys of a display, by the names that a script has for them.
ghost use Rattle.std.specs.Prelude.{◌≡◌};
ghost use Rattle.ws_printing.specs.script.ExtendedKeyNames.{extended_words};
ghost use Rattle.ws_printing.specs.script.KeyWords.{KeyWords, profile_words};

use crate::script::key_name::key_named;
use ws_extended_station::ExtendedKey;
use ws_keys::Key;

/// A key of a display, as a script names it.
pub trait NamedKey: Copy {
    // The key of a name, a key of the profile as one of them, and the character that a key enters.
    ghost words: { KeyWords Self };

    /// The key that has this name in a script, where one has.
    fn named(name: &str) -> Option<Self>
        ensures { result ≡ words.named name.now };

    /// A key of the profile.
    fn from_profile(key: Key) -> Self
        ensures { result ≡ words.profile key };

    /// The character that it enters, where it enters one.
    fn entered(self) -> Option<char>
        ensures { result ≡ words.entered self };
}

impl NamedKey for Key {
    ghost words = { profile_words };

    fn named(name: &str) -> Option<Key> {
        key_named(name)
    }

    fn from_profile(key: Key) -> Key {
        key
    }

    fn entered(self) -> Option<char> {
        match self {
            Key::Char(character) | Key::Insert(character) => Some(character),
            _ => None,
        }
    }
}

// Reset has a name beside the keys of the profile.
impl NamedKey for ExtendedKey {
    ghost words = { extended_words };

    fn named(name: &str) -> Option<ExtendedKey> {
        if name == "Reset" {
            return Some(ExtendedKey::Reset);
        }
        key_named(name).map(ExtendedKey::Profile)
    }

    fn from_profile(key: Key) -> ExtendedKey {
        ExtendedKey::Profile(key)
    }

    fn entered(self) -> Option<char> {
        match self {
            ExtendedKey::Profile(key) => key.entered(),
            ExtendedKey::Reset => None,
        }
    }
}
