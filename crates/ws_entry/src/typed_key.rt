//! The keys of a station that acts on format words.
use ws_code::CodePage;
use ws_extended_station::ExtendedKey;

/// A key, and the code page of whoever presses it.
#[derive(Clone, Copy, Debug, PartialEq, Eq)]
pub struct TypedKey {
    pub key: ExtendedKey,
    /// By which a character becomes a byte.
    pub page: CodePage,
}

impl From<ExtendedKey> for TypedKey {
    // At code page 037.
    fn from(key: ExtendedKey) -> Self {
        TypedKey {
            key,
            page: CodePage::default(),
        }
    }
}
