//! The keys of an extended station.
use ws_keys::Key;

/// A key of a display that live hosts use.
#[derive(Clone, Copy, Debug, PartialEq, Eq)]
pub enum ExtendedKey {
    /// A key of the profile. Where an error stands, all but Attention and System Request are refused as `Locked`.
    Profile(Key),
    /// Reset: where an error stands, its row comes back and the keyboard is unlocked (SC30-3533, operator errors).
    /// Where none stands it does nothing (own choice). It sends nothing.
    Reset,
}
