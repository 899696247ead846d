//! Keys repeated, of which strokes are made.

ghost use Rattle.std.specs.Prelude.{◌≡◌};
ghost use Rattle.ws_keys.specs.Strokes.{run_of};

use crate::Key;
use arrayvec::ArrayVec;

/// A key that is pressed some times, one after another.
#[derive(Clone, Copy, Debug, PartialEq, Eq)]
pub struct KeyRun {
    /// The key.
    pub key: Key,
    /// How often it is pressed; 0 for not at all.
    pub times: u16,
}

impl KeyRun {
    /// A key so many times.
    pub fn new(key: Key, times: u16) -> Self
        ensures { result ≡ run_of key times }
    {
        KeyRun { key, times }
    }
}

impl Default for KeyRun {
    // No key at all.
    fn default() -> Self
        ensures { result ≡ run_of Key.Home 0 }
    {
        KeyRun::new(Key::Home, 0)
    }
}

/// The most runs that a stroke has.
pub const MAX_KEY_RUNS: usize = 6;

/// The keys of a stroke, in the order in which they are pressed. It takes no memory.
pub type KeyRuns = ArrayVec<KeyRun, MAX_KEY_RUNS>;
