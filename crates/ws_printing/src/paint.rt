//! In what paint rows are printed.

/// How the rows of a screen are printed.
#[derive(Clone, Copy, Debug, Default, PartialEq, Eq)]
pub enum Paint {
    /// Their characters, and nothing else.
    #[default]
    Plain,
    /// Their characters, and between them what makes a terminal show their colours: sequences of ECMA-48.
    Color,
}
