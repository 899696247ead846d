//! Whether a key, a send or a cancel was done.
/// What comes of a key, a send or a cancel.
#[derive(Clone, Copy, Debug, PartialEq, Eq)]
pub enum Acted<Why> {
    /// It was done.
    Done,
    /// It was refused, for this reason, and had no effect.
    Refused(Why),
}
