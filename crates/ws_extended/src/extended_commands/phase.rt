//! What the machine of a live host's body waits for next.

/// What a machine waits for.
#[derive(Clone, Copy)]
pub(crate) enum Phase {
    Begin,
    /// The command.
    Escaped,
    /// What the profile's machine waits for.
    Inside,
    /// The next of the query's bytes, after so many of its structured field.
    InQuery(u8),
    /// The control byte of a Roll.
    Rolls,
    /// The first of its rows, after its control byte.
    RollsBy(u8),
    /// The last of its rows, after its control byte and the first.
    RollsFrom(u8, u8),
}
