//! Who sends the records of a stream.
/// Who sends the stream that is read, and what it may hold.
#[derive(Clone, Copy, Debug, PartialEq, Eq)]
pub enum Sender {
    /// A host, the commands of the profile.
    Host,
    /// A host, also the commands that live hosts send beside the profile.
    ExtendedHost,
    /// A station, its answers.
    Station,
    /// A live host's station: its answers, and what it tells at once.
    ExtendedStation,
}
