//! What a command line asks of a live session.
use crate::live::LineSettings;
use ws_identity::Identity;
use ws_nego::TerminalType;
use ws_script::HostPort;

/// A live session that a command line asks for.
#[derive(Debug, Drop)]
pub enum SessionAsked<'a> {
    Connect(ConnectAsked<'a>),
    Serve(ServeAsked<'a>),
}

/// A station at a host.
#[derive(Debug, Drop)]
pub struct ConnectAsked<'a> {
    pub host: HostPort<'a>,
    pub terminal: TerminalType,
    /// In seconds, 1 to 86,400.
    pub wait: u32,
    pub settings: LineSettings,
    /// Whether its display also takes what live hosts send beside the profile.
    pub extended: bool,
    /// Who it tells the host that it is, where its display takes what live hosts send; without it, it tells nothing.
    pub identity: Option<Identity>,
    /// The file of a recording; without it, none is made.
    pub record: Option<&'a str>,
    /// The file of a script; without it, standard input is read.
    pub script: Option<&'a str>,
}

/// A host for one station, or for some one after another.
#[derive(Clone, Copy, Debug, PartialEq, Eq)]
pub struct ServeAsked<'a> {
    pub address: HostPort<'a>,
    /// In seconds, 1 to 86,400.
    pub wait: u32,
    /// A host's screen is printed plainly, whatever the paint.
    pub settings: LineSettings,
    /// Whether it takes any terminal name and any record, and judges none.
    pub any: bool,
    /// How many stations it serves one after another, 1 to 1,000,000; without it one. Then a script is named.
    pub sessions: Option<u32>,
    /// The file of a recording; without it, none is made.
    pub record: Option<&'a str>,
    /// The file of a script; without it, standard input is read.
    pub script: Option<&'a str>,
}
