//! The host's end of a session.
ghost use Rattle.std.specs.Prelude.{◌≡◌, ◌∷◌, [], Some, IsSome};
ghost use Rattle.ws_nego.specs.Host.{opening, accepted_terminal, host_allows_records};
ghost use Rattle.ws_record.specs.declared.record.Item.{Item as AnItem};
ghost use Rattle.ws_record.specs.Encode.{plain_spelling};
ghost use Rattle.ws_stream.specs.Elements.{element_rules};
ghost use Rattle.ws_screen.specs.declared.read_kind.ReadKind.{ReadKind as AReadKind};
ghost use Rattle.ws_screen.specs.Formats.{fields};
ghost use Rattle.ws_screen.specs.Given.{Gives};
ghost use Rattle.ws_keys.specs.Readings.{IsRead, read_answer};
ghost use Rattle.ws_end.specs.driver.Driven.{DriverPushes};
ghost use Rattle.ws_end.specs.host_end.HostReached.{AtHost, HostReached, unopened_host_end, state_after_open};
ghost use Rattle.ws_end.specs.host_end.HostReacting.{HostStands, host_driving};
ghost use Rattle.ws_end.specs.host_end.HostEndState.{HostEndState};
ghost use Rattle.ws_end.specs.host_end.HostEndState as side_spec;

pub(crate) mod host_event;
mod reactions;
pub(crate) mod send_fault;
mod sending;

use crate::{Driver, HostStep, Refusal};
use arrayvec::ArrayVec;
use std::alloc::Global;
use std::marker::Model;
use ws_keys::{HostAnswer, HostFault, split_answer};
use ws_nego::{HostOptions, Reply, TerminalType};
use ws_screen::{Field, MAX_FIELDS, ReadKind, Screen};
use ws_stream::AnswerPart;

/// What reacts at a host end.
#[derive(Drop)]
pub struct Host {
    alloc: Global,
    options: HostOptions,
    /// What the station's screen is by what was sent.
    kept: Screen,
    cancelling: bool,
}

impl Model for Host {
    ghost use Rattle.std.specs.Prelude.{◌≡◌, None};
    ghost use Rattle.ws_end.specs.host_end.HostReacting.{HostKept};

    ghost Value = { HostKept };

    ghost view = { λ h. record { options = h.options; screen = h.kept; cancelling = h.cancelling } };

    // Between records no write is open.
    ghost invariant = { λ h. h.kept.writing ≡ None };
}

/// The host's end of a session: it negotiates options, sends records, and takes the station's answers (RFC 1205, RFC
/// 4777).
pub type HostEnd = Driver<Host>;

impl Driver<Host> {
    /// A host end that has taken no byte and sent none.
    pub fn new(alloc: Global) -> Self
        ensures { HostReached result [] [] unopened_host_end }
    {
        let kept = Screen::new();
        let host = Host {
            alloc,
            options: HostOptions::new(),
            kept,
            cancelling: false,
        };
        Driver::of(host, Vec::new(alloc))
    }

    /// Gives the first token of a session, which asks the station for its terminal type. It is called once, first. At
    /// an end that takes no more bytes it changes nothing.
    pub fn open(&mut self) -> Reply
        ensures reply { result ≡ plain_spelling element_rules (AnItem.Telnet opening ∷ []) }
        ensures opened { AtHost self.old (λ bytes items state.
            HostReached self.new bytes items (state_after_open state)) }
        ensures shut { IsSome self.old.ended → self.new ≡ self.old }
    {
        if self.ended.is_some() {
            return HostOptions::new().open();
        }
        self.reacts.options.open()
    }

    /// Whether the negotiation has come so far that records may be sent both ways (RFC 1205, section 2).
    pub fn is_ready(&self) -> bool
        ensures { result ≡ host_allows_records self.now.reacts.options }
    {
        self.reacts.options.records_allowed()
    }

    /// The terminal that the station is, once it has told it.
    pub fn terminal(&self) -> Option<TerminalType>
        ensures { result ≡ accepted_terminal self.now.reacts.options.name }
    {
        self.reacts.options.terminal()
    }

    /// What the station's screen is by what was sent: its locked keyboard and its pending read are those behind it.
    pub fn screen(&self) -> &Screen
        ensures value { result.now ≡ self.now.reacts.screen }
        ensures kept { (state : HostEndState)
            → HostStands self.now.reacts state → Gives state.kept result.now }
    {
        &self.reacts.kept
    }

    /// The read that is asked, and neither answered nor cancelled.
    pub fn asked(&self) -> Option<ReadKind>
        ensures value { result ≡ self.now.reacts.screen.pending }
        ensures asked { (state : HostEndState) → HostStands self.now.reacts state
            → result ≡ side_spec.asked_read state }
    {
        self.reacts.kept.pending()
    }

    /// The fields of the kept screen, by start.
    pub fn fields(&self) -> ArrayVec<Field, MAX_FIELDS>
        ensures value { result.items ≡ self.now.reacts.screen.fields }
        ensures fields { (state : HostEndState) → HostStands self.now.reacts state
            → result.items ≡ fields state.kept }
    {
        self.reacts.kept.fields()
    }

    /// What the parts of an answer say by the asked read, as `push` reads them. It changes nothing.
    ///
    /// # Errors
    ///
    /// `AnswerMismatch` where they don't fit; `Memory` where they do, and a growth was refused.
    pub fn read_fields(&self, parts: &[AnswerPart]) -> Result<HostAnswer, HostFault>
        requires asked { IsSome self.now.reacts.screen.pending }
        ensures read { (kind : AReadKind) → self.now.reacts.screen.pending ≡ Some kind
            → IsRead (read_answer kind self.now.reacts.screen.fields parts.now) result }
    {
        let Some(kind) = self.reacts.kept.pending() else {
            return Err(HostFault::Memory);
        };
        split_answer(self.reacts.alloc, &self.reacts.kept, kind, parts)
    }

    /// Takes a byte, and gives what the host end writes and tells: at a command's last byte, at a record's IAC EOR, and
    /// nothing elsewhere.
    ///
    /// # Errors
    ///
    /// `At` the first byte after which the bytes begin no stream, or the last byte of an item that the host end
    /// refuses; `Memory` where a growth was refused, at a byte with which a part is complete, or an answer that fits
    /// the asked read. What is kept of the screen is then as it was, and `push`, `send` and `cancel` answer `Failed`
    /// from then on, as after 18,446,744,073,709,551,615 bytes.
    pub fn push(&mut self, byte: u8) -> Result<HostStep, Refusal>
        ensures { DriverPushes host_driving self.old byte self.new result }
    {
        self.take_byte(byte)
    }
}
