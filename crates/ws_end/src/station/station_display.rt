//! A display that a station can stand on.
ghost use Rattle.std.specs.Prelude.{◌≡◌, ◌∷◌, [], List, ℕ, OnErr};
ghost use Rattle.ws_code.specs.Code.{IsChain, spelling_of};
ghost use Rattle.ws_record.specs.DataStep.{record_of};
ghost use Rattle.ws_record.specs.Encode.{plain_spelling};
ghost use Rattle.ws_stream.specs.AnswerParts.{answer_rules};
ghost use Rattle.ws_screen.specs.ScreenParts.{ScreenParts};
ghost use Rattle.ws_screen.specs.declared.read_kind.ReadKind.{ReadKind as AReadKind};
ghost use Rattle.ws_end.specs.station.Alarms.{alarm_count};
ghost use Rattle.ws_end.specs.station.StationEndState.{answer_record};
ghost use Rattle.ws_end.specs.station.Displays.{DisplayOf, EndStateOn, IsApplied, IsPressedOnDisplay};

use ws_code::{Body, Reason};
use ws_keys::{Answer, KeyRefusal};
use ws_nego::{Reply, TerminalType};
use ws_record::Head;
use ws_screen::Screen;

/// What a station shows, and what a record and a key do to it.
///
/// An implementer gives its meaning, `does`: what has happened to a new display, which displays that gives, what a
/// record and a key make of it, and what is written. Each method then does as this says, and leaves the display as it
/// was where it refuses. `spells` says that a read's answer has the profile's bytes. `ProfileDisplay` is the plainest.
pub trait StationDisplay: Drop {
    /// The bodies of a host's records.
    type Commands: Body;
    /// A key.
    type Key: Drop;
    /// What is written at a byte. It may be short where the display keeps the bytes.
    type Reply: Drop;

    // What has happened to it.
    ghost Happened: { Type 0 };

    // What it writes.
    ghost PlaceWritten: { Type 0 };

    ghost Written: { Type 0 };

    ghost does: { DisplayOf Self Self.Commands.Unit Happened PlaceWritten Written Self.Key Self.Reply };

    /// One to which nothing has happened.
    fn new(terminal: TerminalType) -> Self
        ensures given { does.gives (does.fresh terminal) result };

    /// What is written at a Telnet command.
    fn reply(bytes: Reply) -> Self::Reply
        ensures written { (display : Self) → does.written display result ≡ bytes };

    /// The bytes of what was just written.
    fn bytes<'a>(&'a self, reply: &'a Self::Reply) -> &'a [u8]
        ensures written { result.now ≡ does.written self.now reply.now };

    /// Carries out a record whose body these bytes spell, and gives what is written.
    ///
    /// # Errors
    ///
    /// The first reason for which an element is refused; the display is then as it was.
    fn apply(&mut self, head: Head, kept: &[u8]) -> Result<Self::Reply, Reason>
        ensures applied { (state : EndStateOn Happened) (units : List Self.Commands.Unit)
            → IsChain Self.Commands.rules Self.Commands.rules.first units
            → kept.now ≡ spelling_of Self.Commands.rules units
            → does.gives state.happened self.old
            → IsApplied does self.new state (record_of head units) result }
        ensures same { OnErr result (self.new ≡ self.old) };

    /// Whether a key sends a record.
    fn sends(key: &Self::Key) -> bool
        ensures { result ≡ does.sends key.now };

    /// Presses a key, and gives what it sends.
    ///
    /// # Errors
    ///
    /// As `ws_keys::press`; the display is then as it was.
    fn press(&mut self, key: Self::Key) -> Result<Option<Answer>, KeyRefusal>
        ensures pressed { (state : EndStateOn Happened) → does.gives state.happened self.old
            → IsPressedOnDisplay does self.old self.new state key result }
        ensures same { OnErr result (self.new ≡ self.old) };

    /// The screen.
    fn screen(&self) -> &Screen
        ensures screen { result.now ≡ does.shown self.now };

    /// How many alarms have sounded, up to 18,446,744,073,709,551,615.
    fn alarms(&self) -> u64
        ensures reported { result ≡ does.sounded self.now }
        ensures sounded { (h : Happened) → does.gives h self.now
            → result ≡ alarm_count (does.sounds h) };

    // The record that answers a read is spelled as the profile's.
    ghost spells: { (screen : ScreenParts) (kind : AReadKind) (aid : ℕ)
        → plain_spelling does.out (does.answer screen kind aid ∷ [])
        ≡ plain_spelling answer_rules (answer_record screen kind aid ∷ []) };
}
