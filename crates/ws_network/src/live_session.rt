//! Live sessions over a connection: the sockets and the script. What the lines do at an end, and what they print, is
//! said where they are carried out.
ghost use Rattle.std.specs.Prelude.{◌≡◌, [], None, Some, IfOk, IsErr};
ghost use Rattle.std.specs.Option.{is_none, option_map};
ghost use Rattle.ws_identity.specs.Environ.{new_environ};
ghost use Rattle.ws_end.specs.station.StationTransitions.{new_state_on};
ghost use Rattle.ws_entry.specs.Following.{on_entry};
ghost use Rattle.ws_lasting.specs.Footings.{StandsAt};
ghost use Rattle.ws_lasting.specs.Lasting.{new_footing};
ghost use Rattle.ws_script.specs.asked.OpenStreams.{missing};
ghost use Rattle.ws_live.specs.live.Operating.{live_station};
ghost use Rattle.ws_printing.specs.Printouts.{printout};
ghost use Rattle.ws_script.specs.declared.asked.fault.RunFault.{RunFault as AFault};
ghost use Rattle.ws_network.specs.LiveSessions.{HasServedAs, HasRunLive, script_of};
ghost use Rattle.ws_network.specs.Sessions.{HasConnected, HasConnectedOn};

use crate::connecting::connect_to;
use crate::files::{lines_of, read_script_file};
use crate::live_input::{carry_session, tell_connected};
use crate::live_runtime::LiveRuntime;
use crate::recording::{PieceSender, RecordFile, Recording};
use crate::serving::serve_lines;
use crate::timed_sink::TimedSink;
use crate::timed_source::{TimedSource, close};
use crate::timer::{TimedWatch, Timer};
use std::fs::File;
use std::io::IsTerminal;
use std::net::{Net, TcpListener, TcpStream};
use std::rt::{Files, Runtime};
use std::time::Duration;
use ws_any_host::AnyLine;
use ws_code::Sink;
use ws_entry::EntryDisplay;
use ws_identity::Identity;
use ws_lasting::LastingStation;
use ws_live::{ConnectAsked, LiveSession, LiveStation, ServeAsked, SessionAsked};
use ws_nego::TerminalType;
use ws_printing::BufferedSink;
use ws_script::{HostLine, NamedKey, OpenStreams, StationLine, ToldFault, Vocabulary};
use ws_session::{Attached, ProfileDisplay, StationOn};

/// Carries a live session out: true where all went well.
///
/// # Errors
///
/// In this order: `Read` where a script is named that can't be read, and `Line` and `Memory` as `read_lines` has them;
/// `Read` where standard input is to be read and is closed, and `Write` where standard output is; `Recording` where the
/// folder of a recording isn't there; `NoConnection`. Then those met in running, `Recording` too where the file of a
/// recording, which is made at the first byte, can't be made or written.
pub fn run_live<R, O>(
    rt: &R,
    asked: SessionAsked<'_>,
    streams: OpenStreams,
    out: &mut BufferedSink<O>,
) -> Result<bool, ToldFault>
where
    R: Runtime + AllocGlobal + Files<File = File> + Net<Listener = TcpListener, Stream = TcpStream>,
    R::Reader: IsTerminal,
    O: Sink,
    requires empty { out.old.held ≡ [] }
    ensures ran { IfOk result
        (HasRunLive (printout O.writer out.old.sink out.new.sink) asked.entry) }
    // Where a stream that it needs is closed it isn't begun, and nothing is printed.
    ensures closed { (why : AFault) → missing streams (is_none (script_of asked.entry)) ≡ Some why
        → IsErr result × (out.new.sink ≡ out.old.sink) }
{
    match asked {
        SessionAsked::Connect(asked) => connect(rt, asked, streams, out),
        SessionAsked::Serve(asked) => serve(rt, &asked, streams, out),
    }
}

// A station at a host.
fn connect<R: LiveRuntime, O: Sink>(
    rt: &R,
    asked: ConnectAsked<'_>,
    streams: OpenStreams,
    out: &mut BufferedSink<O>,
) -> Result<bool, ToldFault>
    requires empty { out.old.held ≡ [] }
    ensures ran { IfOk result
        (HasConnected (printout O.writer out.old.sink out.new.sink) asked.entry) }
    ensures closed { (why : AFault) → missing streams (is_none asked.entry.script) ≡ Some why
        → IsErr result × (out.new.sink ≡ out.old.sink) }
{
    let mut asked = asked;
    let identity = asked.identity.take();
    if asked.extended {
        let station = entry_station(asked.terminal, identity);
        connect_on(rt, &asked, station, streams, out)
    } else {
        let station = StationOn::<ProfileDisplay>::new(asked.terminal);
        connect_on(rt, &asked, station, streams, out)
    }
}

// A new station of this terminal, as live hosts use it, with an identity or without.
fn entry_station(terminal: TerminalType, identity: Option<Identity>) -> LastingStation<EntryDisplay>
    ensures stands { StandsAt on_entry result
        (new_footing (new_state_on on_entry.does terminal) (option_map new_environ identity)) }
    ensures counts { result.counts ≡ record { carried_out = 0; refused = 0; last = None } }
    ensures taken { result.taken ≡ 0 }
{
    match identity {
        Some(identity) => LastingStation::with_identity(terminal, identity),
        None => LastingStation::new(terminal),
    }
}

// The same by this station.
fn connect_on<E, R, O>(
    rt: &R,
    asked: &ConnectAsked<'_>,
    station: E,
    streams: OpenStreams,
    out: &mut BufferedSink<O>,
) -> Result<bool, ToldFault>
where
    E: LiveStation,
    E::Named: NamedKey,
    R: LiveRuntime,
    O: Sink,
    requires empty { out.old.held ≡ [] }
    ensures ran { IfOk result (HasConnectedOn (printout O.writer out.old.sink out.new.sink)
        (live_station E.behaviour E.keyed E.typing E.seen E.Display.does.shown
        E.Display.operated E.Named.words)
        station asked.now) }
    ensures closed { (why : AFault) → missing streams (is_none asked.now.script) ≡ Some why
        → IsErr result × (out.new.sink ≡ out.old.sink) }
{
    let vocabulary = if asked.extended {
        Vocabulary::ExtendedStation
    } else {
        Vocabulary::Station
    };
    let script = read_script_file::<R, StationLine<E::Named>>(rt, asked.script, vocabulary)?;
    streams.suffice(script.is_none())?;
    let file = RecordFile::new(rt, asked.record)?;
    let limit = Duration::from_secs(u64::from(asked.wait));
    let timer = Timer::new(rt, limit);
    let stream = connect_to(rt, rt.alloc(), asked.host, &timer)?;
    tell_connected(rt, asked);
    let recording = Recording::new(rt, &file);
    let attached = Attached::new(
        station,
        TimedSource::new(&stream, &timer, &recording, PieceSender::Host),
        TimedSink::new(&stream, &timer, &recording, PieceSender::Station),
    );
    let mut session = LiveSession::new(attached, TimedWatch::new(&timer));
    let lines = lines_of(&script);
    let outcome = carry_session(rt, &mut session, lines, vocabulary, asked.settings, out);
    close(rt, &stream, &recording, PieceSender::Host);
    Ok(recording.judge(outcome)?.all_well)
}

// A host for a station, or for some one after another.
fn serve<R: LiveRuntime, O: Sink>(
    rt: &R,
    asked: &ServeAsked<'_>,
    streams: OpenStreams,
    out: &mut BufferedSink<O>,
) -> Result<bool, ToldFault>
    requires empty { out.old.held ≡ [] }
    ensures ran { IfOk result (HasServedAs (printout O.writer out.old.sink out.new.sink)
        asked.now.any asked.now) }
    ensures closed { (why : AFault) → missing streams (is_none asked.now.script) ≡ Some why
        → IsErr result × (out.new.sink ≡ out.old.sink) }
{
    if asked.any {
        serve_lines::<R, AnyLine, O>(rt, asked, streams, out)
    } else {
        serve_lines::<R, HostLine, O>(rt, asked, streams, out)
    }
}
