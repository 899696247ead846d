//! `serve`: hosts for stations, one after another at a listener.
ghost use Rattle.std.specs.Prelude.{◌≡◌, ◌++◌, [], ℕ, List, Some, IfOk, IsErr, OnOk};
ghost use Rattle.std.specs.Option.{is_none};
ghost use Rattle.std.specs.declared.net.socket_addr.SocketAddr.{SocketAddr as AnAddress};
ghost use Rattle.ws_code.specs.Device.{WentOut};
ghost use Rattle.ws_network.specs.Listening.{listening_line};
ghost use Rattle.ws_network.specs.SessionPrinting.{AreScripted};
ghost use Rattle.ws_network.specs.ManySessions.{AreMany, HasServedBy, session_line};
ghost use Rattle.ws_network.specs.Sessions.{IsServed};
ghost use Rattle.ws_live.specs.live.LiveText.{account};
ghost use Rattle.ws_printing.specs.Printouts.{printout};
ghost use Rattle.ws_script.specs.asked.OpenStreams.{missing};
ghost use Rattle.ws_script.specs.declared.asked.fault.RunFault.{RunFault as AFault};
ghost use Rattle.ws_script.specs.declared.lines.live_line.NumberedLine.{NumberedLine as ANumbered};

use crate::files::{lines_of, read_script_file};
use crate::listening::{listen, take_next, tell};
use crate::live_runtime::LiveRuntime;
use crate::recording::{PieceSender, RecordFile, Recording};
use crate::served_line::ServedLine;
use crate::timed_sink::TimedSink;
use crate::timed_source::{TimedSource, close};
use crate::timer::{TimedWatch, Timer};
use std::net::TcpStream;
use std::time::Duration;
use ws_code::{Sink, write_whole};
use ws_live::{LiveSession, ServeAsked};
use ws_printing::BufferedSink;
use ws_script::{NumberedLine, OpenStreams, ToldFault};
use ws_session::Attached;
use ws_text::{Number, texts};

/// Serves one station, or as many as are asked for one after another: true where all went well.
///
/// # Errors
///
/// In this order: as `read_script_file`; as `OpenStreams::suffice`; as `RecordFile::new`; as `listen`. Then for each station
/// `Write` where the line of its session can't be printed, as `take_next`, and as `serve`.
pub(crate) fn serve_lines<R: LiveRuntime, L: ServedLine, O: Sink>(
    rt: &R,
    asked: &ServeAsked<'_>,
    streams: OpenStreams,
    out: &mut BufferedSink<O>,
) -> Result<bool, ToldFault>
    requires empty { out.old.held ≡ [] }
    ensures ran { IfOk result (HasServedBy L.language L.served
        (printout O.writer out.old.sink out.new.sink) asked.now) }
    ensures closed { (why : AFault) → missing streams (is_none asked.now.script) ≡ Some why
        → IsErr result × (out.new.sink ≡ out.old.sink) }
{
    let script = read_script_file::<R, L>(rt, asked.script, L::VOCABULARY)?;
    streams.suffice(script.is_none())?;
    let file = RecordFile::new(rt, asked.record)?;
    let lines = lines_of(&script);
    let Some(sessions) = asked.sessions else {
        return serve_one::<R, L, O>(rt, asked, &file, lines, out);
    };
    match lines {
        Some(script) => serve_many::<R, L, O>(rt, asked, sessions, &file, script, out),
        None => serve_one::<R, L, O>(rt, asked, &file, lines, out),
    }
}

// Serves one station: the next that comes.
fn serve_one<R: LiveRuntime, L: ServedLine, O: Sink>(
    rt: &R,
    asked: &ServeAsked<'_>,
    file: &RecordFile<'_>,
    script: Option<&[NumberedLine<L>]>,
    out: &mut BufferedSink<O>,
) -> Result<bool, ToldFault>
    requires empty { out.old.held ≡ [] }
    ensures { IfOk result (λ all_well. (lines : List (ANumbered L)) × (address : AnAddress)
        × (text : List ℕ) × AreScripted L.language asked.now.settings.ready script.entry lines
        × IsServed L.served asked.now lines (account all_well text)
        × WentOut O.writer out.old.sink out.new.sink (listening_line address ++ text)) }
{
    // No other waits behind it: nobody listens any more.
    let stream = {
        let listener = listen(rt, asked.address, out)?;
        take_next(&listener)?
    };
    serve(rt, asked, &stream, file, script, out)
}

// Serves so many stations, at one listener.
fn serve_many<R: LiveRuntime, L: ServedLine, O: Sink>(
    rt: &R,
    asked: &ServeAsked<'_>,
    sessions: u32,
    file: &RecordFile<'_>,
    script: &[NumberedLine<L>],
    out: &mut BufferedSink<O>,
) -> Result<bool, ToldFault>
    requires empty { out.old.held ≡ [] }
    ensures { IfOk result (λ all_well. (address : AnAddress) × (text : List ℕ)
        × AreMany (IsServed L.served asked.now script.now) sessions (account all_well text)
        × WentOut O.writer out.old.sink out.new.sink (listening_line address ++ text)) }
{
    let listener = listen(rt, asked.address, out)?;
    let mut all_well = true;
    for number in 0..sessions {
        put_session(number, out)?;
        let stream = take_next(&listener)?;
        let is_well = serve(rt, asked, &stream, file, Some(script), out)?;
        all_well = all_well & is_well;
    }
    Ok(all_well)
}

// Serves a station at a connection: carries the lines out, or without a script those of standard input, and what comes
// behind them. `Write` where the host's opening can't be written, `Recording` where the recording's file can't; else as
// `carry_at_host`.
fn serve<R: LiveRuntime, L: ServedLine, O: Sink>(
    rt: &R,
    asked: &ServeAsked<'_>,
    stream: &TcpStream,
    file: &RecordFile<'_>,
    script: Option<&[NumberedLine<L>]>,
    out: &mut BufferedSink<O>,
) -> Result<bool, ToldFault>
    requires empty { out.old.held ≡ [] }
    ensures held { out.new.held ≡ [] }
    ensures served { IfOk result (λ all_well. (lines : List (ANumbered L)) × (text : List ℕ)
        × AreScripted L.language asked.now.settings.ready script.entry lines
        × IsServed L.served asked.now lines (account all_well text)
        × WentOut O.writer out.old.sink out.new.sink text) }
{
    let recording = Recording::new(rt, file);
    let timer = Timer::new(rt, Duration::from_secs(u64::from(asked.wait)));
    let (host, opening) = L::open(rt.alloc());
    let mut sink = TimedSink::new(stream, &timer, &recording, PieceSender::Host);
    if let Err(fault) = write_whole(&mut sink, opening.as_slice()) {
        return recording.judge(Err(ToldFault::from(fault)));
    }
    let source = TimedSource::new(stream, &timer, &recording, PieceSender::Station);
    let attached = Attached::new(host, source, sink);
    let mut session = LiveSession::new(attached, TimedWatch::new(&timer));
    let outcome = L::carry_at_host(rt, &mut session, script, asked.settings, out);
    close(rt, stream, &recording, PieceSender::Station);
    recording.judge(outcome)
}

// Prints the line of a session that begins behind so many.
fn put_session<O: Sink>(before: u32, out: &mut BufferedSink<O>) -> Result<(), ToldFault>
    requires empty { out.old.held ≡ [] }
    ensures held { out.new.held ≡ [] }
    ensures told { OnOk result
        (WentOut O.writer out.old.sink out.new.sink (session_line before)) }
{
    if before == 0 {
        return Ok(());
    }
    let number = Number(u64::from(before) + 1);
    tell(&texts!("session ", number, "\n"), out)
}
