//! Lines that are carried out at a host: of the profile's records, or of any.
ghost use Rattle.std.specs.Prelude.{◌≡◌, [], List, false};
ghost use Rattle.std.specs.Option.{is_some};
ghost use Rattle.ws_live.specs.live.Watches.{InTime};
ghost use Rattle.ws_network.specs.ServedHosts.{ServedHost, any_host, profile_host};
ghost use Rattle.ws_network.specs.SessionPrinting.{AreScripted, IsPrintedBehind, serve_printing, session_lines};
ghost use Rattle.ws_script.specs.declared.lines.live_line.NumberedLine.{NumberedLine as ANumbered};

use crate::live_input::{TimedSession, carry_session};
use crate::live_runtime::LiveRuntime;
use std::alloc::Global;
use std::os::fd::AsRawFd;
use ws_any_host::{AnyHost, AnyLine, carry_on};
use ws_code::{Sink, Source};
use ws_live::{LineSettings, LiveMove, LiveSession, Watch};
use ws_nego::Reply;
use ws_printing::BufferedSink;
use ws_script::{HostLine, LiveLine, NumberedLine, ToldFault, Vocabulary};
use ws_session::{End, HostEnd};

/// Lines for a host, new for each station.
pub(crate) trait HostedLine: LiveLine {
    /// The host.
    type Host: End;

    /// The kind of the lines.
    const VOCABULARY: Vocabulary;

    // What such a host is, and what the lines do at it.
    ghost served: { ServedHost Self Self.Host };

    /// A new host, and the opening that it gives.
    fn open(alloc: Global) -> (Self::Host, Reply)
        ensures opened { served.IsOpened result.0 }
        ensures told { result.1 ≡ served.opening };

    /// The line that awaits what is next told.
    fn await_next() -> Self
        ensures { result ≡ served.await_next };
}

/// The same, which are carried out there.
pub(crate) trait ServedLine: HostedLine {
    /// Carries out the lines of a script, or without one those of standard input, and then the next things that are
    /// told, unless a line ended the session: true where all went well.
    ///
    /// # Errors
    ///
    /// As `carry_session`; behind the lines as `carry_on`.
    fn carry_at_host<R: LiveRuntime, O: Sink>(
        rt: &R,
        session: &mut TimedSession<'_, Self::Host, R>,
        script: Option<&[NumberedLine<Self>]>,
        settings: LineSettings,
        out: &mut BufferedSink<O>,
    ) -> Result<bool, ToldFault>
        // At an end that works, with nothing held back.
        requires works { session.old.attached.broken ≡ false }
        requires empty { out.old.held ≡ [] }
        // What was printed, and how it ended.
        ensures printed { (lines : List (ANumbered Self))
            × AreScripted Self.language settings.ready script.entry lines
            × IsPrintedBehind O.writer out.old.sink out.new.sink (serve_printing
            (session_lines Self.served.runs settings session.old lines session.new)
            (is_some script.entry) Self.served.await_next) result }
        ensures held { out.new.held ≡ [] };
}

// At a host that takes the profile's records.
impl HostedLine for HostLine {
    type Host = HostEnd;

    const VOCABULARY: Vocabulary = Vocabulary::Host;

    ghost served = { profile_host };

    fn open(alloc: Global) -> (HostEnd, Reply) {
        let mut host = HostEnd::new(alloc);
        let opening = host.open();
        (host, opening)
    }

    fn await_next() -> Self {
        HostLine::Await
    }
}

impl ServedLine for HostLine {
    fn carry_at_host<R: LiveRuntime, O: Sink>(
        rt: &R,
        session: &mut TimedSession<'_, HostEnd, R>,
        script: Option<&[NumberedLine<HostLine>]>,
        settings: LineSettings,
        out: &mut BufferedSink<O>,
    ) -> Result<bool, ToldFault> {
        carry_and_go_on(rt, session, script, settings, out)
    }
}

// At a host that takes any record.
impl HostedLine for AnyLine {
    type Host = AnyHost;

    const VOCABULARY: Vocabulary = Vocabulary::AnyHost;

    ghost served = { any_host };

    fn open(alloc: Global) -> (AnyHost, Reply) {
        let mut host = AnyHost::new(alloc);
        let opening = host.open();
        (host, opening)
    }

    fn await_next() -> Self {
        AnyLine::Await
    }
}

impl ServedLine for AnyLine {
    fn carry_at_host<R: LiveRuntime, O: Sink>(
        rt: &R,
        session: &mut TimedSession<'_, AnyHost, R>,
        script: Option<&[NumberedLine<AnyLine>]>,
        settings: LineSettings,
        out: &mut BufferedSink<O>,
    ) -> Result<bool, ToldFault> {
        carry_and_go_on(rt, session, script, settings, out)
    }
}

// The same, of all such lines.
fn carry_and_go_on<R, S, K, L, W, O>(
    rt: &R,
    session: &mut LiveSession<L::Host, S, K, W>,
    script: Option<&[NumberedLine<L>]>,
    settings: LineSettings,
    out: &mut BufferedSink<O>,
) -> Result<bool, ToldFault>
where
    R: LiveRuntime,
    S: Source + AsRawFd,
    K: Sink,
    L: HostedLine + LiveMove<L::Host, S, K>,
    W: Watch<S>,
    O: Sink,
    requires works { session.old.attached.broken ≡ false }
    requires empty { out.old.held ≡ [] }
    ensures printed { (lines : List (ANumbered L))
        × AreScripted L.language settings.ready script.entry lines
        × IsPrintedBehind O.writer out.old.sink out.new.sink (serve_printing (session_lines
        (λ telling. InTime (L.runs W.tells telling) L.waits W.times) settings
        session.old lines session.new)
        (is_some script.entry) L.served.await_next) result }
    ensures held { out.new.held ≡ [] }
{
    let ran = carry_session(rt, session, script, L::VOCABULARY, settings, out)?;
    if ran.is_over {
        return Ok(ran.all_well);
    }
    let is_well = carry_on(session, &L::await_next(), out)?;
    Ok(ran.all_well & is_well)
}
