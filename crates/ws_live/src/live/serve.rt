//! The lines of a script, carried out at a host.
ghost use Rattle.ws_live.specs.live.ServeText as Spec;
ghost use Rattle.ws_live.specs.live.Watches.{watched_devices};
ghost use Rattle.ws_printing.specs.ToldLines.{told_text};
ghost use Rattle.ws_code.specs.Device.{on_devices};

use crate::live::carried_wire::carry_wire;
use crate::live::host_closing::{HeardEnd, hear_one, hear_until, put_given};
use crate::live::watch::{WaitSpan, Watch};
use crate::live::{Carried, Closing, LiveMove, LiveSession, Telling, put_bad};
use ws_code::{Sink, Source};
use ws_printing::{Look, Paint, put_screen, put_told};
use ws_script::{AnswerAwaited, HostLine};
use ws_session::{HostEnd, HostEvent};
use ws_text::Output;

impl<S: Source, K: Sink> LiveMove<HostEnd, S, K> for HostLine {
    ghost runs = { λ tells telling.
        Spec.HostRuns (watched_devices (on_devices K.writer S.reader) tells) telling };

    ghost waits = { Spec.host_waits };

    fn carry_out<W: Watch<S>, O: Sink>(
        &self,
        session: &mut LiveSession<HostEnd, S, K, W>,
        telling: Telling,
        out: &mut O,
        output: Output,
    ) -> Carried {
        match self {
            HostLine::Nothing => Carried::new(output, Ok(Closing::Nothing)),
            HostLine::Give(order) => {
                let given = session.attached.act(order);
                put_given(out, output, telling.line, given)
            }
            HostLine::Await => {
                session
                    .watch
                    .begin(session.attached.source(), WaitSpan::Whole);
                hear_one(&mut session.attached, &session.watch, out, output).0
            }
            HostLine::AwaitAnswer(awaited) => {
                let source = session.attached.source();
                session.watch.begin(source, WaitSpan::Whole);
                hear_until(&mut session.attached, &session.watch, awaited, out, output)
            }
            HostLine::Show => {
                let look = Look::on_037(Paint::Plain);
                let output = put_screen(out, output, look, session.attached.end().screen());
                Carried::new(output, Ok(Closing::Done))
            }
            HostLine::Wire(line) => {
                let outcome = carry_wire(&mut session.attached, &mut session.watch, line);
                Carried::new(output, outcome)
            }
            HostLine::Bad(cause) => put_bad(out, output, cause.as_str()),
        }
    }
}

impl HeardEnd for HostEnd {
    type Awaited = AnswerAwaited;

    ghost prints = { told_text };

    ghost meets = { Spec.is_awaited };

    fn put_told<O: Sink>(out: &mut O, output: Output, told: &HostEvent) -> Output {
        put_told(out, output, told)
    }

    fn is_awaited(awaited: &AnswerAwaited, told: &HostEvent) -> bool {
        match told {
            HostEvent::Answer(answer) => match awaited {
                AnswerAwaited::Any => true,
                AnswerAwaited::By(aid) => answer.aid == *aid,
            },
            _ => false,
        }
    }
}
