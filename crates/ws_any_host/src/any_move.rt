//! The lines of a script, carried out at a host that takes any record.
ghost use Rattle.std.specs.Prelude.{◌≡◌};
ghost use Rattle.ws_live.specs.live.Watches.{watched_devices};
ghost use Rattle.ws_any_host.specs.AnyText as Spec;
ghost use Rattle.ws_code.specs.Device.{on_devices};

use crate::any_text::put_any_event;
use crate::{AnyEvent, AnyHost, AnyLine};
use ws_code::{Aid, Sink, Source};
use ws_live::{
    Carried, Closing, HeardEnd, LiveMove, LiveSession, Telling, WaitSpan, Watch, carry_wire,
    hear_one, hear_until, put_bad, put_given,
};
use ws_record::Opcode;
use ws_text::Output;

impl<S: Source, K: Sink> LiveMove<AnyHost, S, K> for AnyLine {
    ghost runs = { λ tells telling.
        Spec.AnyRuns (watched_devices (on_devices K.writer S.reader) tells) telling };

    ghost waits = { Spec.any_waits };

    fn carry_out<W: Watch<S>, O: Sink>(
        &self,
        session: &mut LiveSession<AnyHost, S, K, W>,
        telling: Telling,
        out: &mut O,
        output: Output,
    ) -> Carried {
        match self {
            AnyLine::Nothing => Carried::new(output, Ok(Closing::Nothing)),
            AnyLine::Send(record) => {
                let given = session.attached.act(record);
                put_given(out, output, telling.line, given)
            }
            AnyLine::Await => {
                session
                    .watch
                    .begin(session.attached.source(), WaitSpan::Whole);
                hear_one(&mut session.attached, &session.watch, out, output).0
            }
            AnyLine::AwaitKey(aid) => {
                let source = session.attached.source();
                session.watch.begin(source, WaitSpan::Whole);
                hear_until(&mut session.attached, &session.watch, aid, out, output)
            }
            AnyLine::Wire(line) => {
                let outcome = carry_wire(&mut session.attached, &mut session.watch, line);
                Carried::new(output, outcome)
            }
            AnyLine::Bad(cause) => put_bad(out, output, cause.as_str()),
        }
    }
}

impl HeardEnd for AnyHost {
    type Awaited = Aid;

    ghost prints = { Spec.any_event_text };

    ghost meets = { Spec.is_by };

    fn put_told<O: Sink>(out: &mut O, output: Output, told: &AnyEvent) -> Output {
        put_any_event(out, output, told)
    }

    // A record by the key: an answer's opcode, and a body that begins as one.
    fn is_awaited(aid: &Aid, told: &AnyEvent) -> bool {
        match told {
            AnyEvent::Ready(_) => false,
            AnyEvent::Record(record) => record.opcode == Opcode::PutGet
                && is_answer_by(*aid, record.body.as_slice()),
        }
    }
}

// Whether a body begins as an answer by the key.
fn is_answer_by(aid: Aid, body: &[u8]) -> bool
    ensures { result ≡ Spec.is_answer_by aid body.now }
{
    match body {
        [_, _, third, ..] => *third == aid.byte(),
        _ => false,
    }
}
