//! An end at which keys are pressed.
ghost use Rattle.ws_end.specs.attached.Requests.{HasDoneKey, Judged, WritesRequest, key_judged};
ghost use Rattle.ws_end.specs.declared.station.key_fault.KeyFault.{KeyFault as AKeyFault};
ghost use Rattle.ws_end.specs.station.Displays.{on_display as on};

use crate::end::End;
use crate::{Acted, Driver, KeyFault, StationDisplay, StationOn, write_answer};
use ws_code::{Code, Fault, Sink};
use ws_keys::Answer;

/// An end at which keys are pressed.
pub trait Keyed: End {
    /// A key.
    type Key: Drop;

    // What it makes of a key: for which reasons it refuses it, and when it has none to.
    ghost keyed: { Self.Key → Judged Self Self.Request Self.Event AKeyFault };

    /// Takes a key, and gives what it sends.
    ///
    /// # Errors
    ///
    /// Why it refuses the key; the end is then as it was.
    fn key(&mut self, key: Self::Key) -> Result<Option<Answer>, KeyFault>
        ensures { HasDoneKey (keyed key) self.old self.new result };

    /// Takes a key, and writes what it sends.
    ///
    /// # Errors
    ///
    /// `Write` alone: a write failed, or took no byte. The key has had its effect, and a prefix of what it sends went
    /// out.
    final fn press<K: Sink>(
        &mut self,
        sink: &mut K,
        key: Self::Key,
    ) -> Result<Acted<KeyFault>, Fault>
        ensures { WritesRequest K.writer (keyed key) self.old self.new sink.old sink.new result }
    {
        match self.key(key) {
            Ok(None) => Ok(Acted::Done),
            Ok(Some(answer)) => {
                write_answer(sink, &answer)?;
                Ok(Acted::Done)
            }
            Err(fault) => Ok(Acted::Refused(fault)),
        }
    }
}

impl<D: StationDisplay> Keyed for StationOn<D> {
    type Key = D::Key;

    ghost keyed = { key_judged (on D.Commands.rules D.does) };

    fn key(&mut self, key: D::Key) -> Result<Option<Answer>, KeyFault> {
        Driver::key(self, key)
    }
}
