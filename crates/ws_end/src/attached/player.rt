//! A run of a station, so far: the bytes that it has taken, and the keys that were pressed.
ghost use Rattle.std.specs.Prelude.{◌≡◌, ◌<◌, ◌≤◌, ◌+◌, ◌^◌, ◌++◌, ◌∷◌, [], length, take, drop, IfOk, IfErr, OnOk};
ghost use Rattle.ws_code.specs.Device.{FailedWithin};
ghost use Rattle.ws_record.specs.Encode.{plain_spelling};
ghost use Rattle.ws_record.specs.Grammar.{IsInGrammar};
ghost use Rattle.ws_record.specs.Refusal.{IsTruncated};
ghost use Rattle.ws_stream.specs.AnswerParts.{answer_rules};
ghost use Rattle.ws_stream.specs.Elements.{element_rules};
ghost use Rattle.ws_end.specs.Acts.{Does, doing};
ghost use Rattle.ws_end.specs.EndTransitions.{station_transitions};
ghost use Rattle.ws_end.specs.station.Moments.{due, later};
ghost use Rattle.ws_end.specs.station.StationCounts.{records_in};
ghost use Rattle.ws_end.specs.attached.Playing.{AtPlayer, HasDone, IsBrought};
ghost use Rattle.ws_end.specs.station.StationReached.{AtStation};
ghost use Rattle.ws_end.specs.attached.StationRun.{IsRunFault, outflow};

use crate::attached::keyed::Keyed;
use crate::attached::writing::fault_of;
use crate::end_step::EndFed;
use crate::{Acted, Played, Station, StationDisplay};
use ws_code::{Fault, Sink, write_whole};
use ws_keys::Key;

// A station in a run, how many keys were pressed, and how many of these it refused.
#[derive(Drop)]
pub(crate) struct Player {
    pub(crate) station: Station,
    pub(crate) pressed: usize,
    pub(crate) keys_refused: u32,
}

impl Player {
    // Presses a key, and writes what it sends.
    fn press<S: Sink>(&mut self, sink: &mut S, key: Key) -> Result<(), Fault>
        ensures done { OnOk result (AtStation self.old.station (λ bytes items state.
            length bytes + 1 < 2 ^ 64
            → HasDone S.writer bytes items self.old self.new sink.old sink.new
            state (Does key ∷ []))) }
        ensures place { self.new.pressed ≡ self.old.pressed }
        ensures fault { IfErr result (λ fault. (fault ≡ Fault.Write)
            × AtStation self.old.station (λ bytes items state. length bytes + 1 < 2 ^ 64
            → FailedWithin S.writer sink.old sink.new (plain_spelling answer_rules
            (doing station_transitions state (Does key ∷ [])).written))) }
    {
        match self.station.press(sink, key) {
            Ok(Acted::Done) => Ok(()),
            Ok(Acted::Refused(_)) => {
                self.keys_refused = self.keys_refused.saturating_add(1);
                Ok(())
            }
            Err(fault) => Err(fault),
        }
    }

    // Presses the keys that are due.
    pub(crate) fn press_due<S: Sink>(
        &mut self,
        sink: &mut S,
        keys: &[(u32, Key)],
    ) -> Result<(), Fault>
        ensures done { OnOk result (AtStation self.old.station (λ bytes items state.
            length bytes + 1 < 2 ^ 64
            → HasDone S.writer bytes items self.old self.new sink.old sink.new
            state (due (records_in items) (drop self.old.pressed keys.now))
            × (drop self.new.pressed keys.now
            ≡ later (records_in items) (drop self.old.pressed keys.now)))) }
        ensures fault { IfErr result (λ fault. (fault ≡ Fault.Write)
            × AtStation self.old.station (λ bytes items state. length bytes + 1 < 2 ^ 64
            → FailedWithin S.writer sink.old sink.new (plain_spelling answer_rules (doing
            station_transitions state (due (records_in items)
            (drop self.old.pressed keys.now))).written))) }
    {
        while self.pressed < keys.len() {
            let next = keys[self.pressed];
            if self.station.records() < u64::from(next.0) {
                return Ok(());
            }
            self.press(sink, next.1)?;
            self.pressed += 1;
        }
        Ok(())
    }

    // Takes a prefix of the piece, writes what it gives, and presses the keys that are due then.
    fn take<S: Sink>(
        &mut self,
        sink: &mut S,
        keys: &[(u32, Key)],
        piece: &[u8],
    ) -> Result<usize, Fault>
        requires { 0 < length piece.now }
        ensures within { IfOk result (λ used. (0 < used) × (used ≤ length piece.now)) }
        ensures come { IfOk result (λ used. AtPlayer S.writer keys.now self.old sink.old
            (length piece.now) (λ run start bytes.
            IsBrought run (outflow S.writer start sink.new) self.new
            (bytes ++ take used piece.now))) }
        ensures fault { IfErr result (λ fault.
            AtPlayer S.writer keys.now self.old sink.old (length piece.now)
            (λ run start bytes. IsRunFault run (outflow S.writer start sink.new)
            (length bytes) (bytes ++ piece.now) fault)) }
    {
        let EndFed { used, step } = self.station.take_prefix(piece);
        match step {
            Ok(step) => {
                write_whole(sink, self.station.display().bytes(&step.reply))?;
                self.press_due(sink, keys)?;
                Ok(used)
            }
            Err(refusal) => Err(fault_of(refusal)),
        }
    }

    // Takes the bytes of a piece.
    pub(crate) fn take_all<S: Sink>(
        &mut self,
        sink: &mut S,
        keys: &[(u32, Key)],
        piece: &[u8],
    ) -> Result<(), Fault>
        ensures come { OnOk result (AtPlayer S.writer keys.now self.old sink.old
            (length piece.now) (λ run start bytes.
            IsBrought run (outflow S.writer start sink.new) self.new
            (bytes ++ piece.now))) }
        ensures fault { IfErr result (λ fault.
            AtPlayer S.writer keys.now self.old sink.old (length piece.now)
            (λ run start bytes. IsRunFault run (outflow S.writer start sink.new)
            (length bytes) (bytes ++ piece.now) fault)) }
    {
        let mut used = 0;
        while used < piece.len() {
            used += self.take(sink, keys, &piece[used..])?;
        }
        Ok(())
    }

    // Asks whether the stream may end here.
    pub(crate) fn finish(mut self) -> Result<Played, Fault>
        ensures played { IfOk result (λ played. (played.station ≡ self.station)
            × (played.keys_refused ≡ self.keys_refused)
            × AtStation self.station (λ bytes items state. IsInGrammar element_rules bytes items)) }
        ensures truncated { IfErr result (λ fault. AtStation self.station (λ bytes items state.
            length bytes + 1 < 2 ^ 64 → (fault ≡ Fault.Truncated (length bytes))
            × IsTruncated element_rules bytes)) }
    {
        self.station.finish()?;
        Ok(Played {
            station: self.station,
            keys_refused: self.keys_refused,
        })
    }
}
