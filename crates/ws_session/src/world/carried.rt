//! A session whose bytes go over a connection.
ghost use Rattle.std.specs.Prelude.{◌≡◌, ◌⊎◌, List as Seq, IfOk, IfErr, OnOk, drop};
ghost use Rattle.ws_session.specs.world.Carried.{HasRunOver, brought_down, brought_up};
ghost use Rattle.ws_session.specs.world.Crossings.{Crossing, AreFaithful, HaveCrossed, IsStopped, all_sent};
ghost use Rattle.ws_code.specs.Device.{on_devices};

use super::{Move, Report, World};
use crate::Line;
use std::alloc::Global;
use ws_code::{Fault, Sink, Source};
use ws_nego::TerminalType;

impl World {
    /// Runs a session as `run` does, but what a move delivers goes over a line first, in pieces of at most 4,096 bytes,
    /// each of which is written and read before the next. Bytes in flight wait in memory until then. An end takes what
    /// was read, whatever was written, and may refuse it.
    ///
    /// # Errors
    ///
    /// `Write`, `Read` or `Truncated` as `carry` answers them, of the first piece that doesn't cross. `Memory` where a
    /// growth was refused.
    pub fn run_carried<S: Sink, R: Source, T: Sink, Q: Source>(
        alloc: Global,
        terminal: TerminalType,
        moves: &[Move],
        down: &mut Line<S, R>,
        up: &mut Line<T, Q>,
    ) -> Result<Report, Fault>
        // Where what came out of both lines is what went in, the report is that of `run`.
        ensures done { IfOk result (HasRunOver terminal moves.now
            (λ downs. HaveCrossed (on_devices S.writer R.reader) down.old downs down.new)
            (λ ups. HaveCrossed (on_devices T.writer Q.reader) up.old ups up.new)) }
        ensures fault { IfErr result (λ fault. (fault ≡ Fault.Memory)
            ⊎ (IsStopped (on_devices S.writer R.reader) down.old down.new fault
            ⊎ IsStopped (on_devices T.writer Q.reader) up.old up.new fault)) }
    {
        let mut world = World::new(alloc, terminal)?;
        for step in moves {
            world.cross(step, down, up)?;
            world.take(step)?;
        }
        world.report()
    }

    // What a move is to deliver goes over its line. What is read takes its place.
    fn cross<S: Sink, R: Source, T: Sink, Q: Source>(
        &mut self,
        step: &Move,
        down: &mut Line<S, R>,
        up: &mut Line<T, Q>,
    ) -> Result<(), Fault>
        ensures crossed { OnOk result ((downs ups : Seq Crossing)
            × HaveCrossed (on_devices S.writer R.reader) down.old downs down.new
            × HaveCrossed (on_devices T.writer Q.reader) up.old ups up.new
            × (all_sent downs ≡ brought_down (drop self.old.at_station self.old.down) step.now)
            × (all_sent ups ≡ brought_up (drop self.old.at_host self.old.up) step.now)
            × (AreFaithful downs → AreFaithful ups → self.new ≡ self.old)) }
        ensures fault { IfErr result (λ fault.
            IsStopped (on_devices S.writer R.reader) down.old down.new fault
            ⊎ IsStopped (on_devices T.writer Q.reader) up.old up.new fault) }
    {
        match step {
            Move::ToStation(count) => self.down.cross(down, *count),
            Move::ToHost(count) => self.up.cross(up, *count),
            Move::Send(..) => Ok(()),
            Move::Cancel => Ok(()),
            Move::Key(_) => Ok(()),
        }
    }
}
