//! What goes to the other end beside what an end writes.
ghost use Rattle.std.specs.Prelude.{◌≡◌, Err, true, false, OnOk, IfErr};
ghost use Rattle.ws_end.specs.attached.Attachments.{HasWrittenBeside, HasFailedBeside};

use crate::Attached;
use ws_code::{Fault, Sink, write_whole};

impl<E, S, K: Sink> Attached<E, S, K> {
    /// Writes bytes as they are, beside what the end writes. The end isn't told of them.
    ///
    /// # Errors
    ///
    /// `Write` where a write failed, or took no byte: a proper prefix of the bytes went out. `Failed` after a call that
    /// answered `Write`, or in which the end refused a byte; nothing is then changed.
    pub fn write(&mut self, bytes: &[u8]) -> Result<(), Fault>
        // What is written past the end, or how far it came.
        ensures done { OnOk result
            (HasWrittenBeside K.writer self.old self.new bytes.now) }
        ensures fault { self.old.broken ≡ false
            → IfErr result (λ fault. (fault ≡ Fault.Write)
            × HasFailedBeside K.writer self.old self.new bytes.now) }
        // A broken end goes nowhere, and a fault breaks one.
        ensures broken { self.old.broken ≡ true
            → (result ≡ Err Fault.Failed) × (self.new ≡ self.old) }
        ensures works { OnOk result (self.new.broken ≡ false) }
        ensures breaks { IfErr result (λ fault. self.new.broken ≡ true) }
    {
        if self.broken {
            return Err(Fault::Failed);
        }
        if let Err(fault) = write_whole(&mut self.sink, bytes) {
            self.broken = true;
            return Err(fault);
        }
        Ok(())
    }
}
