//! What holds of a stream, and its line.
ghost use Rattle.std.specs.Prelude.{◌≡◌, ◌<◌, ◌≢◌, List, ℕ, length, IfOk, IfErr};
ghost use Rattle.ws_code.specs.Device.{WentOut, FailedWithin};
ghost use Rattle.ws_printing.specs.CheckLine.{line_of, verdict_by};

use crate::place_and_reason::PlaceAndReason;
use ws_code::{Fault, Reason, Sink};
use ws_text::{Number, Output, Text, print, texts};

/// What holds of a stream.
#[derive(Clone, Copy)]
pub enum Verdict {
    /// It is so many records and Telnet commands.
    Accepted { records: u64, commands: u64 },
    /// The byte at the place is refused.
    Refused { place: u64, reason: Reason },
    /// It ends inside a token or a record, after so many bytes.
    Truncated { at: u64 },
}

impl Verdict {
    ghost use Rattle.ws_printing.specs.CheckLine.{is_accepted};

    /// Whether the stream is accepted.
    pub fn is_accepted(self) -> bool
        ensures { result ≡ is_accepted self }
    {
        matches!(self, Verdict::Accepted { .. })
    }

    /// Writes the line that says it, of a stream of so many bytes: true where they are accepted.
    ///
    /// It allocates no memory.
    ///
    /// # Errors
    ///
    /// `Write` where the sink failed; no other comes.
    pub fn write_to<S: Sink>(self, size: usize, sink: &mut S) -> Result<bool, Fault>
        ensures printed { IfOk result (λ accepted. (accepted ≡ is_accepted self)
            × WentOut S.writer sink.old sink.new (line_of self size)) }
        ensures fault { IfErr result (λ fault. (fault ≡ Fault.Write)
            × FailedWithin S.writer sink.old sink.new (line_of self size)) }
    {
        match print(&VerdictLine(self, size as u64), sink) {
            Ok(()) => Ok(self.is_accepted()),
            Err(fault) => Err(fault),
        }
    }
}

/// The line that says it, of a stream of so many bytes.
#[derive(Clone, Copy)]
pub struct VerdictLine(pub Verdict, pub u64);

impl Text for VerdictLine {
    ghost text = { λ l. line_of l.0 l.1 };

    fn put_to<S: Sink>(&self, sink: &mut S, output: Output) -> Output {
        match self.0 {
            Verdict::Accepted { records, commands } => texts!(
                "accepted: ",
                Number(records),
                " records, ",
                Number(commands),
                " commands, ",
                Number(self.1),
                " bytes\n"
            )
            .put_to(sink, output),
            Verdict::Refused { place, reason } => {
                texts!("refused at ", PlaceAndReason(place, reason)).put_to(sink, output)
            }
            Verdict::Truncated { at } => {
                texts!("truncated at ", Number(at), "\n").put_to(sink, output)
            }
        }
    }
}

/// The verdict that a fault of a receiver is.
///
/// # Errors
///
/// The fault itself, where it says nothing of the stream: any but `Refused` and `Truncated`.
pub fn verdict_by_fault(fault: Fault) -> Result<Verdict, Fault>
    ensures { result ≡ verdict_by fault }
{
    match fault {
        Fault::Refused { place, reason } => Ok(Verdict::Refused { place, reason }),
        Fault::Truncated { at } => Ok(Verdict::Truncated { at }),
        other => Err(other),
    }
}
