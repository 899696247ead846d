//! Whether a stream is accepted, and the line that says so.
ghost use Rattle.std.specs.Prelude.{◌≡◌, ◌≢◌, ◌+◌, ◌<◌, ◌≤◌, ◌^◌, ◌++◌, ◌⊎◌, [], List, ℕ, length, IfOk, IfErr};
ghost use Rattle.ws_printing.specs.CheckLine.{IsVerdict};
ghost use Rattle.ws_printing.specs.Checking.{Counts, check_printing, tally_after};
ghost use Rattle.ws_text.specs.Printed.{IsPrinted};
ghost use Rattle.ws_printing.specs.SourceChecks.{HasRefusal, GaveEnough, FailedBefore, IsPieceTaken};

use crate::verdict::Verdict;
use std::alloc::Global;
use ws_code::{Body, DeviceFailed, Fault, Nothing, Reason, Sink, Source};
use ws_record::{Advance, Live, News};

// How many items a decoder has met.
#[derive(Drop)]
struct Tally {
    records: u64,
    commands: u64,
}

impl Tally {
    // Counts the item that is complete with a front, if one is. The count stops at its greatest value.
    fn count(&mut self, news: News)
        ensures { self.new ≡ tally_after self.old news }
    {
        match news {
            News::Close(_) => self.records = self.records.saturating_add(1),
            News::Telnet(_) => self.commands = self.commands.saturating_add(1),
            News::More | News::Unit | News::Open(_) => {}
            News::Refused(_) | News::NoMemory | News::Failed => {}
        }
    }
}

// A decoder, and the count of what it has met.
#[derive(Drop)]
struct Checker<B: Body> {
    live: Live<B>,
    tally: Tally,
}

impl<B: Body> Checker<B> {
    // One that has taken no byte.
    fn new() -> Self
        ensures { Counts B.rules result.live result.tally [] }
    {
        Checker {
            live: Live::new(),
            tally: Tally {
                records: 0,
                commands: 0,
            },
        }
    }

    // Takes a piece: the place of its first byte that is refused, and for what reason, if one is.
    #[inline(always)]
    fn take(&mut self, piece: &[u8]) -> Option<(u64, Reason)>
        requires { (bytes : List ℕ) × Counts B.rules self.old.live self.old.tally bytes
            × (length bytes + length piece.now < 2 ^ 64) }
        ensures { (bytes : List ℕ) → Counts B.rules self.old.live self.old.tally bytes
            → length bytes + length piece.now < 2 ^ 64
            → IsPieceTaken B.rules self.new.live self.new.tally (bytes ++ piece.now) result }
    {
        let mut rest = piece;
        while !rest.is_empty() {
            let Advance { used, news } = self.live.advance(rest, &mut Nothing);
            if let News::Refused(reason) = news {
                let place = self.live.taken() - 1;
                return Some((place, reason));
            }
            self.tally.count(news);
            rest = &rest[used..];
        }
        None
    }

    // What holds of the bytes that it has taken, where they end. None of them is refused.
    fn finish(&mut self) -> Verdict
        requires { (bytes : List ℕ) × Counts B.rules self.old.live self.old.tally bytes
            × (length bytes + 1 < 2 ^ 64) }
        ensures { (bytes : List ℕ) → Counts B.rules self.old.live self.old.tally bytes
            → length bytes + 1 < 2 ^ 64 → IsVerdict B.rules bytes result }
    {
        let at = self.live.taken();
        match self.live.finish() {
            Ok(()) => Verdict::Accepted {
                records: self.tally.records,
                commands: self.tally.commands,
            },
            Err(_) => Verdict::Truncated { at },
        }
    }
}

/// Writes whether the bytes are accepted, refused or truncated, in one line: true where they are accepted.
///
/// `cut` is the size of the pieces in which they are read, and doesn't change what is written. No unit of a body is
/// kept, and no memory is asked for.
///
/// # Errors
///
/// `Write` where the sink failed; no other comes.
#[tactic(auto, using(crate::proofs::CheckLemmas::line_printed))]
pub fn check_to<B: Body, S: Sink>(
    _alloc: Global,
    bytes: &[u8],
    cut: u16,
    sink: &mut S,
) -> Result<bool, Fault>
    requires { cut ≢ 0 }
    ensures { IsPrinted S.writer sink.old sink.new (check_printing B.rules bytes.now) result }
{
    verdict_of::<B>(bytes, cut).write_to(bytes.len(), sink)
}

/// Writes the line that `check_to` writes of all bytes that the source gives, up to its end or to the piece in which
/// one is refused: true where they are accepted.
///
/// A read asks for at most `cut` bytes. None of them is kept, and no memory is asked for.
///
/// # Errors
///
/// `Read` where a read failed, or 4,294,967,296 reads didn't reach the end; no byte before it is refused, and nothing
/// was written. `Write` where the sink failed.
pub fn check_from<B: Body, R: Source, S: Sink>(
    source: &mut R,
    cut: u16,
    sink: &mut S,
) -> Result<bool, Fault>
    requires { cut ≢ 0 }
    // The source failed; or this is printed of the bytes that were read.
    ensures { ((result ≡ Err Fault.Read) × (sink.new ≡ sink.old)
        × FailedBefore R.reader source.old source.new (HasRefusal B.rules))
        ⊎ ((bytes : List ℕ)
        × GaveEnough R.reader source.old source.new (HasRefusal B.rules) bytes
        × IsPrinted S.writer sink.old sink.new (check_printing B.rules bytes) result) }
{
    let mut room = [0u8; 65_535];
    let (verdict, size) = verdict_from::<B, R>(source, &mut room[..usize::from(cut)])?;
    verdict.write_to(size, sink)
}

/// What holds of the bytes, read in pieces of a size.
pub fn verdict_of<B: Body>(bytes: &[u8], cut: u16) -> Verdict
    requires { cut ≢ 0 }
    ensures { IsVerdict B.rules bytes.now result }
{
    let mut checker = Checker::<B>::new();
    for piece in bytes.chunks(usize::from(cut)) {
        match checker.take(piece) {
            Some((place, reason)) => return Verdict::Refused { place, reason },
            None => {}
        }
    }
    checker.finish()
}

/// What holds of the bytes that a source gives, and how many it gave. They are read into the slice.
pub fn verdict_from<B: Body, R: Source>(
    source: &mut R,
    room: &mut [u8],
) -> Result<(Verdict, usize), Fault>
    requires some { 0 < length room.old }
    requires few { length room.old < 2 ^ 16 }
    ensures given { IfOk result (λ found. (bytes : List ℕ)
        × GaveEnough R.reader source.old source.new (HasRefusal B.rules) bytes
        × IsVerdict B.rules bytes found.0 × (found.1 ≡ length bytes)) }
    ensures failed { IfErr result (λ fault. (fault ≡ Fault.Read)
        × FailedBefore R.reader source.old source.new (HasRefusal B.rules)) }
{
    let mut checker = Checker::<B>::new();
    let mut size = 0;
    for _ in 0..4_294_967_296u64 {
        match source.read(room) {
            Ok(0) => return Ok((checker.finish(), size)),
            Ok(given) => {
                size += given;
                match checker.take(&room[..given]) {
                    Some((place, reason)) => {
                        return Ok((Verdict::Refused { place, reason }, size));
                    }
                    None => {}
                }
            }
            Err(DeviceFailed) => return Err(Fault::Read),
        }
    }
    Err(Fault::Read)
}
