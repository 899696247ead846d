//! Sources of bytes and sinks for them, which may fail, and how a text goes out whole.
ghost use Rattle.std.specs.Prelude.{◌≡◌, ◌≤◌, length, take, IfOk, IfErr, OnOk, OnErr, None, Some};
ghost use Rattle.ws_code.specs.Device.{Reader, Writer, one_more, WentOut, FailedWithin};

use crate::Fault;

/// A read or a write failed.
#[derive(Clone, Copy, Debug, PartialEq, Eq)]
pub struct DeviceFailed;

/// What bytes are read from. It counts its failures, up to the greatest value of 64 bits.
pub trait Source {
    // What a read may do, and its count of failures. A relation and no list of bytes, so that a
    // file, of whose bytes nothing is known, has the contracts of a slice.
    ghost reader: { Reader Self };

    /// Puts some bytes at the slice's front, and answers how many, at most its length.
    /// 0 for a slice that isn't empty is the end.
    ///
    /// # Errors
    ///
    /// `DeviceFailed` where the read failed, which is counted. What the slice holds is then not known.
    fn read(&mut self, into: &mut [u8]) -> Result<usize, DeviceFailed>
        ensures ok { IfOk result (λ n. (n ≤ length into.new)
            × reader.gives self.old (length into.old) (Some (take n into.new)) self.new
            × (reader.failures self.new ≡ reader.failures self.old)) }
        ensures err { OnErr result (reader.gives self.old (length into.old) None self.new
            × (reader.failures self.new ≡ one_more (reader.failures self.old))) };
}

/// What bytes are written to. It counts its failures, up to the greatest value of 64 bits.
pub trait Sink {
    // What a write may do, and its count of failures. A write that takes no byte is no counted
    // failure: whoever calls sees it by its answer.
    ghost writer: { Writer Self };

    /// Takes bytes from the slice's front, and answers how many, at most its length.
    ///
    /// # Errors
    ///
    /// `DeviceFailed` where the write failed, which is counted.
    fn write(&mut self, bytes: &[u8]) -> Result<usize, DeviceFailed>
        ensures ok { IfOk result (λ n. (n ≤ length bytes.now)
            × writer.takes self.old bytes.now (Some n) self.new
            × (writer.failures self.new ≡ writer.failures self.old)) }
        ensures err { OnErr result (writer.takes self.old bytes.now None self.new
            × (writer.failures self.new ≡ one_more (writer.failures self.old))) };
}

/// Writes all the bytes, in as many writes as the sink asks for.
///
/// # Errors
///
/// `Write`, and no other fault, where a write failed or took no byte. That write is the last, and what went out
/// before it is a proper prefix of the bytes.
pub fn write_whole<S: Sink>(sink: &mut S, bytes: &[u8]) -> Result<(), Fault>
    ensures ok { OnOk result (WentOut S.writer sink.old sink.new bytes.now) }
    ensures err { IfErr result (λ fault. (fault ≡ Fault.Write)
        × FailedWithin S.writer sink.old sink.new bytes.now) }
{
    let mut at = 0;
    while at < bytes.len() {
        match sink.write(&bytes[at..]) {
            Ok(0) => return Err(Fault::Write),
            Ok(taken) => at += taken,
            Err(DeviceFailed) => return Err(Fault::Write),
        }
    }
    Ok(())
}
