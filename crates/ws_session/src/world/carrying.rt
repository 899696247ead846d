//! A piece of a stream over a connection.
ghost use Rattle.std.specs.Prelude.{◌≡◌, ◌≤◌, Err, length, IfErr, OnOk};
ghost use Rattle.ws_code.specs.Device.{on_devices};
ghost use Rattle.ws_end.specs.attached.StationRun.{passing};
ghost use Rattle.ws_session.specs.world.Carrying.{IsCarried, IsCarryFault};

use ws_code::{DeviceFailed, Fault, Sink, Source, write_whole};

/// Carries a piece of a stream over a connection: writes the bytes into its one end, and then reads as many from the
/// other end into the slice. It allocates no memory, and makes no more reads than the slice has bytes.
///
/// # Errors
///
/// `Write` where a write failed, or took no byte: a proper prefix of the bytes went out, and nothing was read.
/// `Read` where a read failed, and `Truncated` with the number of bytes read, where the source ends early: all the
/// bytes went out, and the slice begins with what was read.
pub fn carry<S: Sink, R: Source>(
    bytes: &[u8],
    sink: &mut S,
    source: &mut R,
    taken: &mut [u8],
) -> Result<(), Fault>
    // A piece, and room for as many bytes.
    requires one_length { length taken.old ≡ length bytes.now }
    requires piece { length bytes.now ≤ 4096 }
    // What crossed, or how far it came; behind a failed write nothing was read.
    ensures carried { OnOk result (IsCarried (passing (on_devices S.writer R.reader)
        sink.old sink.new source.old source.new) bytes.now taken.new) }
    ensures fault { IfErr result (IsCarryFault (passing (on_devices S.writer R.reader)
        sink.old sink.new source.old source.new) bytes.now taken.new) }
    ensures unread { result ≡ Err Fault.Write → taken.new ≡ taken.old }
{
    write_whole(sink, bytes)?;
    let mut at = 0;
    while at < taken.len() {
        match source.read(&mut taken[at..]) {
            Ok(0) => return Err(Fault::Truncated { at: at as u64 }),
            Ok(given) => at += given,
            Err(DeviceFailed) => return Err(Fault::Read),
        }
    }
    Ok(())
}
