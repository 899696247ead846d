//! A station that reads a source to its end.
ghost use Rattle.std.specs.Prelude.{[]};
ghost use Rattle.ws_nego.specs.declared.terminal.TerminalType.{TerminalType as ATerminal};
ghost use Rattle.ws_end.specs.station.StationReached.{IsFresh, StationReached};
ghost use Rattle.ws_code.specs.Device.{on_devices};
ghost use Rattle.ws_end.specs.attached.StationRun.{IsRun, schedule, passing};
ghost use Rattle.ws_end.specs.station.StationEndState.{new_station_end};

use crate::Station;
use crate::attached::player::Player;
use ws_code::{DeviceFailed, Fault, Sink, Source};
use ws_keys::Key;

/// What a station came to that read its source to the end.
#[derive(Drop)]
pub struct Played {
    pub station: Station,
    /// How many keys it refused, up to 4,294,967,295. Keys whose number of records was never reached aren't counted.
    pub keys_refused: u32,
}

/// Runs a station that has taken no byte and no key: it reads the source to its end, and writes what it answers, both
/// to the bytes and to the keys. Each key is pressed as soon as all keys before it were pressed and its number of
/// records has been applied; a key that is refused is counted. It allocates no memory.
///
/// # Errors
///
/// `Refused` at the first byte, or the last byte of the first item, that the station refuses; nothing further is read
/// then. `Truncated` with the number of bytes, where the source ends inside a token or a record. `Read` where a read
/// failed, or 4,294,967,296 reads didn't reach the end; `Write` where a write failed, or took no byte. What went out
/// is then a prefix of what would have been written. The station is given up.
pub fn run_station<R: Source, S: Sink>(
    station: Station,
    source: &mut R,
    sink: &mut S,
    keys: &[(u32, Key)],
) -> Result<Played, Fault>
    requires { IsFresh station }
    ensures { (terminal : ATerminal) → StationReached station [] [] (new_station_end terminal)
        → IsRun (schedule terminal keys.now) (passing (on_devices S.writer R.reader)
        sink.old sink.new source.old source.new) result }
{
    let mut player = Player {
        station,
        pressed: 0,
        keys_refused: 0,
    };
    player.press_due(sink, keys)?;
    let mut piece = [0u8; 4096];
    for _ in 0..4_294_967_296u64 {
        match source.read(&mut piece) {
            Ok(0) => return player.finish(),
            Ok(given) => player.take_all(sink, keys, &piece[..given])?,
            Err(DeviceFailed) => return Err(Fault::Read),
        }
    }
    Err(Fault::Read)
}
