//! A line that works on the connection itself, carried out.
ghost use Rattle.std.specs.Prelude.{◌≡◌, false, IfOk};
ghost use Rattle.ws_live.specs.live.LiveText.{stops};
ghost use Rattle.ws_live.specs.live.WireRuns as Spec;

use crate::live::Closing;
use crate::live::watch::Watch;
use ws_code::{Fault, Sink};
use ws_script::WireLine;
use ws_session::Attached;

/// Carries a line out that works on the connection itself: how it closes.
///
/// # Errors
///
/// `Write` where a write failed, or took no byte: a proper prefix of the bytes went out.
pub fn carry_wire<E, S, K: Sink, W: Watch<S>>(
    attached: &mut Attached<E, S, K>,
    watch: &mut W,
    line: &WireLine,
) -> Result<Closing, Fault>
    requires works { attached.old.broken ≡ false }
    ensures runs { Spec.WireRuns K.writer line.now attached.old result attached.new }
    ensures same { watch.new ≡ watch.old }
    ensures works { IfOk result (λ closing.
        stops closing ≡ false → attached.new.broken ≡ false) }
{
    match line {
        WireLine::Raw(bytes) => match attached.write(bytes.as_slice()) {
            Ok(()) => Ok(Closing::Done),
            Err(fault) => Err(fault),
        },
        WireLine::Pause(milliseconds) => {
            watch.pause(*milliseconds);
            Ok(Closing::Done)
        }
        WireLine::Close => Ok(Closing::Closed),
    }
}
