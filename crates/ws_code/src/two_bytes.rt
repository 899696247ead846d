//! Numbers of 16 bits from two bytes.
ghost use Rattle.std.specs.Prelude.{◌≡◌, ◌+◌, ◌*◌};

// By hand: what u16::from_be_bytes promises is a sum that each proof would have to unfold.
/// The number of 16 bits that two bytes are, the high one first.
#[inline(always)]
pub fn word(high: u8, low: u8) -> u16
    ensures { result ≡ high * 256 + low }
{
    u16::from(high) * 256 + u16::from(low)
}
