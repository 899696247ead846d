//! The host's alarm, and how often it has sounded (SC30-3533, Write to Display command).
ghost use Rattle.std.specs.Prelude.{◌≡◌, ◌+◌, true, false};
ghost use Rattle.ws_end.specs.station.Alarms.{alarm_count, sounds_alarm};

use ws_stream::Element;

/// The bit of a CC2 that sounds the alarm (SC30-3533, Write to Display command, control character 2).
pub const ALARM: u8 = 0x04;

// Whether an element sounds the alarm: a Write whose CC2 has the bit for it.
fn sounds_alarm(element: &Element) -> bool
    ensures { result ≡ sounds_alarm element.now }
{
    match element {
        Element::Write { cc2, .. } => *cc2 / ALARM % 2 == 1,
        _ => false,
    }
}

/// The count of alarms behind an element: one more where it is a Write whose CC2 sounds the alarm. It stops at
/// 18,446,744,073,709,551,615.
pub fn count_alarm(alarms: u64, element: &Element) -> u64
    ensures sounds { sounds_alarm element.now ≡ true → result ≡ alarm_count (alarms + 1) }
    ensures silent { sounds_alarm element.now ≡ false → result ≡ alarms }
{
    if sounds_alarm(element) {
        alarms.saturating_add(1)
    } else {
        alarms
    }
}
