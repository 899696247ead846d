//! What no script reaches of identities: laws, and a name that holds a null. All else is in python/tests and tests/live.
use crate::holds;
use ws_identity::{DeviceName, names_are_told_once, others_as_profile};

#[test]
fn laws_can_be_called(rt: HostRuntime) {
    names_are_told_once();
    others_as_profile();
    holds(&rt, DeviceName::new(b"\0").is_none());
    holds(&rt, DeviceName::new(b"A\0").is_none());
}
