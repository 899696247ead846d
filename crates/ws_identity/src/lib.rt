//! Who a display station says that it is: device name, keyboard and code page, which a host asks for by the option
//! NEW-ENVIRON (RFC 1572, RFC 4777).
//!
//! [`IdentityOptions`] are the options of `ws_nego` with this one beside them: see [`others_as_profile`], and of the
//! device's name [`names_are_told_once`]. No call takes memory.
#![tactic(auto)]

mod codes;
mod environ;
mod identity;
mod names;
mod options;
mod telling;

pub use codes::NEW_ENVIRON;
pub use environ::{Environ, Reply, names_are_told_once};
pub use identity::Identity;
pub use names::{DeviceName, Keyboard};
pub use options::{IdentityOptions, others_as_profile};
