//! Who a display station says that it is.
ghost use Rattle.std.specs.Prelude.{◌≡◌, unwrap_or, IsTrue};
ghost use Rattle.ws_code.specs.CodePage.{page_keyboard};
ghost use Rattle.ws_identity.specs.Names.{is_keyboard_type};

use crate::{DeviceName, Keyboard};
use ws_code::CodePage;

/// Who a display station says that it is (RFC 4777).
#[derive(Debug, Drop)]
pub struct Identity {
    /// The name that the device is to have; the host names it where there is none.
    pub device: Option<DeviceName>,
    /// The code page of what is typed and shown.
    pub page: CodePage,
    /// The keyboard's type; that of the code page where there is none.
    pub keyboard: Option<Keyboard>,
}

impl Identity {
    /// The keyboard's type that a host is told: three bytes.
    pub fn keyboard_type(&self) -> &[u8]
        ensures value { result.now ≡ unwrap_or self.now.keyboard
            (page_keyboard self.now.page.country) }
        ensures legal { IsTrue (is_keyboard_type result.now) }
    {
        match &self.keyboard {
            Some(keyboard) => keyboard.as_slice(),
            None => self.page.keyboard_type().as_bytes(),
        }
    }
}
