//! How an identity is told: the subnegotiation IS of NEW-ENVIRON.
ghost use Rattle.std.specs.Prelude.{◌≡◌, ◌≤◌, ◌+◌, ◌++◌, ◌∷◌, [], length, if◌then◌else◌};
ghost use Rattle.std.specs.List.{flat_map};
ghost use Rattle.ws_telnet.specs.Token.{doubled};
ghost use Rattle.ws_nego.specs.Options.{telnet_bytes};
ghost use Rattle.ws_identity.specs.Environ.{variable, device_variable, page_variables, told_token};

use crate::codes::{IS, NEW_ENVIRON, USERVAR, VALUE};
use crate::environ::Reply;
use crate::{DeviceName, Identity};
use arrayvec::ArrayVec;
use ws_code::ByteList;
use ws_telnet::{IAC, SB, SE};

// No byte of it is FF, so none is doubled.
/// IS and the variables of an identity, the device's name among them if that is to be told (RFC 1572, section 2).
pub fn told_reply(identity: &Identity, named: bool) -> Reply
    ensures { result ≡ telnet_bytes (told_token identity.now named ∷ []) }
{
    let mut bytes = ArrayVec::new();
    bytes.push(IAC);
    bytes.push(SB);
    bytes.push(NEW_ENVIRON);
    bytes.push(IS);
    push_device(&mut bytes, &identity.device, named);
    push_page(&mut bytes, identity);
    bytes.push(IAC);
    bytes.push(SE);
    ByteList::of(bytes)
}

// The name of the device, where there is one and it is to be told.
fn push_device(into: &mut ArrayVec<u8, 63>, device: &Option<DeviceName>, named: bool)
    requires { length into.old.items + 19 ≤ 63 }
    ensures items { into.new.items
        ≡ into.old.items ++ (if named then device_variable device.now else []) }
    ensures plain { flat_map doubled (if named then device_variable device.now else [])
        ≡ (if named then device_variable device.now else []) }
    ensures room { length into.new.items ≤ length into.old.items + 19 }
{
    if !named {
        return;
    }
    if let Some(name) = device {
        push_variable(into, b"DEVNAME", name.as_slice());
    }
}

// Keyboard type, code page and character set.
fn push_page(into: &mut ArrayVec<u8, 63>, identity: &Identity)
    requires { length into.old.items + 38 ≤ 63 }
    ensures items { into.new.items ≡ into.old.items ++ page_variables identity.now }
    ensures plain { flat_map doubled (page_variables identity.now) ≡ page_variables identity.now }
    ensures room { length into.new.items ≤ length into.old.items + 38 }
{
    push_variable(into, b"KBDTYPE", identity.keyboard_type());
    push_variable(into, b"CODEPAGE", identity.page.digits().as_bytes());
    push_variable(into, b"CHARSET", identity.page.character_set().as_bytes());
}

// A variable and its value (RFC 1572, section 2).
fn push_variable(into: &mut ArrayVec<u8, 63>, name: &[u8], value: &[u8])
    requires { length into.old.items + length name.now + length value.now + 2 ≤ 63 }
    ensures items { into.new.items ≡ into.old.items ++ variable name.now value.now }
    ensures room { length into.new.items
        ≡ length into.old.items + length name.now + length value.now + 2 }
{
    into.push(USERVAR);
    push_all(into, name);
    into.push(VALUE);
    push_all(into, value);
}

fn push_all(into: &mut ArrayVec<u8, 63>, bytes: &[u8])
    requires { length into.old.items + length bytes.now ≤ 63 }
    ensures { into.new.items ≡ into.old.items ++ bytes.now }
{
    // They fit, by the clause above.
    into.try_extend_from_slice(bytes).unwrap();
}
