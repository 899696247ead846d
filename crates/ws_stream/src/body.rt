//! Whether elements may stand one after another.

ghost use Rattle.std.specs.Prelude.{◌≡◌, true};
ghost use Rattle.ws_code.specs.Code.{IsChain};
ghost use Rattle.ws_stream.specs.Elements.{element_rules};
ghost use Rattle.ws_stream.specs.Bodies as spec;

use crate::{Commands, Element};
use ws_code::{Body, Code};

/// Whether the elements are a body: each may stand after the one before.
pub fn is_body(body: &[Element]) -> bool
    ensures same { result ≡ spec.is_body body.now }
    ensures chain { result ≡ true → IsChain element_rules element_rules.first body.now }
    ensures only { IsChain element_rules element_rules.first body.now → result ≡ true }
{
    let mut place = Commands::first();
    for element in body {
        if !Commands::may_follow(place, element) {
            return false;
        }
        Commands::known(element);
        place = Commands::after(element);
    }
    true
}
