//! The names under which the commands beside the profile are printed and read that have no values of their own.
ghost use Rattle.std.specs.Prelude.{◌≡◌, ℕ, List, Some, None, MatchOption};
ghost use Rattle.ws_extended.specs.declared.extended_element.ExtendedElement.{ExtendedElement as AnElement};
ghost use Rattle.ws_extended.specs.CommandNames as Spec;

use crate::{Ask, ExtendedElement};

/// The name of a command beside the profile that stands alone in its line; none of another element.
pub fn command_name(element: &ExtendedElement) -> Option<&'static str>
    ensures { MatchOption result (Spec.command_name element.now ≡ None)
        (λ name. Spec.command_name element.now ≡ Some name.now) }
{
    match element {
        ExtendedElement::Profile(_) | ExtendedElement::Text(_) | ExtendedElement::Roll(_) => None,
        ExtendedElement::RestoreScreen => Some("RESTORE-SCREEN"),
        ExtendedElement::WriteError => Some("WRITE-ERROR"),
        ExtendedElement::Asks(Ask::Query) => Some("QUERY"),
        ExtendedElement::Asks(Ask::SaveScreen) => Some("SAVE-SCREEN"),
        ExtendedElement::Asks(Ask::ReadScreen) => Some("READ-SCREEN"),
        ExtendedElement::Asks(Ask::ReadImmediate) => Some("READ-IMMEDIATE"),
        ExtendedElement::Asks(Ask::ReadImmediateAlternate) => Some("READ-IMMEDIATE-ALTERNATE"),
    }
}

/// The command of this name, where there is one.
pub fn command_named(name: &str) -> Option<ExtendedElement>
    ensures { result ≡ Spec.look_up_command name.now Spec.command_names }
{
    match name {
        "QUERY" => Some(ExtendedElement::Asks(Ask::Query)),
        "SAVE-SCREEN" => Some(ExtendedElement::Asks(Ask::SaveScreen)),
        "RESTORE-SCREEN" => Some(ExtendedElement::RestoreScreen),
        "WRITE-ERROR" => Some(ExtendedElement::WriteError),
        "READ-SCREEN" => Some(ExtendedElement::Asks(Ask::ReadScreen)),
        "READ-IMMEDIATE" => Some(ExtendedElement::Asks(Ask::ReadImmediate)),
        "READ-IMMEDIATE-ALTERNATE" => Some(ExtendedElement::Asks(Ask::ReadImmediateAlternate)),
        _ => None,
    }
}

/// A command is read back from its name, and from that alone.
pub fn names_are_read()
    ensures read { (element : AnElement) (name : List ℕ)
        → Spec.command_name element ≡ Some name
        → Spec.look_up_command name Spec.command_names ≡ Some element }
    ensures only { (element : AnElement) (name : List ℕ)
        → Spec.look_up_command name Spec.command_names ≡ Some element
        → Spec.command_name element ≡ Some name }
{}
