//! The host and port that a word names.
ghost use Rattle.std.specs.Prelude.{◌≡◌, ◌≢◌, ◌∷◌, ◌++◌, ◌<◌, ℕ, List, Option, None, Some, MatchBool, MatchOption};
ghost use Rattle.std.specs.Option.{option_map};
ghost use Rattle.ws_script.specs.asked.Addresses.{HasNo, IsPlainV6, IsV6, IsZone, IsPort, IsHostFound, led_by, IsBracketed, IsNamed, IsHostText, IsHostPort, IsListening};

use std::net::Ipv6Addr;

/// The port of Telnet.
pub const TELNET_PORT: u16 = 23;

/// A host by its name or its address, and a port.
#[derive(Clone, Copy, Debug, PartialEq, Eq)]
pub struct HostPort<'a> {
    /// A name, or an address of IPv4 or IPv6; one of IPv6 without brackets, and with its zone after `%` if it has one.
    pub host: &'a str,
    pub port: u16,
}

/// The host and the port of `HOST`, `HOST:PORT`, `[V6]`, `[V6]:PORT` or a bare `V6`, with an address `V6` of IPv6, maybe
/// with a zone after `%`. The port is 23 where none stands there. `None` of any other text.
pub fn host_and_port(text: &str) -> Option<HostPort<'_>>
    ensures { MatchOption result
        ((host : List ℕ) (port : ℕ) → IsHostPort text.now host port → ⊥)
        (λ named. IsHostPort text.now named.host.now named.port) }
{
    let Some((host, digits)) = split_port(text) else {
        return None;
    };
    let port = match digits {
        None => TELNET_PORT,
        Some(digits) => read_port(digits)?,
    };
    Some(HostPort { host, port })
}

/// The host and the port of `HOST:PORT` or `[V6]:PORT`. `None` of any other text.
pub fn listening_address(text: &str) -> Option<HostPort<'_>>
    ensures { MatchOption result
        ((host : List ℕ) (port : ℕ) → IsListening text.now host port → ⊥)
        (λ named. IsListening text.now named.host.now named.port) }
{
    let Some((host, digits)) = split_port(text) else {
        return None;
    };
    let Some(digits) = digits else {
        return None;
    };
    let port = read_port(digits)?;
    Some(HostPort { host, port })
}

// The text before the first byte of this kind, and the text after it.
pub(crate) fn cut(text: &str, at: char) -> Option<(&str, &str)>
    requires { at < 128 }
    ensures { MatchOption result (HasNo at text.now) (λ parts.
        (text.now ≡ parts.0.now ++ at ∷ parts.1.now) × HasNo at parts.0.now) }
{
    text.split_once(at)
}

// The text after this byte, with which it begins.
pub(crate) fn behind(text: &str, at: char) -> Option<&str>
    requires { at < 128 }
    ensures { MatchOption result ((more : List ℕ) → text.now ≢ at ∷ more)
        (λ more. text.now ≡ at ∷ more.now) }
{
    text.strip_prefix(at)
}

// The text of the host, and that of the port where there is one.
fn split_port(text: &str) -> Option<(&str, Option<&str>)>
    ensures { IsHostFound (IsHostText text.now) result }
{
    if is_ipv6(text) {
        return Some((text, None));
    }
    match behind(text, '[') {
        Some(inner) => split_bracketed(inner),
        None => split_named(text),
    }
}

// The same of what stands after a bracket.
fn split_bracketed(inner: &str) -> Option<(&str, Option<&str>)>
    ensures { IsHostFound (λ host port. IsBracketed (91 ∷ inner.now) host (led_by 58 port))
        result }
{
    let Some((host, more)) = cut(inner, ']') else {
        return None;
    };
    if !is_ipv6(host) {
        return None;
    }
    if more.is_empty() {
        return Some((host, None));
    }
    match behind(more, ':') {
        Some(port) => Some((host, Some(port))),
        None => None,
    }
}

// The same of a name, which doesn't begin with a bracket.
fn split_named(text: &str) -> Option<(&str, Option<&str>)>
    requires unbracketed { (more : List ℕ) → text.now ≢ 91 ∷ more }
    ensures { IsHostFound (λ host port. IsNamed text.now host (led_by 58 port)) result }
{
    match cut(text, ':') {
        Some(("", _)) => None,
        Some((host, port)) => Some((host, Some(port))),
        None if text.is_empty() => None,
        None => Some((text, None)),
    }
}

// Whether a text is an address of IPv6, with a zone or without.
fn is_ipv6(text: &str) -> bool
    ensures { MatchBool result (IsV6 text.now) (IsV6 text.now → ⊥) }
{
    if is_plain_ipv6(text) {
        return true;
    }
    match cut(text, '%') {
        Some((address, zone)) => is_plain_ipv6(address) && is_zone(zone),
        None => false,
    }
}

fn is_plain_ipv6(text: &str) -> bool
    ensures { MatchBool result (IsPlainV6 text.now) (IsPlainV6 text.now → ⊥) }
{
    match text.parse::<Ipv6Addr>() {
        Ok(_) => true,
        Err(_) => false,
    }
}

fn is_zone(text: &str) -> bool
    ensures { MatchBool result (IsZone text.now) (IsZone text.now → ⊥) }
{
    if text.is_empty() {
        return false;
    }
    match cut(text, ':') {
        Some(_) => false,
        None => true,
    }
}

// A port in decimal digits.
fn read_port(digits: &str) -> Option<u16>
    ensures { MatchOption result ((port : ℕ) → IsPort digits.now port → ⊥) (IsPort digits.now) }
{
    if digits.starts_with('+') {
        return None;
    }
    digits.parse::<u16>().ok()
}
