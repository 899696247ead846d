//! In which order a name's addresses are tried, and how long each.
ghost use Rattle.std.specs.Duration.{as_nanos};
ghost use Rattle.std.specs.Prelude.{◌≡◌, ◌<◌, ◌/◌, ◌^◌, ◌-◌, min, IfOk};
ghost use Rattle.ws_network.specs.Turns as Spec;

use std::alloc::{AllocError, Global};
use std::net::SocketAddr;
use std::time::Duration;

/// The addresses in the order in which they are tried: those of IPv6 and of IPv4 take turns, and of each the order
/// stays. It begins with the first.
///
/// # Errors
///
/// `AllocError` where a growth was refused.
pub(crate) fn by_turns(alloc: Global, found: &[SocketAddr]) -> Result<Vec<SocketAddr>, AllocError>
    ensures { IfOk result (λ order. order.items ≡ Spec.by_turns found.now) }
{
    let [first, ..] = found else {
        return Ok(Vec::new(alloc));
    };
    let v4 = of_ipv4(alloc, found)?;
    let v6 = of_ipv6(alloc, found)?;
    if first.is_ipv4() {
        take_turns(alloc, v4.as_slice(), v6.as_slice())
    } else {
        take_turns(alloc, v6.as_slice(), v4.as_slice())
    }
}

fn of_ipv4(alloc: Global, found: &[SocketAddr]) -> Result<Vec<SocketAddr>, AllocError>
    ensures { IfOk result (λ of. of.items ≡ Spec.of_v4 found.now) }
{
    let all = found.iter().copied();
    all.filter(|address| address.is_ipv4()).collect(alloc)
}

fn of_ipv6(alloc: Global, found: &[SocketAddr]) -> Result<Vec<SocketAddr>, AllocError>
    ensures { IfOk result (λ of. of.items ≡ Spec.of_v6 found.now) }
{
    let all = found.iter().copied();
    all.filter(|address| address.is_ipv6()).collect(alloc)
}

// One of each by turns, and then what is left of either.
#[tactic(auto, using(crate::proofs::Turning::moved, crate::proofs::Turning::rest_follows))]
fn take_turns(
    alloc: Global,
    one: &[SocketAddr],
    other: &[SocketAddr],
) -> Result<Vec<SocketAddr>, AllocError>
    ensures { IfOk result (λ order. order.items ≡ Spec.turns one.now other.now) }
{
    let mut order = Vec::new(alloc);
    let shared = one.len().min(other.len());
    for at in 0..shared {
        order.push(one[at])?;
        order.push(other[at])?;
    }
    order.extend_from_slice(&one[shared..])?;
    order.extend_from_slice(&other[shared..])?;
    Ok(order)
}

/// What each of so many addresses has of the time that is left.
pub(crate) fn share(left: Duration, addresses: usize) -> Duration
    requires some { 0 < addresses }
    ensures { as_nanos result ≡ as_nanos left / min addresses (2 ^ 32 - 1) }
{
    left / u32::try_from(addresses).unwrap_or(u32::MAX)
}
