//! The words of `connect` and `serve` that name a host, a port and a script.
use crate::words::wrong_word::WrongWord;
use ws_script::{HostPort, host_and_port, listening_address};

/// The host of `connect` and its script. Words are HOST, HOST:PORT or HOST and PORT, and then maybe SCRIPT: where the
/// first names no port, a second one of digits does.
///
/// # Errors
///
/// The first word that can't stand where it does.
pub(crate) fn host_and_script<'a>(
    host: &'a str,
    second: Option<&'a str>,
    third: Option<&'a str>,
) -> Result<(HostPort<'a>, Option<&'a str>), WrongWord<'a>> {
    let Some(named) = host_and_port(host) else {
        return Err(no_port_in(host, WrongWord::Host(host)));
    };
    let Some(word) = second else {
        return Ok((named, None));
    };
    let has_port = listening_address(host).is_some();
    if !has_port && is_digits(word) {
        return match word.parse::<u16>() {
            Ok(port) => Ok((
                HostPort {
                    host: named.host,
                    port,
                },
                third,
            )),
            Err(_) => Err(WrongWord::Port(word)),
        };
    }
    match third {
        None => Ok((named, second)),
        Some(third) if has_port => Err(WrongWord::OneTooMany(third)),
        Some(_) => Err(WrongWord::Port(word)),
    }
}

/// The address at which `serve` listens.
///
/// # Errors
///
/// The word, or its port.
pub(crate) fn address_to_listen(address: &str) -> Result<HostPort<'_>, WrongWord<'_>> {
    match listening_address(address) {
        Some(named) => Ok(named),
        None => Err(no_port_in(address, WrongWord::Address(address))),
    }
}

// What is wrong in the word of a host: its port, where what stands in front of that is a host, or else the word.
fn no_port_in<'a>(word: &'a str, wrong: WrongWord<'a>) -> WrongWord<'a> {
    let Some((host, port)) = word.rsplit_once(':') else {
        return wrong;
    };
    let is_bare = host.contains(':') && !host.starts_with('[');
    if port.is_empty() || is_bare || host_and_port(host).is_none() {
        return wrong;
    }
    WrongWord::Port(port)
}

/// Whether it is a number of digits alone.
pub(crate) fn is_digits(word: &str) -> bool {
    !word.is_empty() && word.bytes().all(|byte| byte.is_ascii_digit())
}
