//! The words of `connect` that say who the station is.
use crate::words::command_parts::{CommandParts, option};
use crate::words::page_words::page_asked;
use crate::words::wrong_word::WrongWord;
use clap::{Arg, ArgMatches};
use std::alloc::{AllocError, Global};
use ws_identity::{DeviceName, Identity, Keyboard};

const DEVICE_HELP: &str =
    "The device's name that the host is told; 1 to 10 of letters, digits and $ # @ _ .";

const KEYBOARD_HELP: &str =
    "The keyboard's type that the host is told, three letters and digits; that of the code page by default";

const CODE_PAGE_HELP: &str =
    "The code page of what is typed and shown, which the host is told too: 37 by default, or another of those of `show --code-page`";

/// The command with the words that say who the station is. A station of the profile tells none of it, and has page 037.
pub(crate) fn with_identity<'a>(alloc: Global, command: CommandParts<'a>) -> CommandParts<'a> {
    command
        .made_word(of_identity(alloc, "device", "NAME", DEVICE_HELP))
        .made_word(of_identity(alloc, "keyboard", "TYPE", KEYBOARD_HELP))
        .made_word(of_identity(alloc, "code-page", "N", CODE_PAGE_HELP))
}

fn of_identity<'a>(
    alloc: Global,
    name: &'a str,
    value: &'a str,
    help: &'a str,
) -> Result<Arg<'a>, AllocError> {
    option(alloc, name, value, help).conflicts_with("strict")
}

/// Who the station is by these words, where one of them says it.
///
/// # Errors
///
/// The first name that is none.
pub(crate) fn identity_asked<'a>(
    words: &ArgMatches<'a>,
) -> Result<Option<Identity>, WrongWord<'a>> {
    let (device, keyboard) = (words.get_str("device"), words.get_str("keyboard"));
    if device.is_none() && keyboard.is_none() && words.get_str("code-page").is_none() {
        return Ok(None);
    }
    Ok(Some(Identity {
        device: device_named(device)?,
        page: page_asked(words)?,
        keyboard: keyboard_named(keyboard)?,
    }))
}

fn device_named(name: Option<&str>) -> Result<Option<DeviceName>, WrongWord<'_>> {
    let Some(name) = name else {
        return Ok(None);
    };
    let device = DeviceName::new(name.as_bytes()).ok_or(WrongWord::Device(name))?;
    Ok(Some(device))
}

fn keyboard_named(name: Option<&str>) -> Result<Option<Keyboard>, WrongWord<'_>> {
    let Some(name) = name else {
        return Ok(None);
    };
    let keyboard = Keyboard::new(name.as_bytes()).ok_or(WrongWord::Keyboard(name))?;
    Ok(Some(keyboard))
}
