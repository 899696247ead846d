//! The words of `show`.
use crate::words::command_line::{InputAsked, form_asked, of, raw, sender_asked};
use crate::words::command_parts::{CommandParts, fault, flag, option, place};
use crate::words::input_help::{
    ALL_HELP, ANSWERS_HELP, CODE_PAGE_HELP, EXTENDED_HELP, JSON_HELP, SHOW_EXAMPLES, STREAM_HELP,
};
use crate::words::live_command::{COLOR_HELP, paint_asked};
use crate::words::page_words::page_asked;
use clap::{Arg, ArgMatches};
use std::alloc::{AllocError, Global};
use ws_printing::Look;

/// How the items of bytes are shown of which records may be refused.
#[derive(Clone, Copy, Debug, PartialEq, Eq)]
pub enum ShowForm {
    /// As lines, with the screen that they make in a paint and on a page.
    Lines(Look),
    /// As objects of JSON, an object a line.
    Objects,
}

/// The command that prints the items of a stream.
pub(crate) fn show_command<'a>(alloc: Global) -> CommandParts<'a> {
    let about = "Prints a stream's records and Telnet commands, and the screen that they make";
    CommandParts::new(alloc, "show", about, SHOW_EXAMPLES)
        .word(flag(alloc, "answers", ANSWERS_HELP))
        .word(flag(alloc, "extended", EXTENDED_HELP))
        .word(flag(alloc, "all", ALL_HELP))
        .made_word(json(alloc))
        .word(flag(alloc, "color", COLOR_HELP))
        .word(option(alloc, "code-page", "N", CODE_PAGE_HELP))
        .word(of(alloc))
        .made_word(raw(alloc))
        .word(place(alloc, "FILE", STREAM_HELP, false))
}

// Objects have no colours.
fn json<'a>(alloc: Global) -> Result<Arg<'a>, AllocError> {
    flag(alloc, "json", JSON_HELP).conflicts_with("color")
}

/// What the words of `show` ask for. Objects go on after refusals.
///
/// # Errors
///
/// Of the kind `InvalidValue` where no station has the code page; `OutOfMemory` where a growth for that was refused.
pub(crate) fn show_asked<'a>(
    alloc: Global,
    words: &ArgMatches<'a>,
) -> Result<InputAsked<'a>, clap::Error> {
    let page = match page_asked(words) {
        Ok(page) => page,
        Err(wrong) => return Err(fault(alloc, show_command(alloc), "t5250 show", wrong)),
    };
    let look = Look {
        paint: paint_asked(words),
        page,
    };
    let (file, form, from) = (
        words.get_str("FILE"),
        form_asked(words),
        sender_asked(words),
    );
    let shown = if words.get_flag("json") {
        ShowForm::Objects
    } else if words.get_flag("all") {
        ShowForm::Lines(look)
    } else {
        return Ok(InputAsked::Show {
            file,
            form,
            from,
            look,
        });
    };
    Ok(InputAsked::ShowAll {
        file,
        form,
        from,
        shown,
    })
}
