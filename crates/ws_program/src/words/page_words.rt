//! The words that name a code page.
use crate::words::host_words::is_digits;
use crate::words::wrong_word::WrongWord;
use clap::ArgMatches;
use ws_code::CodePage;

/// The code page that the words of a command name, 037 where they name none.
///
/// # Errors
///
/// The word where it isn't one of a station's.
pub(crate) fn page_asked<'a>(words: &ArgMatches<'a>) -> Result<CodePage, WrongWord<'a>> {
    match words.get_str("code-page") {
        Some(word) => page_numbered(word).ok_or(WrongWord::CodePage(word)),
        None => Ok(CodePage::default()),
    }
}

// The code page of a number in digits.
fn page_numbered(word: &str) -> Option<CodePage> {
    if !is_digits(word) {
        return None;
    }
    CodePage::from_number(word.parse::<u16>().ok()?)
}
