//! What is known of an unknown word.
ghost use Rattle.std.specs.Prelude.{◌≡◌, IfOk, length};
ghost use Rattle.std.specs.Str.{chars};
ghost use Rattle.ws_script.specs.cause.Causes as Spec;
ghost use Rattle.ws_script.specs.cause.Causes.{IsKnown};

use crate::cause::Known;
use crate::cause::vocabulary::{Vocabulary, kinds_after, wider, words_of};
use std::alloc::{AllocError, Global};
use strsim::osa_distance;

// The most characters of a word that is near a known one: no known one has more than two thirds of them.
const LONGEST: usize = 36;

/// With which switch such a line begins with a word that otherwise none begins with, or the nearest to it.
///
/// # Errors
///
/// `AllocError` where a growth was refused.
pub(crate) fn known_of(
    alloc: Global,
    vocabulary: Vocabulary,
    word: &str,
) -> Result<Option<Known>, AllocError>
    ensures { IfOk result (IsKnown vocabulary word.now) }
{
    match vocabulary {
        Vocabulary::Elements(_, switch) if kinds_after(wider(vocabulary), word).is_some() => {
            Ok(Some(Known::With(switch)))
        }
        _ => nearest(alloc, vocabulary, word),
    }
}

// The nearest of the words that such a line begins with, where it is near.
fn nearest(alloc: Global, vocabulary: Vocabulary, word: &str) -> Result<Option<Known>, AllocError>
    ensures { IfOk result (IsKnown vocabulary word.now) }
{
    let length = characters(word);
    if length > LONGEST {
        return Ok(None);
    }
    let mut found = None;
    let mut below = length / 3 + 1;
    for known in words_of(vocabulary) {
        let differs = apart(alloc, word, known.0)?;
        if differs < below {
            found = Some(Known::Near(known.0));
            below = differs;
        }
    }
    Ok(found)
}

// How far a word is from a known one.
fn apart(alloc: Global, word: &str, known: &str) -> Result<usize, AllocError>
    ensures { IfOk result (λ differs. differs ≡ Spec.apart word.now known.now) }
{
    let word = word.to_ascii_lowercase(alloc)?;
    let known = known.to_ascii_lowercase(alloc)?;
    osa_distance(alloc, word.as_str(), known.as_str())
}

// How many characters a word has.
fn characters(word: &str) -> usize
    ensures { result ≡ length (chars word.now) }
{
    word.chars().count()
}
