//! Which of the words that the program was called with is wrong.

use crate::sentence::{Named, Sentence};
use grid_forms::{Form, MOST_SEED, MOST_SIZE, read_words};
use std::alloc::{AllocError, Global};
use thiserror::Error;

/// Which word is wrong, in words.
#[derive(Debug, Drop, Error)]
pub enum WrongWords {
    /// A word that is named.
    #[error("{0}")]
    Named(String),
    /// None that could be named.
    #[error("{0}")]
    Unnamed(&'static str),
}

/// What is wrong with the words.
#[derive(Clone, Copy)]
struct Refused<'w> {
    sentence: Sentence<'w>,
    /// How the form is called, its word and what stands behind that, where a file is named behind it.
    call: Option<(&'w str, &'static str)>,
}

/// The words are none of the forms, and no more is told.
const UNKNOWN: &str = "the words are none of the forms below";

/// What these words ask for.
fn form_of(alloc: Global, words: &[&str]) -> Result<Option<Form>, AllocError> {
    let mut owned = Vec::new(alloc);
    for word in words {
        owned.push(String::from_str(alloc, word)?)?;
    }
    Ok(read_words(owned.as_slice()))
}

/// What is wrong with a word behind those that a form takes.
fn further<'w>(form: &'w str, between: &'static str, word: &'w str) -> Sentence<'w> {
    Sentence::two(
        "`",
        Named::Text(form),
        between,
        Named::Text(word),
        "` is one",
    )
}

/// What is wrong with a word that is no number from a least to a greatest one.
fn no_number<'w>(word: &'w str, between: &'static str, most: u32) -> Sentence<'w> {
    Sentence::two(
        "`",
        Named::Text(word),
        between,
        Named::Number(i64::from(most)),
        " in decimal digits, without a leading zero",
    )
}

/// What is wrong with words behind that of a form with a seed and a size.
fn wrong_numbers<'w>(
    alloc: Global,
    form: &'w str,
    rest: &'w [String],
) -> Result<Sentence<'w>, AllocError> {
    let (Some(seed), Some(size)) = (rest.first(), rest.get(1)) else {
        return Ok(Sentence::one("`", Named::Text(form), "` wants a SEED and a SIZE"));
    };
    if let Some(word) = rest.get(2) {
        return Ok(further(form, "` takes no further words, and `", word.as_str()));
    }
    Ok(match form_of(alloc, &[form, seed.as_str(), "1"])? {
        None => no_number(
            seed.as_str(),
            "` is no SEED: a whole number from 0 to ",
            MOST_SEED,
        ),
        Some(_) => no_number(
            size.as_str(),
            "` is no SIZE: a whole number from 1 to ",
            MOST_SIZE,
        ),
    })
}

/// What is wrong with a word behind those of a form that reads a job.
fn behind_form<'w>(
    form: &'w str,
    layout: &'static str,
    between: &'static str,
    word: &'w str,
    names_file: bool,
) -> Refused<'w> {
    let is_file = names_file || word.ends_with(".json");
    Refused {
        sentence: further(form, between, word),
        call: is_file.then_some((form, layout)),
    }
}

/// What is wrong with words behind that of a form whose output has two layouts.
fn no_layout<'w>(form: &'w str, rest: &'w [String], names_file: bool) -> Refused<'w> {
    match rest {
        [layout, word, ..] if layout.as_str() == "--json" => behind_form(
            form,
            " --json",
            " --json` takes no further words, and `",
            word.as_str(),
            names_file,
        ),
        [word, ..] => behind_form(
            form,
            "",
            "` takes no further word but `--json`, and `",
            word.as_str(),
            names_file,
        ),
        [] => Refused {
            sentence: Sentence::plain(UNKNOWN),
            call: None,
        },
    }
}

/// What is wrong with words that are no form.
fn wrong<'w>(
    alloc: Global,
    form: &'w str,
    rest: &'w [String],
    names_file: bool,
) -> Result<Refused<'w>, AllocError> {
    if form_of(alloc, &[form, "0", "1"])?.is_some() {
        let sentence = wrong_numbers(alloc, form, rest)?;
        return Ok(Refused {
            sentence,
            call: None,
        });
    }
    if form_of(alloc, &[form, "--json"])?.is_some() {
        return Ok(no_layout(form, rest, names_file));
    }
    let is_form = form_of(alloc, &[form])?.is_some();
    Ok(match rest.first() {
        Some(word) if is_form => behind_form(
            form,
            "",
            "` takes no further words, and `",
            word.as_str(),
            names_file,
        ),
        _ => Refused {
            sentence: Sentence::one("`", Named::Text(form), "` is no form"),
            call: None,
        },
    })
}

/// How a form is called that a file is named behind; no text where none is, or where memory does not serve.
fn file_hint(alloc: Global, call: Option<(&str, &str)>) -> String {
    let Some((form, layout)) = call else {
        return String::new(alloc);
    };
    match format!(in alloc; "; a job is read from standard input: grid {form}{layout} < FILE") {
        Ok(hint) => hint,
        Err(_) => String::new(alloc),
    }
}

/// What is told of words that are no form, and how the form is called that a file is named behind.
fn told(
    alloc: Global,
    words: &[String],
    names_file: bool,
) -> Result<(WrongWords, String), AllocError> {
    let Some((form, rest)) = words.split_first() else {
        return Ok((WrongWords::Unnamed("no form was named"), String::new(alloc)));
    };
    let wrong = wrong(alloc, form.as_str(), rest, names_file)?;
    let why = format!(in alloc; "{}", wrong.sentence)?;
    Ok((WrongWords::Named(why), file_hint(alloc, wrong.call)))
}

/// Which of the words, which are no form, is wrong, and how the form is called that a file is named behind, or no text.
/// None stands for words of which one is no UTF-8. The second one may name a file.
pub(crate) fn wrong_words(
    alloc: Global,
    words: Option<&[String]>,
    names_file: bool,
) -> (WrongWords, String) {
    let Some(words) = words else {
        return (
            WrongWords::Unnamed("a word is no UTF-8"),
            String::new(alloc),
        );
    };
    match told(alloc, words, names_file) {
        Ok(told) => told,
        Err(_) => (WrongWords::Unnamed(UNKNOWN), String::new(alloc)),
    }
}
