//! Sentences that tell what is wrong: fixed words round what they name. They borrow it, and are put together where they
//! are written.

use std::fmt::{self, Display};

/// How many bytes of a text a sentence shows at most.
const SHOWN: usize = 40;

/// Words that a job may use, each with the format that it came with.
pub(crate) type Words = &'static [(&'static str, i64)];

/// The names of members that an object may have.
pub(crate) type Members = &'static [&'static str];

/// The front of a text, of at most 40 bytes, with a question mark for each control character.
#[derive(Clone, Copy)]
pub(crate) struct Shown<'t>(pub(crate) &'t str);

impl Display for Shown<'_> {
    fn fmt<W: fmt::Write>(&self, f: &mut fmt::Formatter<W>) -> fmt::Result {
        let mut length = 0usize;
        for letter in self.0.chars() {
            if length.saturating_add(letter.len_utf8()) > SHOWN {
                return f.write_str("..");
            }
            let letter = if letter.is_control() { '?' } else { letter };
            length = length.saturating_add(letter.len_utf8());
            f.write_char(letter)?;
        }
        Ok(())
    }
}

/// What a sentence names.
#[derive(Clone, Copy)]
pub(crate) enum Named<'t> {
    Nothing,
    Number(i64),
    Count(usize),
    /// A text of the program, or one that is short.
    Word(&'t str),
    /// A text of the job, or a word that the program was called with.
    Text(&'t str),
    /// Those of the words that a format has, with commas between them.
    Words { words: Words, format: i64 },
    /// The members of an object and those that its kind brings, with commas between them.
    Members { members: Members, of_kind: Members },
    /// How often an order names a worker, and how many commands that has.
    Turns { named: usize, commands: usize },
}

/// Writes names, each behind a comma but the first, before which another text stands.
fn write_names<W: fmt::Write>(
    f: &mut fmt::Formatter<W>,
    first: &'static str,
    names: Members,
) -> fmt::Result {
    let mut before = first;
    for name in names {
        f.write_str(before)?;
        f.write_str(name)?;
        before = ", ";
    }
    Ok(())
}

/// Writes those of the words that a format has, with commas between them.
fn write_words<W: fmt::Write>(f: &mut fmt::Formatter<W>, words: Words, format: i64) -> fmt::Result {
    let mut before = "";
    for (word, since) in words {
        if *since <= format {
            f.write_str(before)?;
            f.write_str(word)?;
            before = ", ";
        }
    }
    Ok(())
}

impl Display for Named<'_> {
    fn fmt<W: fmt::Write>(&self, f: &mut fmt::Formatter<W>) -> fmt::Result {
        match *self {
            Named::Nothing => Ok(()),
            Named::Number(number) => write!(f, "{number}"),
            Named::Count(count) => write!(f, "{count}"),
            Named::Word(word) => f.write_str(word),
            Named::Text(text) => write!(f, "{}", Shown(text)),
            Named::Words { words, format } => write_words(f, words, format),
            Named::Members { members, of_kind } => {
                write_names(f, "", members)?;
                write_names(f, ", ", of_kind)
            }
            Named::Turns { named, commands } => {
                write!(f, "{named} times in the order and has {commands}")
            }
        }
    }
}

/// Fixed words with up to two things between them.
#[derive(Clone, Copy)]
pub(crate) struct Sentence<'t> {
    begin: &'static str,
    first: Named<'t>,
    between: &'static str,
    second: Named<'t>,
    end: &'static str,
}

impl<'t> Sentence<'t> {
    /// A sentence that names nothing.
    pub(crate) fn plain(text: &'static str) -> Sentence<'t> {
        Sentence::one(text, Named::Nothing, "")
    }

    /// A sentence that names one thing.
    pub(crate) fn one(begin: &'static str, named: Named<'t>, end: &'static str) -> Sentence<'t> {
        Sentence::two(begin, named, "", Named::Nothing, end)
    }

    /// A sentence that names two things.
    pub(crate) fn two(
        begin: &'static str,
        first: Named<'t>,
        between: &'static str,
        second: Named<'t>,
        end: &'static str,
    ) -> Sentence<'t> {
        Sentence {
            begin,
            first,
            between,
            second,
            end,
        }
    }
}

impl Display for Sentence<'_> {
    fn fmt<W: fmt::Write>(&self, f: &mut fmt::Formatter<W>) -> fmt::Result {
        write!(
            f,
            "{}{}{}{}{}",
            self.begin, self.first, self.between, self.second, self.end
        )
    }
}
