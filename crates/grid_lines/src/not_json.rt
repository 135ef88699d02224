//! Why an input is no JSON, and where.

use crate::stop::{Stop, stop_of};
use std::alloc::Global;
use std::fmt::{self, Display};

/// Why an input is no JSON.
#[derive(Clone, Copy, Debug)]
pub struct NotJson {
    what: &'static str,
    /// The line and the column, if they are told. Both count from 1, columns by bytes. The end of an input is where its
    /// last byte is.
    place: Option<(usize, usize)>,
}

impl Display for NotJson {
    fn fmt<W: fmt::Write>(&self, f: &mut fmt::Formatter<W>) -> fmt::Result {
        match self.place {
            Some((line, column)) => write!(f, "{}, at line {line}, column {column}", self.what),
            None => f.write_str(self.what),
        }
    }
}

/// The line and the column of a byte, or of the end of the input.
fn place_of(input: &[u8], offset: usize) -> (usize, usize) {
    let front = input.get(..offset).unwrap_or(input);
    let newlines = front.iter().filter(|byte| **byte == b'\n').count();
    let before = match front.iter().rposition(|byte| *byte == b'\n') {
        Some(newline) => front.len().saturating_sub(newline).saturating_sub(1),
        None => front.len(),
    };
    let column = if offset < input.len() {
        before.saturating_add(1)
    } else {
        before.max(1)
    };
    (newlines.saturating_add(1), column)
}

/// What is told of an input that stops to be JSON.
fn what_of(stop: Stop) -> &'static str {
    match stop {
        Stop::Within => "the input is not JSON",
        Stop::Behind => "the input is not JSON: it goes on after its value",
        Stop::Early => "the input is not JSON: it ends before its value does",
    }
}

/// Whether a text that is cut within a character behind it ends before its value does.
fn is_early(alloc: Global, front: &[u8]) -> bool {
    let Ok(front) = std::str::from_utf8(front) else {
        return false;
    };
    // Any letter stands for the one that is cut.
    match format!(in alloc; "{front}?") {
        Ok(text) => matches!(stop_of(alloc, text.as_str()), Some((_, Stop::Early))),
        Err(_) => false,
    }
}

/// What is told of an input that is text up to a byte, and that is cut within a character there, or else no text.
fn no_text(alloc: Global, input: &[u8], offset: usize, is_cut: bool) -> &'static str {
    if is_cut && is_early(alloc, input.get(..offset).unwrap_or(&[])) {
        what_of(Stop::Early)
    } else {
        "the input is not UTF-8"
    }
}

/// What the first bytes tell of an input that is no JSON.
fn by_first_bytes(input: &[u8]) -> Option<&'static str> {
    match input {
        [0xef, 0xbb, 0xbf, ..] => {
            Some("the input begins with a byte order mark, which JSON does not allow")
        }
        [0x1f, 0x8b, ..] => {
            Some(
                "the input is compressed by gzip, and a job in JSON is wanted, as `gzip -dc` gives it",
            )
        }
        [0xfe, 0xff, ..] | [0xff, 0xfe, ..] => {
            Some("the input is UTF-16, and a job in JSON is wanted as UTF-8")
        }
        _ if input.trim_ascii().is_empty() => {
            Some("the input is empty, and a job in JSON is wanted")
        }
        _ => None,
    }
}

/// Where these bytes stop to be JSON, and what is told of that; None where memory does not serve.
fn by_text(alloc: Global, input: &[u8]) -> Option<(usize, &'static str)> {
    match std::str::from_utf8(input) {
        Ok(text) => {
            let (offset, stop) = stop_of(alloc, text)?;
            Some((offset, what_of(stop)))
        }
        Err(error) => {
            let offset = error.valid_up_to();
            Some((
                offset,
                no_text(alloc, input, offset, error.error_len().is_none()),
            ))
        }
    }
}

/// Why these bytes, which are no JSON, are none.
pub(crate) fn not_json(alloc: Global, input: &[u8]) -> NotJson {
    if let Some(what) = by_first_bytes(input) {
        return NotJson { what, place: None };
    }
    match by_text(alloc, input) {
        Some((offset, what)) => NotJson {
            what,
            place: Some(place_of(input, offset)),
        },
        None => NotJson {
            what: "the input is not JSON",
            place: None,
        },
    }
}
