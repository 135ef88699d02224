//! Where a text stops to be one JSON value.

use grid_value::{MAX_DEPTH, Number};
use json::{Reader, Scratch, Token};
use serde_json::Value;
use std::alloc::Global;

/// How a text stops to be one JSON value.
#[derive(Clone, Copy, Drop)]
pub(crate) enum Stop {
    /// It breaks within its value, or has a number there that no float holds.
    Within,
    /// It goes on behind its value.
    Behind,
    /// It ends before its value does.
    Early,
}

/// The longest number without an exponent that a float holds whatever its digits are.
const SURE_DIGITS: usize = 308;

/// The arrays and objects that are open behind some tokens.
#[derive(Drop)]
struct Open {
    /// A bit for each, the innermost one's last, which is set for an object.
    objects: u128,
    depth: usize,
    /// Whether a name or the end of an object is next.
    at_name: bool,
}

impl Open {
    fn is_in_object(&self) -> bool {
        self.depth > 0 && self.objects & 1 == 1
    }

    /// Enters an array or an object, if one may stand here.
    fn enters(&mut self, object: bool) -> bool {
        if self.at_name || self.depth >= MAX_DEPTH {
            return false;
        }
        self.objects = (self.objects << 1) | u128::from(object);
        self.depth += 1;
        self.at_name = object;
        true
    }

    /// Leaves the innermost array or object, if it is an object or not as told.
    fn leaves(&mut self, object: bool) -> bool {
        if self.depth == 0 || self.at_name != object || self.is_in_object() != object {
            return false;
        }
        self.objects >>= 1;
        self.depth -= 1;
        self.at_name = self.is_in_object();
        true
    }

    /// Passes a name, or a value that is neither an array nor an object, if one may stand here.
    fn passes(&mut self, name: bool) -> bool {
        if self.at_name != name {
            return false;
        }
        self.at_name = !name && self.is_in_object();
        true
    }

    /// Passes a token, if it may stand here.
    fn takes(&mut self, token: &Token<'_>) -> bool {
        match token {
            Token::Key(_) => self.passes(true),
            Token::BeginObject => self.enters(true),
            Token::BeginArray => self.enters(false),
            Token::EndObject => self.leaves(true),
            Token::EndArray => self.leaves(false),
            Token::Bad => false,
            Token::String(_) | Token::Number(_) | Token::Bool(_) | Token::Null => self.passes(
                false,
            ),
        }
    }
}

/// Whether a token is a number that no float holds.
fn is_vast(token: &Token<'_>) -> bool {
    let Token::Number(number) = token else {
        return false;
    };
    let may_be = number.len() > SURE_DIGITS
        || number.bytes().any(|byte| byte == b'e' || byte == b'E');
    may_be && Number::parse(number).is_none()
}

/// Whether a text that breaks at a token, where a name or a value may be next, ends within that token.
fn is_cut(alloc: Global, text: &str, at: usize, at_name: bool) -> bool {
    let (Some(front), Some(rest)) = (text.get(..at), text.get(at..)) else {
        return false;
    };
    // Behind a value the token may not begin at all.
    let may_begin = matches!(
        front.as_bytes().trim_ascii_end().last(),
        None | Some(b'[' | b'{' | b',' | b':')
    );
    if !may_begin || at_name && !rest.is_empty() && !rest.starts_with('"') {
        return false;
    }
    match Value::from_slice(alloc, rest.as_bytes()) {
        Ok(_) => false,
        Err(error) => error.is_eof(),
    }
}

/// Where a text stops to be one JSON value, and how; None where it is one, or where memory does not serve.
pub(crate) fn stop_of(alloc: Global, text: &str) -> Option<(usize, Stop)> {
    let mut scratch = Scratch::new(alloc);
    let mut reader = Reader::new(text, &mut scratch).ok()?;
    let mut open = Open {
        objects: 0,
        depth: 0,
        at_name: false,
    };
    for _ in 0..u64::MAX {
        let Some(token) = reader.next() else {
            return Some((reader.offset(), Stop::Early));
        };
        let at = reader.offset();
        if !open.takes(&token) {
            let is_cut = match token {
                Token::Bad => is_cut(alloc, text, at, open.at_name),
                // A name whose colon is wanting.
                Token::String(_) => open.at_name && reader.next().is_none(),
                _ => false,
            };
            return Some((at, if is_cut { Stop::Early } else { Stop::Within }));
        }
        if is_vast(&token) {
            return Some((at, Stop::Within));
        }
        if open.depth == 0 {
            reader.next()?;
            return Some((at, Stop::Behind));
        }
    }
    None
}
