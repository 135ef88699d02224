//! A way through a JSON text by its tokens, without a tree of it. A value is told by where it begins in the text.

use grid_value::{MAX_DEPTH, Value};
use json::{Reader, Scratch, Token};

/// A walk over the values of a text.
#[derive(Drop)]
pub(crate) struct Walk<'t> {
    text: &'t str,
    /// Where the text begins in the whole one.
    base: usize,
    reader: Reader<'t>,
    /// Whether each token so far was in its place.
    good: bool,
}

impl<'t> Walk<'t> {
    /// A walk over the text from a place of it on.
    pub(crate) fn new(text: &'t str, at: usize, scratch: &'t mut Scratch) -> Option<Walk<'t>> {
        let text = text.get(at..)?;
        let reader = Reader::new(text, scratch).ok()?;
        Some(Walk {
            text,
            base: at,
            reader,
            good: true,
        })
    }

    /// Where the next value begins.
    pub(crate) fn here(&self) -> usize {
        self.base.saturating_add(self.reader.offset())
    }

    /// The first byte of the next value.
    fn first(&self) -> Option<u8> {
        self.text.as_bytes().get(self.reader.offset()).copied()
    }

    /// Whether the next value begins with the byte.
    pub(crate) fn is_at(&self, byte: u8) -> bool {
        self.first() == Some(byte)
    }

    /// Passes the next value.
    pub(crate) fn pass(&mut self) {
        self.good = self.good && self.reader.skip_value(MAX_DEPTH).is_ok();
    }

    /// Enters the next value where it is an object, and else passes it.
    pub(crate) fn enters_object(&mut self) -> bool {
        if self.first() != Some(b'{') {
            self.pass();
            return false;
        }
        matches!(self.reader.next(), Some(Token::BeginObject))
    }

    /// Enters the next value where it is an array, and else passes it.
    pub(crate) fn enters_array(&mut self) -> bool {
        if self.first() != Some(b'[') {
            self.pass();
            return false;
        }
        matches!(self.reader.next(), Some(Token::BeginArray))
    }

    /// The name of the next member, whose value is next then; None at the end of the object, which is passed.
    pub(crate) fn next_name(&mut self) -> Option<&'t str> {
        if !self.good {
            return None;
        }
        match self.reader.next_key() {
            Ok(name) => name,
            Err(_) => {
                self.good = false;
                None
            }
        }
    }

    /// Whether an item is next; the end of the array is passed.
    pub(crate) fn is_at_item(&mut self) -> bool {
        self.good && !self.reader.take_end_array()
    }

    /// Passes the next value, and counts its items where it is an array.
    pub(crate) fn items(&mut self) -> Option<usize> {
        if !self.enters_array() {
            return None;
        }
        let mut items = 0usize;
        for _ in 0..u64::MAX {
            if !self.is_at_item() {
                break;
            }
            self.pass();
            items = items.saturating_add(1);
        }
        Some(items)
    }

    /// Passes the next value, which is neither an array nor an object.
    pub(crate) fn leaf(&mut self) -> Option<Value<'t, 't>> {
        Value::next_leaf(&mut self.reader)
    }

    /// Passes the next value, and gives it where it is a whole number.
    pub(crate) fn whole(&mut self) -> Option<i64> {
        self.leaf()?.as_i64()
    }

    /// Passes the next value, which is a number, and gives it as it is written.
    pub(crate) fn number(&mut self) -> Option<&'t str> {
        match self.reader.next()? {
            Token::Number(number) => Some(number),
            _ => None,
        }
    }

    /// Passes the next value, and tells whether it is this text.
    pub(crate) fn passes_text(&mut self, text: &str) -> bool {
        if self.first() != Some(b'"') {
            self.pass();
            return false;
        }
        match self.leaf() {
            Some(value) => value.as_str() == Some(text),
            None => {
                self.good = false;
                false
            }
        }
    }
}
