// The values of a text that are neither arrays nor objects, each read as what it is wanted as.
ghost use Rattle.std.specs.Prelude.{◌≡◌, ◌<◌, length, None, IfSome, OnSome};
ghost use Rattle.serde_json.specs.Data.{boolean, string};
ghost use Rattle.serde_json.specs.Find.{as_bool, as_str};
ghost use Rattle.grid_value.specs.Leaves.{NextIs, NextWhole, of_leaf, whole_of};

use crate::number::Number;
use json::{Reader, Token};

/// The next value of the reader, where it is a flag. Of any other its first token is passed.
#[inline]
pub fn next_flag(reader: &mut Reader<'_>) -> Option<bool>
    ensures flag { IfSome result (λ flag. NextIs (boolean flag) reader.old reader.new) }
    ensures other { result ≡ None → of_leaf as_bool reader.old ≡ None }
    ensures shorter { OnSome result (length reader.new < length reader.old) }
{
    match reader.next()? {
        Token::Bool(flag) => Some(flag),
        _ => None,
    }
}

/// The next value of the reader, where it is a text. Of any other its first token is passed.
#[inline]
pub fn next_text<'t>(reader: &mut Reader<'t>) -> Option<&'t str>
    ensures text { IfSome result (λ text. NextIs (string text.now) reader.old reader.new) }
    ensures other { result ≡ None → of_leaf as_str reader.old ≡ None }
    ensures shorter { OnSome result (length reader.new < length reader.old) }
{
    match reader.next()? {
        Token::String(text) => Some(text),
        _ => None,
    }
}

/// The next value of the reader, where it is a whole number that fits 64 bits with a sign. Of any other its first
/// token is passed.
#[inline]
pub fn next_whole(reader: &mut Reader<'_>) -> Option<i64>
    ensures whole { IfSome result (λ whole. NextWhole whole reader.old reader.new) }
    ensures other { result ≡ None → of_leaf whole_of reader.old ≡ None }
    ensures shorter { OnSome result (length reader.new < length reader.old) }
{
    match reader.next()? {
        Token::Number(text) => Number::parse_i64(text),
        _ => None,
    }
}
