// Texts as JSON.
ghost use Rattle.std.specs.Prelude.{◌≡◌, ◌≤◌, ◌<◌, ◌++◌, [], ◌∷◌, true, take};
ghost use Rattle.std.specs.Char.{digit_char};
ghost use Rattle.json.specs.Print.{escape, escape_byte, escape_letter, quoted};
ghost use Rattle.grid_report.specs.Puts.{Puts};

use crate::scan::all_plain;
use grid_ids::Memory;
use grid_report::Text;

/// The letter of a byte's short escape, or 0 where it has none.
fn letter(byte: u8) -> u8
    ensures { result ≡ escape_letter byte }
{
    match byte {
        b'"' | b'\\' => byte,
        8 => b'b',
        12 => b'f',
        b'\n' => b'n',
        b'\r' => b'r',
        b'\t' => b't',
        _ => 0,
    }
}

/// A hexadecimal digit.
fn hex(digit: u8) -> u8
    requires { digit < 16 }
    ensures { result ≡ digit_char digit }
{
    if digit < 10 {
        b'0' + digit
    } else {
        b'a' - 10 + digit
    }
}

/// What stands in a text for a byte: the first bytes of the array, and how many.
fn escape_of(byte: u8) -> ([u8; 6], usize)
    ensures value { take result.1 result.0 ≡ escape_byte byte }
    ensures bound { result.1 ≤ 6 }
{
    let letter = letter(byte);
    if letter > 0 {
        return ([b'\\', letter, 0, 0, 0, 0], 2);
    }
    if byte < 32 {
        return ([b'\\', b'u', b'0', b'0', hex(byte / 16), hex(byte % 16)], 6);
    }
    ([byte, 0, 0, 0, 0, 0], 1)
}

/// Whether a byte stands in a text as it is.
#[tactic(auto, unfolding(json::specs::Print::escape_byte))]
fn is_plain(byte: u8) -> bool
    ensures { result ≡ true → escape_byte byte ≡ byte ∷ [] }
{
    byte >= 32 && byte != b'"' && byte != b'\\'
}

/// Puts the bytes of a text as they stand between quotes, where some have to be escaped.
#[inline(never)]
fn put_escapes(out: &mut Text, text: &str) -> Result<(), Memory>
    ensures { Puts out.old (escape text.now) out.new result }
{
    let bytes = text.as_bytes();
    let mut start = 0;
    for at in 0..bytes.len() {
        if !is_plain(bytes[at]) {
            let (escape, len) = escape_of(bytes[at]);
            out.put_bytes(&bytes[start..at])?;
            out.put_bytes(&escape[..len])?;
            start = at + 1;
        }
    }
    out.put_bytes(&bytes[start..])
}

/// Puts a text as it stands between quotes, between two other texts. Where memory runs out, the text is empty.
#[inline(always)]
pub(crate) fn put_escaped(
    out: &mut Text,
    before: &str,
    text: &str,
    behind: &str,
) -> Result<(), Memory>
    ensures { Puts out.old (before.now ++ escape text.now ++ behind.now) out.new result }
{
    if all_plain(text.as_bytes()) {
        return out.put_between(before, text, behind);
    }
    out.put(before)?;
    put_escapes(out, text)?;
    out.put(behind)
}

/// Puts a text last, between quotes; a quote, a backslash and a byte below 32 in it are escaped. Where memory runs
/// out, the text is empty.
pub fn put_string(out: &mut Text, text: &str) -> Result<(), Memory>
    ensures { Puts out.old (quoted text.now) out.new result }
{
    put_escaped(out, "\"", text, "\"")
}
