// The numbers of JSON.
ghost use Rattle.std.specs.Prelude.{◌≡◌, ◌<◌, ◌≤◌, ◌==◌, ◌^◌, length, slice_index, option_map, option_and_then, IfSome, IsTrue, true, false};
ghost use Rattle.std.specs.Option.{SomeIff};
ghost use Rattle.std.specs.Str.Parse.{IsNumeral, digits_value};
ghost use Rattle.serde_json.specs.Find.{as_i64};
ghost use Rattle.serde_json.specs.Read.{number_of, number_from, float_of};
ghost use Rattle.grid_value.specs.View.{number_view};

use fast_float::Numeral;

/// A number as `serde_json` reads it: whole, where it is written so and fits 64 bits, else the nearest float.
#[derive(Clone, Copy, Debug, Drop)]
pub enum Number {
    /// A whole number from 0 on.
    Unsigned(u64),
    /// A whole number below 0.
    Negative(i64),
    /// A finite float: what is written with a point or an exponent, is too large for 64 bits, or is `-0`.
    Float(f64),
}

impl Number {
    /// The number that a token of JSON writes, where it is in range.
    #[inline]
    pub fn parse(text: &str) -> Option<Number>
        ensures { option_map number_view result ≡ number_of text.now }
    {
        let bytes = text.as_bytes();
        match few_digits(bytes) {
            Some(number) => Some(Number::Unsigned(number)),
            None => Number::scan(bytes),
        }
    }

    /// The number that any text writes.
    fn scan(bytes: &[u8]) -> Option<Number>
        ensures { option_map number_view result ≡ number_of bytes.now }
    {
        if has_minus(bytes) {
            Number::negative(&Numeral::scan(&bytes[1..]))
        } else {
            Number::unsigned(&Numeral::scan(bytes))
        }
    }

    fn unsigned(numeral: &Numeral<'_>) -> Option<Number>
        ensures { option_map number_view result ≡ number_from false numeral.now }
    {
        match numeral.to_u64() {
            Some(number) => Some(Number::Unsigned(number)),
            None => Number::nearest(false, numeral),
        }
    }

    fn negative(numeral: &Numeral<'_>) -> Option<Number>
        ensures { option_map number_view result ≡ number_from true numeral.now }
    {
        if let Some(number) = numeral.to_i64(true) {
            if number < 0 {
                return Some(Number::Negative(number));
            }
        }
        Number::nearest(true, numeral)
    }

    fn nearest(negative: bool, numeral: &Numeral<'_>) -> Option<Number>
        ensures { option_map number_view result ≡ float_of negative numeral.now }
    {
        let float = numeral.to_float::<f64>(negative);
        if float.is_finite() {
            Some(Number::Float(float))
        } else {
            None
        }
    }

    /// The number that a token of JSON writes, where it is whole and fits 64 bits with a sign.
    #[inline]
    pub fn parse_i64(text: &str) -> Option<i64>
        ensures { result ≡ option_and_then as_i64 (number_of text.now) }
    {
        let bytes = text.as_bytes();
        match few_digits(bytes) {
            Some(number) => Some(number as i64),
            None => Number::scan(bytes)?.as_i64(),
        }
    }

    /// The number, where it is whole and fits 64 bits with a sign.
    pub fn as_i64(&self) -> Option<i64>
        ensures { result ≡ as_i64 (number_view self.now) }
    {
        match self {
            Number::Unsigned(number) => i64::try_from(*number).ok(),
            Number::Negative(number) => Some(*number),
            Number::Float(_) => None,
        }
    }
}

/// The number that one to eighteen digits write, as nearly all numbers of a job are written. None for any other text.
/// Ten to the eighteenth fits 64 bits with a sign, so that no size is looked at.
#[inline]
fn few_digits(bytes: &[u8]) -> Option<u64>
    ensures value { SomeIff result (IsNumeral 10 bytes.now × (length bytes.now ≤ 18)) (digits_value 10 bytes.now) }
    ensures small { IfSome result (λ number. number < 10 ^ 18) }
{
    if bytes.is_empty() || bytes.len() > 18 {
        return None;
    }
    let mut number = 0;
    'digits: for byte in bytes {
        let digit = byte.wrapping_sub(b'0');
        if digit > 9 {
            return None;
        }
        number = number * 10 + digit as u64;
    }
    Some(number)
}

fn has_minus(bytes: &[u8]) -> bool
    ensures value { result ≡ (slice_index bytes.now 0 == 45) }
    ensures some { IsTrue result → 0 < length bytes.now }
{
    !bytes.is_empty() && bytes[0] == b'-'
}
