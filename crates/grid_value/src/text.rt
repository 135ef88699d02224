// Whether texts are equal.
ghost use Rattle.std.specs.Prelude.{◌≡◌};
ghost use Rattle.std.specs.Str.{bytes_eq};

/// Whether the texts are equal. Most names differ in their lengths already or in their last bytes, which are looked at
/// before all bytes.
#[inline]
pub fn same_text(text: &str, other: &str) -> bool
    ensures { result ≡ bytes_eq text.now other.now }
{
    if text.len() != other.len() {
        return false;
    }
    let last = text.len().saturating_sub(1);
    text.as_bytes().get(last) == other.as_bytes().get(last) && text == other
}
