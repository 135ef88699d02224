// Whether bytes are JSON at all, which a pass over the tokens tells without memory.
ghost use Rattle.std.specs.Prelude.{◌≡◌, None, false, is_some, IfOk};
ghost use Rattle.grid_value.specs.Bytes.{spelled, reading};

use crate::read::MAX_DEPTH;
use json::{Reader, Scratch};
use std::alloc::AllocError;

/// Whether the bytes are text, and the text is one value by the grammar of JSON in which arrays and objects nest at
/// most `MAX_DEPTH` deep. The size of its numbers is not looked at: `serde_json` has no reading of `1e400`. The error
/// is memory that is wanting.
pub fn is_grammatical(bytes: &[u8], scratch: &mut Scratch) -> Result<bool, AllocError>
    ensures grammar { IfOk result (λ is_one. is_one ≡ is_some (spelled bytes.now)) }
    ensures broken { IfOk result (λ is_one. is_one ≡ false → reading bytes.now ≡ None) }
{
    let Ok(text) = std::str::from_utf8(bytes) else {
        return Ok(false);
    };
    let mut reader = Reader::new(text, scratch)?;
    let Ok(()) = reader.skip_value(MAX_DEPTH) else {
        return Ok(false);
    };
    match reader.next() {
        None => Ok(true),
        Some(_) => Ok(false),
    }
}
