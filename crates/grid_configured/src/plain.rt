// Plain ids.
ghost use Rattle.std.specs.Prelude.{◌≡◌};
ghost use Rattle.std.specs.List.{list_any};
ghost use Rattle.grid_value.specs.View.{view};
ghost use Rattle.grid_json.specs.Reading.{Gives};
ghost use Rattle.grid_configured.specs.Names as names;
ghost use Rattle.grid_configured.specs.Names.{is_mark};
ghost use Rattle.grid_configured.specs.Jobs.{plain_at};

use grid_ids::Id;
use grid_json::{Format, FromJson, ReadError, Reason};
use grid_value::Value;
use std::alloc::Global;

/// The most bytes that a plain id has.
const MOST_BYTES: usize = 100;

// Whether the text has the byte that the translation's own ids have.
fn has_mark(text: &str) -> bool
    ensures { result ≡ list_any is_mark text.now }
{
    text.bytes().any(|byte| byte == b'!')
}

/// Whether an id is plain: it has no byte `!`, and at most 100 bytes.
#[tactic(auto, unfolding(crate::specs::Names::is_plain))]
fn is_plain(id: &Id) -> bool
    ensures { result ≡ names.is_plain id.now }
{
    if has_mark(id.text()) {
        return false;
    }
    id.text().len() <= MOST_BYTES
}

/// An id, which must be plain.
#[tactic(auto, unfolding(crate::specs::Jobs::plain_at))]
pub(crate) fn read_plain(alloc: Global, value: &Value) -> Result<Id, ReadError>
    ensures { Gives result (plain_at (view value.now)) }
{
    let id = Id::from_json(alloc, Format::One, value)?;
    if is_plain(&id) {
        Ok(id)
    } else {
        Err(ReadError::here(alloc, Reason::Reserved))
    }
}
