// Edits that add a branch.
ghost use Rattle.std.specs.Prelude.{◌∷◌, [], true, codes};
ghost use Rattle.serde_json.specs.Data.{string};
ghost use Rattle.serde_json.specs.Written.{compact_text};
ghost use Rattle.grid_print.specs.Network.{end_value};
ghost use Rattle.grid_print.specs.Objects.{array_of, whole};
ghost use Rattle.grid_print.specs.Command.{add_branch_value};
ghost use Rattle.grid_jsonl.specs.Trees.{field_text, more_text};
ghost use Rattle.grid_report.specs.Puts.{Puts};

use crate::items::Written;
use crate::member::{open_id, open_with, put_id, put_name, put_text, put_whole, put_whole_number};
use grid_ids::{Id, Memory};
use grid_report::Text;
use grid_structure::{Branch, End};

impl Written for i64 {
    ghost written = { whole };

    fn put(&self, out: &mut Text) -> Result<(), Memory> {
        put_whole_number(out, self)
    }
}

impl Written for End {
    ghost written = { end_value };

    fn put(&self, out: &mut Text) -> Result<(), Memory> {
        open_id(out, "level", &self.level)?;
        put_whole(out, "node", &self.node)?;
        out.put("}")
    }
}

/// Puts a member that is an array of two, behind a comma.
fn put_pair<T: Written>(out: &mut Text, name: &str, first: &T, second: &T) -> Result<(), Memory>
    ensures { Puts out.old
        (field_text true (name.now, array_of T.written (first.now ∷ second.now ∷ [])))
        out.new result }
{
    put_name(out, name)?;
    out.put("[")?;
    first.put(out)?;
    out.put(",")?;
    second.put(out)?;
    out.put("]")
}

/// Puts a member that is an array of three, behind a comma.
fn put_triple<T: Written>(
    out: &mut Text,
    name: &str,
    first: &T,
    second: &T,
    third: &T,
) -> Result<(), Memory>
    ensures { Puts out.old
        (field_text true (name.now, array_of T.written (first.now ∷ second.now ∷ third.now ∷ [])))
        out.new result }
{
    put_name(out, name)?;
    out.put("[")?;
    first.put(out)?;
    out.put(",")?;
    second.put(out)?;
    out.put(",")?;
    third.put(out)?;
    out.put("]")
}

/// Puts the id and the kind of a branch.
fn put_kind(out: &mut Text, id: &Id, word: &str) -> Result<(), Memory>
    ensures { Puts out.old
        (more_text ((codes "id", string id.now) ∷ (codes "kind", string word.now) ∷ []))
        out.new result }
{
    put_id(out, "id", id)?;
    put_text(out, "kind", word)
}

/// Puts the edit that adds a branch of this shape.
pub(crate) fn put_branch(out: &mut Text, id: &Id, shape: &Branch) -> Result<(), Memory>
    ensures { Puts out.old (compact_text (add_branch_value id.now shape.now)) out.new result }
{
    match shape {
        Branch::Line { end1, end2 } => {
            open_with(out, "do", "add_branch")?;
            put_pair(out, "ends", end1, end2)?;
            put_kind(out, id, "LINE")?;
            out.put("}")
        }
        Branch::TwoWindings {
            substation,
            end1,
            end2,
            rated_u1,
            rated_u2,
        } => {
            open_with(out, "do", "add_branch")?;
            put_pair(out, "ends", end1, end2)?;
            put_kind(out, id, "TWO_WINDINGS")?;
            put_pair(out, "rated_u", rated_u1, rated_u2)?;
            put_id(out, "substation", substation)?;
            out.put("}")
        }
        Branch::ThreeWindings {
            substation,
            end1,
            end2,
            end3,
            rated_u1,
            rated_u2,
            rated_u3,
        } => {
            open_with(out, "do", "add_branch")?;
            put_triple(out, "ends", end1, end2, end3)?;
            put_kind(out, id, "THREE_WINDINGS")?;
            put_triple(out, "rated_u", rated_u1, rated_u2, rated_u3)?;
            put_id(out, "substation", substation)?;
            out.put("}")
        }
    }
}
