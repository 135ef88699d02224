// Arrays.
ghost use Rattle.std.specs.Prelude.{◌∷◌, ℕ, List as Seq, true};
ghost use Rattle.std.specs.List.{flat_map};
ghost use Rattle.serde_json.specs.Data.{Data, string};
ghost use Rattle.serde_json.specs.Written.{compact_text};
ghost use Rattle.grid_print.specs.Objects.{array_of, natural};
ghost use Rattle.grid_jsonl.specs.Trees.{field_text};
ghost use Rattle.grid_report.specs.Puts.{Puts};

use crate::member::put_name;
use crate::string::put_string;
use grid_ids::{Id, Memory};
use grid_report::{Text, put_numbers};

/// What is put as a value of JSON.
pub trait Written {
    // The value.
    ghost written: { Self → Data };

    /// Puts the text of the value last. Where memory runs out, the text is empty.
    fn put(&self, out: &mut Text) -> Result<(), Memory>
        ensures { Puts out.old (compact_text (written self.now)) out.new result };

    /// Puts the text of each value last, behind a comma. Where memory runs out, the text is empty.
    fn put_others(out: &mut Text, items: &[Self]) -> Result<(), Memory>
        ensures { Puts out.old (flat_map (λ x. 44 ∷ compact_text (written x)) items.now) out.new result }
    {
        for item in items {
            out.put(",")?;
            item.put(out)?;
        }
        Ok(())
    }
}

/// What is put as a value of JSON that names the buses of a level by the level's id.
pub trait WrittenIn {
    // The value in the level with an id.
    ghost written_in: { Seq ℕ → Self → Data };

    /// Puts the text of the value in a level last. Where memory runs out, the text is empty.
    fn put_in(&self, out: &mut Text, level: &Id) -> Result<(), Memory>
        ensures { Puts out.old (compact_text (written_in level.now self.now)) out.new result };
}

impl Written for Id {
    ghost written = { string };

    fn put(&self, out: &mut Text) -> Result<(), Memory> {
        put_string(out, self.text())
    }
}

impl Written for u16 {
    ghost written = { natural };

    fn put(&self, out: &mut Text) -> Result<(), Memory> {
        out.put_unsigned(u64::from(*self))
    }

    // Sixteen are put at once.
    fn put_others(out: &mut Text, items: &[u16]) -> Result<(), Memory> {
        put_numbers(out, b',', items)
    }
}

/// Puts an array last. Where memory runs out, the text is empty.
pub fn put_items<T: Written>(out: &mut Text, items: &[T]) -> Result<(), Memory>
    ensures { Puts out.old (compact_text (array_of T.written items.now)) out.new result }
{
    match items {
        [] => out.put("[]"),
        [first, others @ ..] => {
            out.put("[")?;
            first.put(out)?;
            T::put_others(out, others)?;
            out.put("]")
        }
    }
}

/// Puts each item of a level behind a comma.
fn put_others_in<T: WrittenIn>(out: &mut Text, level: &Id, items: &[T]) -> Result<(), Memory>
    ensures { Puts out.old (flat_map (λ x. 44 ∷ compact_text (T.written_in level.now x)) items.now) out.new result }
{
    for item in items {
        out.put(",")?;
        item.put_in(out, level)?;
    }
    Ok(())
}

/// Puts an array of items of a level last. Where memory runs out, the text is empty.
pub fn put_items_in<T: WrittenIn>(out: &mut Text, level: &Id, items: &[T]) -> Result<(), Memory>
    ensures { Puts out.old (compact_text (array_of (T.written_in level.now) items.now)) out.new result }
{
    match items {
        [] => out.put("[]"),
        [first, others @ ..] => {
            out.put("[")?;
            first.put_in(out, level)?;
            put_others_in(out, level, others)?;
            out.put("]")
        }
    }
}

/// Puts a member that is an array, behind a comma. Where memory runs out, the text is empty.
#[inline(always)]
#[tactic(auto, unfolding(crate::specs::Trees::field_text))]
pub fn put_array<T: Written>(out: &mut Text, name: &str, items: &[T]) -> Result<(), Memory>
    ensures { Puts out.old (field_text true (name.now, array_of T.written items.now)) out.new result }
{
    put_name(out, name)?;
    put_items(out, items)
}

/// Puts a member that is an array of items of a level, behind a comma. Where memory runs out, the text is empty.
#[inline(always)]
#[tactic(auto, unfolding(crate::specs::Trees::field_text))]
pub fn put_array_in<T: WrittenIn>(
    out: &mut Text,
    name: &str,
    level: &Id,
    items: &[T],
) -> Result<(), Memory>
    ensures { Puts out.old (field_text true (name.now, array_of (T.written_in level.now) items.now)) out.new result }
{
    put_name(out, name)?;
    put_items_in(out, level, items)
}
