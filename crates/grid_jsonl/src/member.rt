// The members of objects. Their names are literals at nearly every call: where it is inlined, no name is looked
// through.
ghost use Rattle.std.specs.Prelude.{◌∷◌, true, false};
ghost use Rattle.serde_json.specs.Data.{boolean, string};
ghost use Rattle.serde_json.specs.Written.{compact_text};
ghost use Rattle.grid_print.specs.Objects.{given, natural, whole};
ghost use Rattle.grid_jsonl.specs.Trees.{field_text, more_text, name_text, sum_value};
ghost use Rattle.grid_report.specs.Puts.{Puts};

use crate::string::{put_escaped, put_string};
use crate::sum::put_sum;
use grid_ids::{Id, Memory};
use grid_report::Text;

/// Puts a comma and the name of a member. Where memory runs out, the text is empty.
#[inline(always)]
#[tactic(auto, unfolding(crate::specs::Trees::name_text))]
pub fn put_name(out: &mut Text, name: &str) -> Result<(), Memory>
    ensures { Puts out.old (name_text true name.now) out.new result }
{
    put_escaped(out, ",\"", name, "\":")
}

/// Opens an object with a text. Where memory runs out, the text is empty.
#[inline(always)]
#[tactic(auto, unfolding(crate::specs::Trees::field_text, crate::specs::Trees::name_text))]
pub fn open_with(out: &mut Text, name: &str, text: &str) -> Result<(), Memory>
    ensures { Puts out.old (123 ∷ field_text false (name.now, string text.now)) out.new result }
{
    put_escaped(out, "{\"", name, "\":")?;
    put_string(out, text)
}

/// Opens an object with an id. Where memory runs out, the text is empty.
#[inline(always)]
pub fn open_id(out: &mut Text, name: &str, id: &Id) -> Result<(), Memory>
    ensures { Puts out.old (123 ∷ field_text false (name.now, string id.now)) out.new result }
{
    open_with(out, name, id.text())
}

/// Puts a member that is a text, behind a comma. Where memory runs out, the text is empty.
#[inline(always)]
#[tactic(auto, unfolding(crate::specs::Trees::field_text))]
pub fn put_text(out: &mut Text, name: &str, text: &str) -> Result<(), Memory>
    ensures { Puts out.old (field_text true (name.now, string text.now)) out.new result }
{
    put_name(out, name)?;
    put_string(out, text)
}

/// Puts a member that is an id, behind a comma. Where memory runs out, the text is empty.
#[inline(always)]
pub fn put_id(out: &mut Text, name: &str, id: &Id) -> Result<(), Memory>
    ensures { Puts out.old (field_text true (name.now, string id.now)) out.new result }
{
    put_text(out, name, id.text())
}

/// Puts a member that is a number, behind a comma. Where memory runs out, the text is empty.
#[inline(always)]
#[tactic(auto, unfolding(crate::specs::Trees::field_text))]
pub fn put_number(out: &mut Text, name: &str, number: u64) -> Result<(), Memory>
    ensures { Puts out.old (field_text true (name.now, natural number)) out.new result }
{
    put_name(out, name)?;
    out.put_unsigned(number)
}

/// Puts a whole number.
pub(crate) fn put_whole_number(out: &mut Text, number: &i64) -> Result<(), Memory>
    ensures { Puts out.old (compact_text (whole number.now)) out.new result }
{
    out.put_whole(number)
}

/// Puts a member that is a number, which may be below 0, behind a comma. Where memory runs out, the text is empty.
#[inline(always)]
#[tactic(auto, unfolding(crate::specs::Trees::field_text))]
pub fn put_whole(out: &mut Text, name: &str, number: &i64) -> Result<(), Memory>
    ensures { Puts out.old (field_text true (name.now, whole number.now)) out.new result }
{
    put_name(out, name)?;
    put_whole_number(out, number)
}

/// Puts a member that is a flag, behind a comma. Where memory runs out, the text is empty.
#[inline(always)]
#[tactic(auto, unfolding(crate::specs::Trees::field_text))]
pub fn put_flag(out: &mut Text, name: &str, flag: bool) -> Result<(), Memory>
    ensures { Puts out.old (field_text true (name.now, boolean flag)) out.new result }
{
    put_name(out, name)?;
    if flag {
        out.put("true")
    } else {
        out.put("false")
    }
}

/// Puts a member that is a number where it is given, behind a comma. Where memory runs out, the text is empty.
pub fn put_given(out: &mut Text, name: &str, number: &Option<i64>) -> Result<(), Memory>
    ensures { Puts out.old (more_text (given name.now whole number.now)) out.new result }
{
    match number {
        Some(number) => put_whole(out, name, number),
        None => Ok(()),
    }
}

/// Puts a member that is a sum, behind a comma. Where memory runs out, the text is empty.
#[inline(always)]
#[tactic(auto, unfolding(crate::specs::Trees::field_text))]
pub fn put_sum_of(out: &mut Text, name: &str, sum: &i128) -> Result<(), Memory>
    ensures { Puts out.old (field_text true (name.now, sum_value sum.now)) out.new result }
{
    put_name(out, name)?;
    put_sum(out, *sum)
}
