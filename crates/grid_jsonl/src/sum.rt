// Sums as JSON.
ghost use Rattle.std.specs.Prelude.{◌≡◌, ◌++◌, [], ◌∷◌};
ghost use Rattle.serde_json.specs.Written.{compact_text};
ghost use Rattle.grid_report.specs.Words.{signed};
ghost use Rattle.grid_jsonl.specs.Trees as trees;
ghost use Rattle.grid_jsonl.specs.Trees.{sum_value};
ghost use Rattle.grid_report.specs.Puts.{Puts};

use grid_ids::Memory;
use grid_report::Text;

/// Whether a sum has 64 bits.
#[tactic(auto, unfolding(crate::specs::Trees::has_64_bits))]
fn has_64_bits(sum: i128) -> bool
    ensures { result ≡ trees.has_64_bits sum }
{
    sum >= -0x8000_0000_0000_0000 && sum < 0x8000_0000_0000_0000
}

/// Puts the digits of a sum between quotes.
fn put_digits(out: &mut Text, sum: &i128) -> Result<(), Memory>
    ensures { Puts out.old (34 ∷ (signed sum.now ++ 34 ∷ [])) out.new result }
{
    out.put("\"")?;
    out.put_signed(sum)?;
    out.put("\"")
}

/// Puts a sum last: a number where it has 64 bits, and elsewhere a text of its digits. Where memory runs out, the
/// text is empty.
#[tactic(auto, using(crate::proofs::Plain::sum_number, crate::proofs::Plain::sum_digits))]
pub fn put_sum(out: &mut Text, sum: i128) -> Result<(), Memory>
    ensures { Puts out.old (compact_text (sum_value sum)) out.new result }
{
    if has_64_bits(sum) {
        return out.put_signed(&sum);
    }
    put_digits(out, &sum)
}
