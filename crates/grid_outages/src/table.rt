// Places by level: for each level those at which one of two ends is there.
ghost use Rattle.std.specs.Prelude.{◌≡◌, ◌++◌, ◌∷◌, [], ℕ, ◌<◌, ◌^◌, IfOk, OnOk, length, slice_set, if◌then◌else◌};
ghost use Rattle.std.specs.List.{slice_index_or};
ghost use Rattle.grid_graph.specs.Graph.{EndsBelow};
ghost use Rattle.grid_outages.specs.Tables.{end_places, is_end};

use grid_ids::{Memory, Seq};
use std::alloc::Global;

/// For each level the places that it has.
pub(crate) type Table = Seq<Seq<u32>>;

// A list of nothing for each level.
fn empty_rows(alloc: Global, count: u32) -> Result<Vec<Seq<u32>>, Memory>
    ensures long { IfOk result (λ rows. length rows.items ≡ count) }
    ensures none { IfOk result (λ rows. (level : ℕ) → slice_index_or rows.items level [] ≡ []) }
{
    let mut rows = Vec::with_capacity(alloc, count as usize)?;
    for _level in 0..count {
        rows.push(Seq::empty(alloc))?;
    }
    Ok(rows)
}

// Puts a place last in the list of a level.
fn push_place(rows: &mut Vec<Seq<u32>>, level: u32, place: u32) -> Result<(), Memory>
    requires { level < length rows.old.items }
    ensures { OnOk result (rows.new.items ≡ slice_set rows.old.items level
        (slice_index_or rows.old.items level [] ++ place ∷ [])) }
{
    rows[level as usize].push(place)
}

// Puts a place last in the lists of the levels of two ends.
fn push_ends(rows: &mut Vec<Seq<u32>>, ends: (u32, u32), place: u32) -> Result<(), Memory>
    requires first { ends.0 < length rows.old.items }
    requires second { ends.1 < length rows.old.items }
    ensures long { OnOk result (length rows.new.items ≡ length rows.old.items) }
    ensures each { OnOk result ((level : ℕ) → slice_index_or rows.new.items level []
        ≡ slice_index_or rows.old.items level []
        ++ (if is_end level ends then place ∷ [] else [])) }
{
    let (first, second) = ends;
    push_place(rows, first, place)?;
    if first != second {
        push_place(rows, second, place)?;
    }
    Ok(())
}

// The count of a list, where it is below 2^32.
fn narrow(count: usize) -> Result<u32, Memory>
    ensures value { IfOk result (λ number. number ≡ count) }
    ensures few { IfOk result (λ number. number < 2 ^ 32) }
{
    match u32::try_from(count) {
        Ok(number) => Ok(number),
        Err(_) => Err(Memory),
    }
}

/// For each level the places at which one of two ends is there. It is out of memory, too, where there are 2^32 of
/// them.
pub(crate) fn places_by_level(
    alloc: Global,
    count: u32,
    ends: &[(u32, u32)],
) -> Result<Table, Memory>
    requires { EndsBelow ends.now count }
    ensures { IfOk result (λ table. table ≡ end_places count ends.now) }
{
    let many = narrow(ends.len())?;
    let mut rows = empty_rows(alloc, count)?;
    for place in 0..many {
        push_ends(&mut rows, ends[place as usize], place)?;
    }
    Ok(Seq::from_vec(rows))
}
