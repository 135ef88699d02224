//! The level or the bus that an object of a job names in vain.

use crate::look::{Job, Seen};
use crate::walk::Walk;
use std::alloc::{AllocError, Global};

/// How many ends a branch has at most.
const MOST_ENDS: usize = 3;

/// Passes the next value, and tells whether it is an object of the id.
fn has_id(walk: &mut Walk<'_>, id: &str) -> bool {
    let mut has = false;
    if !walk.enters_object() {
        return false;
    }
    for _ in 0..u64::MAX {
        let Some(name) = walk.next_name() else {
            break;
        };
        if name == "id" {
            has = walk.passes_text(id);
        } else {
            walk.pass();
        }
    }
    has
}

/// Passes the next value, and tells where the first object of the id begins in it, where it is an array.
fn level_in(walk: &mut Walk<'_>, id: &str) -> Option<usize> {
    let mut found = None;
    if !walk.enters_array() {
        return None;
    }
    for _ in 0..u64::MAX {
        if !walk.is_at_item() {
            break;
        }
        let here = walk.here();
        if has_id(walk, id) {
            found = found.or(Some(here));
        }
    }
    found
}

/// Passes the next value, and tells where its level of the id begins, where it is a substation.
fn level_in_substation(walk: &mut Walk<'_>, id: &str) -> Option<usize> {
    let mut found = None;
    if !walk.enters_object() {
        return None;
    }
    for _ in 0..u64::MAX {
        let Some(name) = walk.next_name() else {
            break;
        };
        if name == "levels" {
            found = level_in(walk, id);
        } else {
            walk.pass();
        }
    }
    found
}

/// Where the level of the id begins in one of the first substations, where the next value is an array of these.
fn level_in_substations(walk: &mut Walk<'_>, substations: usize, id: &str) -> Option<usize> {
    if !walk.enters_array() {
        return None;
    }
    for _ in 0..substations {
        if !walk.is_at_item() {
            return None;
        }
        let level = level_in_substation(walk, id);
        if level.is_some() {
            return level;
        }
    }
    None
}

/// How many substations are loaded before the object, a branch.
fn substations_before(seen: &Seen<'_>) -> usize {
    match seen.above.parse::<usize>() {
        Ok(place) if seen.holder == "transformers" => place.saturating_add(1),
        _ => usize::MAX,
    }
}

/// The level of the id that is loaded before the object, a branch.
fn loaded_level(job: &mut Job<'_>, seen: &Seen<'_>, id: &str) -> Option<usize> {
    let network = job.network()?;
    if seen.is_configured() {
        let levels = job.member(network, "levels")?;
        return level_in(&mut job.walk(levels)?, id);
    }
    let all = job.member(network, "substations")?;
    level_in_substations(&mut job.walk(all)?, substations_before(seen), id)
}

/// A text of an end of a branch, by the end's position.
fn text_of_end(job: &mut Job<'_>, branch: usize, position: usize, name: &str) -> Option<usize> {
    let ends = job.member(branch, "ends")?;
    let end = job.item(ends, position)?;
    job.text_member(end, name)
}

/// The level at an end of a branch, by its side.
pub(crate) fn level_of_side(job: &mut Job<'_>, branch: usize, side: u8) -> Option<usize> {
    let position = usize::from(side).checked_sub(1)?;
    text_of_end(job, branch, position, "level")
}

/// A text of the job.
fn owned(alloc: Global, job: &mut Job<'_>, at: usize) -> Result<String, AllocError> {
    String::from_str(alloc, job.text(at).unwrap_or(""))
}

/// The level that an end of a branch names, with where it begins, if it is loaded before.
fn level_of_end(
    alloc: Global,
    job: &mut Job<'_>,
    seen: &Seen<'_>,
    position: usize,
) -> Result<Option<(usize, Option<usize>)>, AllocError> {
    let Some(named) = text_of_end(job, seen.value, position, "level") else {
        return Ok(None);
    };
    let id = owned(alloc, job, named)?;
    Ok(Some((named, loaded_level(job, seen, id.as_str()))))
}

/// The level that the first end of a branch names in vain.
pub(crate) fn missing_level(
    alloc: Global,
    job: &mut Job<'_>,
    seen: &Seen<'_>,
) -> Result<Option<usize>, AllocError> {
    for position in 0..MOST_ENDS {
        if let Some((named, None)) = level_of_end(alloc, job, seen, position)? {
            return Ok(Some(named));
        }
    }
    Ok(None)
}

/// The level with configured buses of which the first end of a branch names a node.
pub(crate) fn level_with_buses(
    alloc: Global,
    job: &mut Job<'_>,
    seen: &Seen<'_>,
) -> Result<Option<usize>, AllocError> {
    for position in 0..MOST_ENDS {
        if let Some((named, Some(level))) = level_of_end(alloc, job, seen, position)? {
            let is_by_bus = text_of_end(job, seen.value, position, "bus").is_some();
            if !is_by_bus && job.is_bus_level(level) {
                return Ok(Some(named));
            }
        }
    }
    Ok(None)
}

/// Whether a level with configured buses has a bus of the id.
fn has_bus(job: &mut Job<'_>, level: usize, id: &str) -> bool {
    let Some(buses) = job.member(level, "buses") else {
        return false;
    };
    let Some(mut walk) = job.walk(buses) else {
        return false;
    };
    if !walk.enters_array() {
        return false;
    }
    for _ in 0..u64::MAX {
        if !walk.is_at_item() {
            break;
        }
        if walk.passes_text(id) {
            return true;
        }
    }
    false
}

/// The bus that an end of a branch names and its level does not have. A level that is not there is left out.
fn missing_bus_of_end(
    alloc: Global,
    job: &mut Job<'_>,
    seen: &Seen<'_>,
    position: usize,
) -> Result<Option<usize>, AllocError> {
    let Some(bus) = text_of_end(job, seen.value, position, "bus") else {
        return Ok(None);
    };
    let Some((_, Some(level))) = level_of_end(alloc, job, seen, position)? else {
        return Ok(None);
    };
    let id = owned(alloc, job, bus)?;
    if has_bus(job, level, id.as_str()) {
        Ok(None)
    } else {
        Ok(Some(bus))
    }
}

/// The first bus that an end of a branch names in vain.
fn missing_bus_of_branch(
    alloc: Global,
    job: &mut Job<'_>,
    seen: &Seen<'_>,
) -> Result<Option<usize>, AllocError> {
    for position in 0..MOST_ENDS {
        if let Some(bus) = missing_bus_of_end(alloc, job, seen, position)? {
            return Ok(Some(bus));
        }
    }
    Ok(None)
}

/// The first configured bus that the object names in vain.
pub(crate) fn missing_bus(
    alloc: Global,
    job: &mut Job<'_>,
    seen: &Seen<'_>,
) -> Result<Option<usize>, AllocError> {
    if matches!(seen.holder, "lines" | "transformers") {
        return missing_bus_of_branch(alloc, job, seen);
    }
    for name in ["bus", "bus1", "bus2"] {
        if let Some(bus) = job.text_member(seen.value, name) {
            let id = owned(alloc, job, bus)?;
            if !has_bus(job, seen.grandparent, id.as_str()) {
                return Ok(Some(bus));
            }
        }
    }
    Ok(None)
}
