// A network's levels and lines, each behind the earlier ones.
ghost use Rattle.std.specs.Prelude.{◌≤◌, [], ◌∷◌, ◌++◌, List, OnOk, codes};
ghost use Rattle.grid_json.specs.Reading.{Gives};
ghost use Rattle.grid_configured.specs.declared.network.ConfiguredLevel.{ConfiguredLevel as LevelAt};
ghost use Rattle.grid_configured.specs.declared.network.ConfiguredLine.{ConfiguredLine as LineAt};
ghost use Rattle.grid_configured.specs.Checks.{each_check, ids_of, level_check, line_check, line_ends, line_ids, list_check, network_check};
ghost use Rattle.grid_configured.specs.Standing.{Stands};

use crate::network::{ConfiguredLevel, ConfiguredLine, ConfiguredNetwork};
use crate::reasons::check_id;
use crate::standing::Standing;
use grid_json::ReadError;
use std::alloc::Global;

// Each level, at its position.
fn check_levels(
    alloc: Global,
    standing: &mut Standing,
    levels: &[ConfiguredLevel],
) -> Result<(), ReadError>
    requires none { Stands [] [] [] standing.old }
    requires few { standing.old.switches ≤ 200000 }
    ensures check { Gives result (each_check level_check [] 0 levels.now) }
    ensures stands { OnOk result (Stands (ids_of levels.now) levels.now [] standing.new) }
{
    for (i, level) in levels.iter().enumerate() {
        match standing.check_level(alloc, i, level) {
            Ok(()) => {}
            Err(e) => return Err(e.under_position(alloc, i)),
        }
    }
    Ok(())
}

// A line behind the earlier ones: its id, then its ends.
fn check_line(
    alloc: Global,
    standing: &mut Standing,
    line: &ConfiguredLine,
) -> Result<(), ReadError>
    ensures check { (levels : List LevelAt) (earlier : List LineAt)
        → Stands (ids_of levels ++ line_ids earlier) levels (line_ends earlier) standing.old
        → Gives result (line_check levels earlier line.now) }
    ensures stands { OnOk result ((levels : List LevelAt) (earlier : List LineAt)
        → Stands (ids_of levels ++ line_ids earlier) levels (line_ends earlier) standing.old
        → Stands (ids_of levels ++ line_ids (earlier ++ line.now ∷ [])) levels
        (line_ends (earlier ++ line.now ∷ [])) standing.new) }
{
    check_id(alloc, &mut standing.ids, &line.id)?;
    standing.check_end(alloc, &line.end1)?;
    standing.check_end(alloc, &line.end2)
}

// Each line, at its position, where all levels stand.
fn check_lines(
    alloc: Global,
    standing: &mut Standing,
    network: &ConfiguredNetwork,
) -> Result<(), ReadError>
    requires { Stands (ids_of network.now.levels) network.now.levels [] standing.old }
    ensures { Gives result (each_check (line_check network.now.levels) [] 0 network.now.lines) }
{
    let lines = network.lines.slice();
    for (i, line) in lines.iter().enumerate() {
        match check_line(alloc, standing, line) {
            Ok(()) => {}
            Err(e) => return Err(e.under_position(alloc, i)),
        }
    }
    Ok(())
}

// The levels under their name.
fn check_levels_under(
    alloc: Global,
    standing: &mut Standing,
    network: &ConfiguredNetwork,
) -> Result<(), ReadError>
    requires none { Stands [] [] [] standing.old }
    requires few { standing.old.switches ≤ 200000 }
    ensures check { Gives result (list_check level_check (codes "levels") network.now.levels) }
    ensures stands { OnOk result (Stands (ids_of network.now.levels) network.now.levels []
        standing.new) }
{
    match check_levels(alloc, standing, network.levels.slice()) {
        Ok(()) => Ok(()),
        Err(e) => Err(e.under(alloc, "levels")),
    }
}

// The lines under their name.
fn check_lines_under(
    alloc: Global,
    standing: &mut Standing,
    network: &ConfiguredNetwork,
) -> Result<(), ReadError>
    requires { Stands (ids_of network.now.levels) network.now.levels [] standing.old }
    ensures { Gives result (list_check (line_check network.now.levels) (codes "lines")
        network.now.lines) }
{
    match check_lines(alloc, standing, network) {
        Ok(()) => Ok(()),
        Err(e) => Err(e.under(alloc, "lines")),
    }
}

/// The levels in order, each with what stands in it, then the lines: no fault, or the first one at its place.
#[tactic(auto, unfolding(crate::specs::Checks::network_check))]
pub(crate) fn check_network(alloc: Global, network: &ConfiguredNetwork) -> Result<(), ReadError>
    ensures { Gives result (network_check network.now) }
{
    let mut standing = Standing::empty(alloc);
    check_levels_under(alloc, &mut standing, network)?;
    check_lines_under(alloc, &mut standing, network)
}
