// HVDC lines against the loaded network and against each other.
ghost use Rattle.std.specs.Prelude.{◌∷◌, ◌++◌, [], OnOk};
ghost use Rattle.grid_json.specs.Reading.{Gives};
ghost use Rattle.grid_json.specs.Seen.{Knows};
ghost use Rattle.grid_hvdc.specs.Checks.{station_check, id_check, line_check, lines_check};

use crate::HvdcLine;
use crate::stations::find_station;
use grid_ids::Id;
use grid_json::{ReadError, Reason, SeenIds};
use grid_structure::Structure;
use std::alloc::Global;

/// What earlier lines have named.
#[derive(Drop)]
pub(crate) struct Named {
    /// The lines by their ids.
    pub ids: SeenIds,
    /// Their converter stations.
    pub stations: SeenIds,
}

// A line's side names a converter station that no earlier line or side names.
#[tactic(auto, unfolding(crate::specs::Checks::station_check))]
fn check_station(
    stations: &mut SeenIds,
    alloc: Global,
    structure: &Structure,
    side: u8,
    id: &Id,
) -> Result<(), ReadError>
    ensures check { Gives result (station_check structure.now side stations.old id.now) }
    ensures named { OnOk result (Knows stations.new (stations.old ++ id.now ∷ [])) }
{
    if find_station(structure, id).is_none() {
        return Err(ReadError::here(alloc, Reason::NoStation { side }));
    }
    if stations.add(id)? {
        Ok(())
    } else {
        Err(ReadError::here(alloc, Reason::StationUsed { side }))
    }
}

// No thing of the network and no earlier line has the line's id.
#[tactic(auto, unfolding(crate::specs::Checks::id_check))]
fn check_id(
    ids: &mut SeenIds,
    alloc: Global,
    structure: &Structure,
    id: &Id,
) -> Result<(), ReadError>
    ensures check { Gives result (id_check structure.now ids.old id.now) }
    ensures named { OnOk result (Knows ids.new (ids.old ++ id.now ∷ [])) }
{
    if structure.taken(id) {
        return Err(ReadError::here(alloc, Reason::HvdcIdTaken));
    }
    if ids.add(id)? {
        Ok(())
    } else {
        Err(ReadError::here(alloc, Reason::HvdcIdTaken))
    }
}

impl Named {
    // A line after those that are named: its id, then its stations by side.
    #[tactic(auto, unfolding(crate::specs::Checks::line_check))]
    fn check_line(
        &mut self,
        alloc: Global,
        structure: &Structure,
        line: &HvdcLine,
    ) -> Result<(), ReadError>
        ensures check { Gives result (line_check structure.now self.old.ids self.old.stations
            line.now) }
        ensures ids { OnOk result (Knows self.new.ids (self.old.ids ++ line.now.id ∷ [])) }
        ensures stations { OnOk result (Knows self.new.stations ((self.old.stations
            ++ line.now.station1 ∷ []) ++ line.now.station2 ∷ [])) }
    {
        check_id(&mut self.ids, alloc, structure, &line.id)?;
        check_station(&mut self.stations, alloc, structure, 1, &line.station1)?;
        check_station(&mut self.stations, alloc, structure, 2, &line.station2)
    }
}

/// The lines one after the other, each at its position.
pub(crate) fn check_lines(
    alloc: Global,
    structure: &Structure,
    lines: &[HvdcLine],
) -> Result<(), ReadError>
    ensures { Gives result (lines_check structure.now [] 0 lines.now) }
{
    let mut named = Named {
        ids: SeenIds::empty(alloc),
        stations: SeenIds::empty(alloc),
    };
    for (i, line) in lines.iter().enumerate() {
        match named.check_line(alloc, structure, line) {
            Ok(()) => {}
            Err(e) => return Err(e.under_position(alloc, i)),
        }
    }
    Ok(())
}
