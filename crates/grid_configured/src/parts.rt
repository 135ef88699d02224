// The parts of a network with configured buses from JSON.

use crate::lists::{Each, PlainId, Reader, read_member};
use crate::network::{ConfiguredLevel, ConfiguredLine, ConfiguredNetwork};
use grid_json::{
    BusEnd, BusInjection, BusSwitch, Format, FromJson, ReadError, Two, item_of, member,
    names_of_bus_injection, object, only,
};
use grid_value::Value;
use std::alloc::Global;

/// Reads a switch, whose flag must be there.
struct SwitchReader;

impl Reader for SwitchReader {
    ghost use Rattle.grid_configured.specs.Jobs.{bus_switch_at};

    type Item = BusSwitch;

    ghost reads = { bus_switch_at };

    #[tactic(auto, unfolding(crate::specs::Jobs::bus_switch_at))]
    fn read(alloc: Global, value: &Value) -> Result<BusSwitch, ReadError> {
        only(alloc, value, &["id", "bus1", "bus2", "open"])?;
        let id = read_member::<PlainId>(alloc, value, "id")?;
        let bus1 = read_member::<PlainId>(alloc, value, "bus1")?;
        let bus2 = read_member::<PlainId>(alloc, value, "bus2")?;
        let opened = member(alloc, Format::One, value, "open")?;
        Ok(BusSwitch {
            id,
            bus1,
            bus2,
            opened,
        })
    }
}

/// Reads an injection, whose flag must be there. It may be of each kind of the fourth format.
struct InjectionReader;

impl Reader for InjectionReader {
    ghost use Rattle.grid_configured.specs.Jobs.{injection_at};

    type Item = BusInjection;

    ghost reads = { injection_at };

    #[tactic(auto, unfolding(crate::specs::Jobs::injection_at))]
    fn read(alloc: Global, value: &Value) -> Result<BusInjection, ReadError> {
        object(alloc, value)?;
        let kind = member(alloc, Format::Four, value, "kind")?;
        only(alloc, value, names_of_bus_injection(kind))?;
        let id = read_member::<PlainId>(alloc, value, "id")?;
        let bus = read_member::<PlainId>(alloc, value, "bus")?;
        let connected = member(alloc, Format::Four, value, "connected")?;
        let item = item_of(alloc, Format::Four, kind, value)?;
        Ok(BusInjection {
            id,
            bus,
            connected,
            item,
        })
    }
}

impl FromJson for ConfiguredLevel {
    ghost use Rattle.grid_configured.specs.Jobs.{level_at};

    ghost reads = { λ _. level_at };

    #[tactic(auto, unfolding(crate::specs::Jobs::level_at))]
    fn from_json(
        alloc: Global,
        format: Format,
        value: &Value,
    ) -> Result<ConfiguredLevel, ReadError> {
        only(
            alloc,
            value,
            &["id", "nominal_v", "buses", "switches", "injections"],
        )?;
        let id = read_member::<PlainId>(alloc, value, "id")?;
        let nominal_v = member(alloc, format, value, "nominal_v")?;
        let buses = read_member::<Each<PlainId>>(alloc, value, "buses")?;
        let switches = read_member::<Each<SwitchReader>>(alloc, value, "switches")?;
        let items = read_member::<Each<InjectionReader>>(alloc, value, "injections")?;
        Ok(ConfiguredLevel {
            id,
            nominal_v,
            buses,
            switches,
            items,
        })
    }
}

/// An end whose ids are plain, and whose flag must be there.
#[derive(Drop)]
pub(crate) struct PlainEnd {
    end: BusEnd,
}

impl FromJson for PlainEnd {
    ghost use Rattle.grid_configured.specs.Jobs.{end_at};

    ghost reads = { λ _. end_at };

    #[tactic(auto, unfolding(crate::specs::Jobs::end_at))]
    fn from_json(alloc: Global, format: Format, value: &Value) -> Result<PlainEnd, ReadError> {
        only(alloc, value, &["level", "bus", "connected"])?;
        let level = read_member::<PlainId>(alloc, value, "level")?;
        let bus = read_member::<PlainId>(alloc, value, "bus")?;
        let connected = member(alloc, format, value, "connected")?;
        let end = BusEnd {
            level,
            bus,
            connected,
        };
        Ok(PlainEnd { end })
    }
}

impl FromJson for ConfiguredLine {
    ghost use Rattle.grid_configured.specs.Jobs.{line_at};

    ghost reads = { λ _. line_at };

    #[tactic(auto, unfolding(crate::specs::Jobs::line_at))]
    fn from_json(
        alloc: Global,
        format: Format,
        value: &Value,
    ) -> Result<ConfiguredLine, ReadError> {
        only(alloc, value, &["id", "ends"])?;
        let id = read_member::<PlainId>(alloc, value, "id")?;
        let ends: Two<PlainEnd> = member(alloc, format, value, "ends")?;
        Ok(ConfiguredLine {
            id,
            end1: ends.first.end,
            end2: ends.second.end,
        })
    }
}

impl FromJson for ConfiguredNetwork {
    ghost use Rattle.grid_configured.specs.Jobs.{network_at};

    ghost reads = { λ _. network_at };

    #[tactic(auto, unfolding(crate::specs::Jobs::network_at))]
    fn from_json(
        alloc: Global,
        format: Format,
        value: &Value,
    ) -> Result<ConfiguredNetwork, ReadError> {
        only(alloc, value, &["id", "levels", "lines"])?;
        let id = read_member::<PlainId>(alloc, value, "id")?;
        let levels = member(alloc, format, value, "levels")?;
        let lines = member(alloc, format, value, "lines")?;
        Ok(ConfiguredNetwork { id, levels, lines })
    }
}
