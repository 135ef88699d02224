// Watts in one variant.
ghost use Rattle.std.specs.Prelude.{◌≡◌, length, OnErr, OnOk, IfOk};
ghost use Rattle.grid_core.specs.Machines.{IsMachine, IsSame, IsDead, StandsAt, Steps, WorksOn};
ghost use Rattle.grid_core.specs.Kept.{SameFlags};

use crate::machine::{Machine, Made, answer};
use crate::{Refusal, Reply, Request};
use grid_ids::{Id, Memory};
use grid_states::NodeWatts;
use grid_watts::{change_of, powered_at, watts_in};
use std::alloc::Global;

impl Machine {
    /// The watts of all loads, and of all generators and batteries, in the worker's variant.
    pub(crate) fn ask_totals(
        &self,
        alloc: Global,
        worker: u32,
        variant: &Id,
    ) -> Result<Made, Memory>
        requires held { IsMachine self.now }
        requires works { WorksOn self.now worker variant.now }
        ensures { IfOk result (Steps self.now self.now worker Request.Totals) }
    {
        let slot = match self.slot_of(variant) {
            Some(slot) => slot,
            None => return answer(alloc, Reply::Refused(Refusal::NoVariant)),
        };
        let states = self.slots.states(slot);
        let load = states.load();
        let generation = states.generation();
        answer(alloc, Reply::Totals { load, generation })
    }

    /// Gives a load, a generator or a battery these watts in the worker's variant.
    pub(crate) fn set_power(
        &mut self,
        alloc: Global,
        worker: u32,
        variant: &Id,
        id: &Id,
        watts: i64,
    ) -> Result<Made, Memory>
        requires held { IsMachine self.old }
        requires works { WorksOn self.old worker variant.now }
        ensures made { IfOk result (Steps self.old self.new worker
            (Request.SetPower id.now watts)) }
        ensures same { OnErr result (IsSame self.old self.new) }
        ensures flags { OnOk result (SameFlags self.old.slots self.new.slots) }
        ensures count { length self.new.working.items ≡ length self.old.working.items }
    {
        self.slots.keeps();
        let slot = match self.slot_of(variant) {
            Some(slot) => slot,
            None => return answer(alloc, Reply::Refused(Refusal::NoVariant)),
        };
        if self.structure.sides(id).is_none() {
            return answer(alloc, Reply::Refused(Refusal::NoEquipment));
        }
        let (level, placed) = match powered_at(&self.structure, id) {
            Some(found) => found,
            None => return answer(alloc, Reply::Refused(Refusal::NoPower)),
        };
        let former = watts_in(self.slots.states(slot), level, placed);
        if former == watts {
            return answer(alloc, Reply::Unchanged);
        }
        let made = answer(alloc, Reply::Done)?;
        let pair = NodeWatts {
            node: placed.node,
            watts,
        };
        let by = change_of(&placed.stand, former, watts);
        self.slots.set_watts(slot, level, pair, by)?;
        Ok(made)
    }
}
