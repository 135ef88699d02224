// Plans of connecting and disconnecting, of a state by its parts.
ghost use Rattle.std.specs.Prelude.{◌≡◌, ◌<◌, Bool, IsTrue, List, IfOk, Some, length};
ghost use Rattle.grid_level.specs.Kept.{among};
ghost use Rattle.grid_level.specs.Passing.{nodes, positioned};
ghost use Rattle.grid_powers.specs.Listed.{Listed};
ghost use Rattle.grid_states.specs.Rows.{row_at};
ghost use Rattle.grid_bench.specs.Contents.{content};
ghost use Rattle.grid_bench.specs.Stores.{kept_for};
ghost use Rattle.grid_core.specs.Fitting.{RowsFit};
ghost use Rattle.grid_core.specs.Copied.{AreCopies};
ghost use Rattle.grid_core.specs.Solo.{state_seen};
ghost use Rattle.grid_core.specs.Verdicts as verdicts;
ghost use Rattle.grid_core.specs.Verdicts.{IsFound, operating, plan_verdict};

use crate::copies::Copies;
use crate::kept_levels::KeptLevels;
use crate::{Reply, Request, Verdict, find_site};
use grid_bench::Bench;
use grid_connect::{ConnectPlan, DisconnectPlan, plan_connect, plan_disconnect};
use grid_ids::{Id, Memory};
use grid_level::Level;
use grid_shared::Shared;
use grid_states::States;
use grid_structure::{Site, Structure};
use std::alloc::Global;

/// What a plan that connects a terminal comes to, in the level at this place.
#[tactic(auto, unfolding(crate::specs::Verdicts::connect_verdict))]
pub fn connect_verdict(level: u32, plan: ConnectPlan) -> Verdict
    ensures { result ≡ verdicts.connect_verdict level plan }
{
    match plan {
        ConnectPlan::Close(places) => Verdict::Switches {
            level,
            places,
            opened: false,
        },
        ConnectPlan::AlreadyConnected => Verdict::Stays(Reply::AlreadyConnected),
        ConnectPlan::NoPath => Verdict::Stays(Reply::NoPath),
    }
}

/// What a plan that disconnects a terminal comes to, in the level at this place.
#[tactic(auto, unfolding(crate::specs::Verdicts::disconnect_verdict))]
pub fn disconnect_verdict(level: u32, plan: DisconnectPlan) -> Verdict
    ensures { result ≡ verdicts.disconnect_verdict level plan }
{
    match plan {
        DisconnectPlan::Opens(places) => Verdict::Switches {
            level,
            places,
            opened: true,
        },
        DisconnectPlan::AlreadyDisconnected => Verdict::Stays(Reply::AlreadyDisconnected),
        DisconnectPlan::NoBreaker(terminal) => Verdict::Stays(Reply::NoBreaker(terminal)),
    }
}

/// A terminal that a request operates: it is disconnected, by opening switches, or else connected, by closing some.
#[derive(Clone, Copy)]
pub(crate) struct Operated<'a> {
    pub(crate) id: &'a Id,
    pub(crate) side: i64,
    pub(crate) opening: bool,
}

impl<'a> Operated<'a> {
    /// The terminal of a side of an equipment, which is to be connected.
    pub(crate) fn to_connect(id: &'a Id, side: i64) -> Operated<'a>
        ensures { operating result.id.now result.side result.opening ≡ Request.Connect id.now side }
    {
        Operated {
            id,
            side,
            opening: false,
        }
    }

    /// The terminal of a side of an equipment, which is to be disconnected.
    pub(crate) fn to_disconnect(id: &'a Id, side: i64) -> Operated<'a>
        ensures { operating result.id.now result.side result.opening ≡ Request.Disconnect id.now side }
    {
        Operated {
            id,
            side,
            opening: true,
        }
    }
}

// What the plan for the terminal at a site comes to, where a bench keeps the level with the flags of these states.
fn plan_kept(
    bench: &Bench,
    level: &Shared<Level>,
    states: &States,
    at: Site,
    opening: bool,
) -> Result<Verdict, Memory>
    requires below { at.level < length states.now.opened }
    requires opened { length (row_at states.now.opened at.level) ≡ length level.now.switches }
    requires retained { length (row_at states.now.retained at.level) ≡ length level.now.switches }
    requires kept { kept_for bench.now level.now.id
        ≡ Some (content level.now (row_at states.now.opened at.level) (row_at states.now.retained
        at.level)) }
    requires node { IsTrue (among (nodes level.now) at.node) }
    ensures { IfOk result (λ verdict. verdict ≡ plan_verdict opening at.level
        (positioned level.now (row_at states.now.opened at.level)) at.node) }
{
    let opened = states.opened_row(at.level);
    let retained = states.retained_row(at.level);
    let level = level.get();
    if opening {
        let plan = bench.disconnect_kept(level, opened, retained, at.node)?;
        Ok(disconnect_verdict(at.level, plan))
    } else {
        let plan = bench.connect_kept(level, opened, retained, at.node)?;
        Ok(connect_verdict(at.level, plan))
    }
}

// What the plan for the terminal at a site comes to, where no bench keeps the level.
fn plan_anew(
    alloc: Global,
    level: &Level,
    states: &States,
    at: Site,
    opening: bool,
) -> Result<Verdict, Memory>
    requires below { at.level < length states.now.opened }
    requires opened { length (row_at states.now.opened at.level) ≡ length level.now.switches }
    requires node { IsTrue (among (nodes level.now) at.node) }
    ensures { IfOk result (λ verdict. verdict ≡ plan_verdict opening at.level
        (positioned level.now (row_at states.now.opened at.level)) at.node) }
{
    let opened = states.opened_row(at.level);
    if opening {
        let plan = plan_disconnect(alloc, level, opened, at.node)?;
        Ok(disconnect_verdict(at.level, plan))
    } else {
        let plan = plan_connect(alloc, level, opened, at.node)?;
        Ok(connect_verdict(at.level, plan))
    }
}

/// A terminal is connected or disconnected; whatever is retained and listed.
pub(crate) fn operate_found(
    structure: &Structure,
    states: &States,
    operated: Operated,
    levels: &mut KeptLevels,
    copies: &mut Copies,
) -> Result<Verdict, Memory>
    requires opened { RowsFit structure.now states.now.opened }
    requires retained { RowsFit structure.now states.now.retained }
    requires copies { AreCopies structure.now copies.old }
    ensures found { IfOk result (λ verdict. (retained : List (List Bool)) (powers : Listed)
        → IsFound (state_seen structure.now states.now.opened retained powers)
        (operating operated.entry.id.now operated.entry.side operated.entry.opening) verdict) }
    ensures copies { AreCopies structure.now copies.new }
{
    let at = match find_site(structure, operated.id, operated.side) {
        Ok(at) => at,
        Err(refusal) => return Ok(Verdict::Stays(Reply::Refused(refusal))),
    };
    let found = structure.level(at.level);
    found.keeps();
    match levels.keep(structure, states, at.level, copies)? {
        Some(level) => plan_kept(&levels.bench, &level, states, at, operated.opening),
        None => plan_anew(levels.bench.alloc(), found, states, at, operated.opening),
    }
}
