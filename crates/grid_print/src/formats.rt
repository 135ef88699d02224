// The least format of a job.
ghost use Rattle.std.specs.Prelude.{◌≡◌};
ghost use Rattle.std.specs.List.{list_any};
ghost use Rattle.grid_print.specs.Formats as formats;
ghost use Rattle.grid_print.specs.Formats.{least_format, needs};

use grid_json::Verb;
use grid_kinds::Injection;
use grid_level::{Level, Placed, Stand};
use grid_requests::{Request, Script};
use grid_structure::{Edit, Structure};

/// The format that a kind of injections came with.
#[tactic(auto, unfolding(crate::specs::Formats::item_format))]
fn item_format(item: &Injection) -> u32
    ensures { result ≡ formats.item_format item.now }
{
    match item {
        Injection::Load { .. }
        | Injection::Generator { .. }
        | Injection::Battery { .. }
        | Injection::ShuntCompensator { .. }
        | Injection::StaticVarCompensator { .. } => 1,
        Injection::ConverterStation { .. } => 4,
    }
}

/// The format that what stands at a node came with.
#[tactic(auto, unfolding(crate::specs::Formats::stand_format))]
fn placed_format(placed: &Placed) -> u32
    ensures { result ≡ formats.stand_format placed.now.stand }
{
    match &placed.stand {
        Stand::Busbar | Stand::BranchEnd => 1,
        Stand::Feeder(item) => item_format(item),
    }
}

/// Whether some injection of a level came with this format or a later one.
#[tactic(auto, unfolding(crate::specs::Formats::level_needs))]
fn level_needs(level: &Level, format: u32) -> bool
    ensures { result ≡ formats.level_needs format level.now }
{
    level
        .placed()
        .iter()
        .any(|placed| format <= placed_format(placed))
}

/// Whether some injection of a network did.
fn network_needs(network: &Structure, format: u32) -> bool
    ensures { result ≡ formats.network_needs format network.now }
{
    for place in 0..network.level_count() {
        if level_needs(network.level(place), format) {
            return true;
        }
    }
    false
}

/// The format that the words of a command came with: its verb, and the kind of an injection that it adds.
#[tactic(auto, unfolding(crate::specs::Formats::first_format, crate::specs::Formats::edit_format))]
fn first_format(request: &Request) -> u32
    ensures { result ≡ formats.first_format request.now }
{
    match request {
        Request::Change {
            edit: Edit::AddInjection { item, .. },
        } => item_format(item),
        other => Verb::of(other).since(),
    }
}

/// Whether some word of a script came with this format or a later one.
#[tactic(auto, unfolding(crate::specs::Formats::needs))]
fn script_needs(script: &Script, format: u32) -> bool
    ensures { result ≡ needs format script.now }
{
    script
        .slice()
        .iter()
        .any(|request| format <= first_format(request))
}

fn some_need(scripts: &[Script], format: u32) -> bool
    ensures { result ≡ list_any (needs format) scripts.now }
{
    scripts.iter().any(|script| script_needs(script, format))
}

/// The least format that has the words of a job.
#[tactic(auto, unfolding(crate::specs::Formats::least_format))]
pub(crate) fn format_of(network: &Structure, scripts: &[Script]) -> u32
    ensures { result ≡ least_format network.now scripts.now }
{
    if network_needs(network, 4) || some_need(scripts, 4) {
        return 4;
    }
    if some_need(scripts, 3) {
        return 3;
    }
    if some_need(scripts, 2) { 2 } else { 1 }
}
