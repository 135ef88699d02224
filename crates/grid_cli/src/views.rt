// The views that a history leaves: of each level in each live variant.
ghost use Rattle.std.specs.Prelude.{◌≡◌, ◌↔◌, ◌<◌, ◌^◌, All, length, IsTrue, IfOk, IfSome, Some, slice_get, option_map};
ghost use Rattle.grid_structure.specs.Sites.{levels};
ghost use Rattle.grid_powers.specs.Listed.{Listed};
ghost use Rattle.grid_states.specs.Rows.{pairs_at};
ghost use Rattle.grid_watts.specs.Nodes.{listed_row};
ghost use Rattle.grid_watts.specs.Watts.{level_watts};
ghost use Rattle.grid_core.specs.History.{live, is_live, structure};
ghost use Rattle.grid_core.specs.Replies as replies;
ghost use Rattle.grid_report.specs.Histories.{variant_view, variant_views};
ghost use Rattle.grid_cli.specs.Views.{IsShown, IsBeside, IsAlike};

use grid_busview::BusView;
use grid_core::World;
use grid_ids::{Duplicate, Id, Memory, Seq, same_items};
use grid_level::Level;
use grid_report::{BusViews, VariantView, VariantViews};
use grid_shared::Shared;
use grid_states::{NodeWatts, States};
use grid_watts::next_watts;
use std::alloc::Global;

/// Whether two rows give a level's terminals the same watts: one pass over all three, by rising node. Where nothing is
/// listed, nothing is read.
fn same_watts(level: &Level, row: &[NodeWatts], others: &[NodeWatts]) -> bool
    ensures { (listed other_listed : Listed) → row.now ≡ listed_row listed level.now
        → others.now ≡ listed_row other_listed level.now
        → IsTrue result ↔ (level_watts listed level.now ≡ level_watts other_listed level.now) }
{
    if row.is_empty() && others.is_empty() {
        return true;
    }
    level.keeps();
    let mut behind = row;
    let mut others_behind = others;
    for placed in level.placed() {
        let (watts, rest) = next_watts(placed, behind);
        let (other_watts, others_rest) = next_watts(placed, others_behind);
        if watts != other_watts {
            return false;
        }
        behind = rest;
        others_behind = others_rest;
    }
    true
}

/// Whether a level has the same positions and watts in two variants.
fn is_alike(level: &Level, place: u32, one: &States, other: &States) -> bool
    requires one { place < length one.now.opened }
    requires other { place < length other.now.opened }
    ensures { (listed other_listed : Listed)
        → pairs_at one.now.watts place ≡ listed_row listed level.now
        → pairs_at other.now.watts place ≡ listed_row other_listed level.now
        → IsTrue result ↔ IsAlike one.now.opened listed other.now.opened other_listed place level.now }
{
    same_items(one.opened_row(place), other.opened_row(place))
        && same_watts(level, one.watts_row(place), other.watts_row(place))
}

/// A live variant of a world beside an earlier one, each with what it has of the levels.
#[derive(Clone, Copy)]
struct Beside<'a> {
    world: &'a World,
    name: &'a Id,
    own: &'a States,
    earlier: &'a VariantView,
    other: &'a States,
}

/// The view of the level at a place in a live variant: that in an earlier one, where the level is alike there.
fn level_view(alloc: Global, both: &Beside<'_>, place: u32) -> Result<Shared<BusView>, Memory>
    requires both { IsBeside both.now }
    requires place { place < length (levels (structure both.now.world.now.origin both.now.world.now.steps)) }
    ensures { IfOk result (λ view. replies.view both.now.world.now.origin both.now.world.now.steps
        both.now.name.now place ≡ Some view) }
{
    let Beside {
        world,
        name,
        own,
        earlier,
        other,
    } = *both;
    if is_alike(world.structure().level(place), place, own, other) {
        return earlier.views.slice()[place as usize].copy();
    }
    let view = world.view(name, place)?;
    Shared::new(alloc, view)
}

/// The view of each level in a live variant, by place, beside those of an earlier one.
fn views_beside(
    alloc: Global,
    world: &World,
    name: &Id,
    earlier: &VariantView,
) -> Result<BusViews, Memory>
    requires live { IsTrue (is_live world.now.steps name.now) }
    requires shown { IsShown world.now earlier.now }
    ensures views { IfOk result (λ views. views
        ≡ (variant_view world.now.origin world.now.steps name.now).views) }
    ensures few { IfOk result (λ views. length views < 2 ^ 32) }
{
    let both = Beside {
        world,
        name,
        own: world.states_in(name),
        earlier,
        other: world.states_in(&earlier.name),
    };
    let mut views = Seq::empty(alloc);
    for level in 0..world.level_count() {
        let view = level_view(alloc, &both, level)?;
        views.push(view)?;
    }
    Ok(views)
}

/// The view of each level in a live variant, by place.
fn level_views(alloc: Global, world: &World, name: &Id) -> Result<BusViews, Memory>
    requires { IsTrue (is_live world.now.steps name.now) }
    ensures views { IfOk result (λ views. views
        ≡ (variant_view world.now.origin world.now.steps name.now).views) }
    ensures few { IfOk result (λ views. length views < 2 ^ 32) }
{
    let mut views = Seq::empty(alloc);
    for level in 0..world.level_count() {
        let made = world.view(name, level)?;
        let view = Shared::new(alloc, made)?;
        views.push(view)?;
    }
    Ok(views)
}

/// The view of each level in a live variant, by place, beside those of an earlier one, if there is one.
fn all_views(
    alloc: Global,
    world: &World,
    name: &Id,
    earlier: Option<&VariantView>,
) -> Result<BusViews, Memory>
    requires live { IsTrue (is_live world.now.steps name.now) }
    requires earlier { IfSome earlier (λ view. IsShown world.now view.now) }
    ensures views { IfOk result (λ views. views
        ≡ (variant_view world.now.origin world.now.steps name.now).views) }
    ensures few { IfOk result (λ views. length views < 2 ^ 32) }
{
    match earlier {
        Some(earlier) => views_beside(alloc, world, name, earlier),
        None => level_views(alloc, world, name),
    }
}

/// The views of the live variant at a place, by byte order of names.
fn variant_view(
    alloc: Global,
    world: &World,
    place: u32,
    earlier: Option<&VariantView>,
) -> Result<VariantView, Memory>
    requires place { place < length (live world.now.steps) }
    requires earlier { IfSome earlier (λ view. IsShown world.now view.now) }
    ensures view { IfOk result (λ view. option_map (variant_view world.now.origin world.now.steps)
        (slice_get (live world.now.steps) place) ≡ Some view) }
    ensures few { IfOk result (λ view. length view.views < 2 ^ 32) }
{
    let name = world.variant_name(place);
    let views = all_views(alloc, world, name, earlier)?;
    Ok(VariantView {
        name: name.copy()?,
        views,
    })
}

/// The views of all live variants, by byte order of their names. A level that is alike in a variant and in the one
/// before is looked at once.
pub(crate) fn variant_views(alloc: Global, world: &World) -> Result<VariantViews, Memory>
    ensures views { IfOk result (λ views. views ≡ variant_views world.now.origin world.now.steps) }
    ensures few { IfOk result (λ views. length views < 2 ^ 32) }
    ensures each { IfOk result (All (λ v. length v.views < 2 ^ 32)) }
{
    let mut views: VariantViews = Seq::empty(alloc);
    for place in 0..world.variant_count() {
        let view = variant_view(alloc, world, place, views.slice().last())?;
        views.push(view)?;
    }
    Ok(views)
}
