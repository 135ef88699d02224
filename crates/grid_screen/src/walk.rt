// A walk over what a fault hits: each level is looked at once, and each branch end that is hit leads to the others of
// its branch.
ghost use Rattle.std.specs.Prelude.{◌≡◌, ℕ, ◌<◌, ◌++◌, [], ◌∷◌, length, false, true, None, Some, IfOk, OnOk, IsTrue, flat_map, slice_set};
ghost use Rattle.std.specs.List.{slice_index_or};
ghost use Rattle.grid_level.specs.Kept.{among};
ghost use Rattle.grid_level.specs.Passing as passing;
ghost use Rattle.grid_level.specs.Passing.{nodes};
ghost use Rattle.grid_structure.specs.Sites.{levels};
ghost use Rattle.grid_screen.specs.Grounds as grounds;
ghost use Rattle.grid_screen.specs.Zones as zones;
ghost use Rattle.grid_screen.specs.Zones.{sites_of, sites_of_switch, sites_of_equipment};
ghost use Rattle.grid_screen.specs.Walks.{touched_at, label_by, label_in, hits_in, hits_by, waiting, AreEnds, IsNode, IsTouched, AreTouched, IsUntouched, CanList, CanHit, IsHitIn, Grows, IsSwitchOf, switch_place, site_of_side, IsOpen, Runs, IsSettled};

use crate::scene::Scene;
use grid_contingencies::is_operable;
use grid_groups::{index_of, labels};
use grid_ids::{Duplicate, Id, Ids, Memory};
use grid_json::SeenIds;
use grid_level::{Level, Placed, Stand, Switch};
use grid_sparse::Sparse;
use grid_structure::{Site, SwitchAt};
use std::alloc::Global;

/// A level of the screened state, with the label of each node: the least index of the nodes to which a fault passes
/// from it. A label is hit or not. By label stands the equipment of the branch ends at its nodes, so that the level is
/// gone through once, and not again with each label that is hit.
#[derive(Drop)]
pub(crate) struct Touched<'a> {
    pub level: &'a Level,
    pub labels: Vec<u32>,
    pub hit: Vec<bool>,
    pub ends: Vec<Ids>,
}

/// For each level by place what is hit of it, none where the walk was not there.
pub(crate) type Touches<'a> = Sparse<Box<Touched<'a>>>;

/// What is hit, and the ids of the equipment whose terminals the walk has not gone to yet.
#[derive(Drop)]
pub(crate) struct Walk<'a> {
    pub touched: Touches<'a>,
    pub work: Ids,
}

// Whether a fault passes over a switch in this position.
#[tactic(auto, unfolding(crate::specs::Zones::passes_fault, grid_level::specs::Passing::is_operable))]
fn passes_fault(switch: &Switch, opened: bool, stuck: &SeenIds) -> bool
    ensures { result ≡ zones.passes_fault stuck.now (grounds.with_flag_of (switch.now, opened)) }
{
    !opened && (!is_operable(switch) || stuck.has(&switch.id))
}

// Over which switches a fault passes.
#[tactic(auto, unfolding(crate::specs::Grounds::fault_flags))]
fn fault_flags(
    alloc: Global,
    switches: &[Switch],
    opened: &[bool],
    stuck: &SeenIds,
) -> Result<Vec<bool>, Memory>
    ensures { IfOk result (λ flags. flags.items
        ≡ grounds.fault_flags stuck.now switches.now opened.now) }
{
    Ok(
        switches
            .iter()
            .zip(opened)
            .map(|(switch, opened)| passes_fault(switch, *opened, stuck))
            .collect(alloc)?,
    )
}

// The label of a node, by the labels of a level.
fn label_among(level: &Level, labels: &[u32], node: u16) -> u32
    requires node { IsTrue (among (nodes level.now) node) }
    requires long { length labels.now ≡ length (nodes level.now) }
    ensures { result ≡ label_by level.now labels.now node }
{
    labels[index_of(level, node) as usize]
}

// Whether it is an end of a branch.
#[tactic(auto, unfolding(grid_level::specs::Passing::is_branch_end))]
fn is_branch_end(placed: &Placed) -> bool
    ensures { result ≡ passing.is_branch_end placed.now.stand }
{
    match placed.stand {
        Stand::BranchEnd => true,
        _ => false,
    }
}

// A list of nothing for each label.
fn empty_lists(alloc: Global, count: usize) -> Result<Vec<Ids>, Memory>
    ensures long { IfOk result (λ lists. length lists.items ≡ count) }
    ensures none { IfOk result (λ lists. (label : ℕ) → slice_index_or lists.items label [] ≡ []) }
{
    let mut lists = Vec::with_capacity(alloc, count)?;
    for _label in 0..count {
        lists.push(Ids::empty(alloc))?;
    }
    Ok(lists)
}

// Puts the equipment of a branch end last in the list of a label.
fn push_end(ends: &mut Vec<Ids>, label: u32, placed: &Placed) -> Result<(), Memory>
    requires { label < length ends.old.items }
    ensures { OnOk result (ends.new.items ≡ slice_set ends.old.items label
        (slice_index_or ends.old.items label [] ++ placed.now.terminal.equipment ∷ [])) }
{
    let id = placed.terminal.equipment.copy()?;
    ends[label as usize].push(id)
}

// The equipment of those of these terminals that are branch ends, by the label of their nodes.
fn list_ends(
    alloc: Global,
    level: &Level,
    labels: &[u32],
    placed: &[Placed],
) -> Result<Vec<Ids>, Memory>
    requires { CanList level.now labels.now placed.now }
    ensures { IfOk result (λ ends. AreEnds level.now labels.now placed.now ends.items) }
{
    let mut ends = empty_lists(alloc, labels.len())?;
    for placed in placed {
        if !is_branch_end(placed) {
            continue;
        }
        push_end(&mut ends, label_among(level, labels, placed.node), placed)?;
    }
    Ok(ends)
}

// A level with these labels and ends, of which nothing is hit.
fn untouched<'a>(
    alloc: Global,
    level: &'a Level,
    labels: Vec<u32>,
    ends: Vec<Ids>,
) -> Result<Box<Touched<'a>>, Memory>
    ensures { IfOk result (λ t. IsUntouched level.now labels.items ends.items t.value) }
{
    let hit = vec![in alloc; false; labels.len()]?;
    let touched = Touched {
        level,
        labels,
        hit,
        ends,
    };
    Ok(Box::new(alloc, touched)?)
}

// Looks at the level at a place, of which nothing is hit yet.
fn look<'a>(alloc: Global, scene: &Scene<'a>, place: u32) -> Result<Box<Touched<'a>>, Memory>
    requires { place < length (levels scene.now.net) }
    ensures touched { IfOk result (λ t. IsTouched scene.now place t.value) }
    ensures none { IfOk result (λ t. (node : ℕ) → hits_in t.value node ≡ false) }
{
    scene.keeps();
    let level = scene.structure().level(place);
    level.keeps();
    let flags = fault_flags(alloc, level.switches(), scene.opened(place), scene.stuck())?;
    let labels = labels(alloc, level, &flags)?;
    let ends = list_ends(alloc, level, &labels, scene.level(place).placed())?;
    untouched(alloc, level, labels, ends)
}

// Takes out what is hit at a place, where the walk may not have been yet.
fn take_touched<'a>(
    alloc: Global,
    scene: &Scene<'a>,
    touched: &mut Touches<'a>,
    place: u32,
) -> Result<Box<Touched<'a>>, Memory>
    requires place { place < length (levels scene.now.net) }
    requires touched { AreTouched scene.now touched.old }
    ensures touched { IfOk result (λ t. IsTouched scene.now place t.value) }
    ensures same { IfOk result (λ t. (node : ℕ)
        → hits_in t.value node ≡ hits_by (touched_at touched.old place) node) }
    ensures left { OnOk result (touched.new ≡ slice_set touched.old place None) }
{
    match touched.take(place) {
        Some(here) => Ok(here),
        None => look(alloc, scene, place),
    }
}

/// The label of a node.
pub(crate) fn label_at(touched: &Touched, node: u16) -> u32
    requires node { IsTrue (among (nodes touched.now.level.now) node) }
    requires long { length touched.now.labels.items ≡ length (nodes touched.now.level.now) }
    ensures { result ≡ label_in touched.now node }
{
    label_among(touched.level, &touched.labels, node)
}

// Puts these ids last.
fn push_all(work: &mut Ids, ids: &[Id]) -> Result<(), Memory>
    ensures { OnOk result (work.new ≡ work.old ++ ids.now) }
{
    for id in ids {
        work.push(id.copy()?)?;
    }
    Ok(())
}

// Hits a node and all with its label. Where they were not hit yet, the equipment of their branch ends waits then.
#[tactic(auto, unfolding(crate::specs::Walks::waiting))]
fn hit_in<'a>(here: Box<Touched<'a>>, node: u16, work: &mut Ids) -> Result<Box<Touched<'a>>, Memory>
    requires { CanHit here.value node }
    ensures hit { IfOk result (λ t. IsHitIn here.entry.value node t.value) }
    ensures work { OnOk result (work.new ≡ work.old ++ waiting here.entry.value node) }
{
    let mut here = here;
    let label = label_at(&here, node) as usize;
    if here.hit[label] {
        return Ok(here);
    }
    push_all(work, here.ends[label].slice())?;
    here.hit[label] = true;
    Ok(here)
}

// Hits a site.
fn hit<'a>(alloc: Global, scene: &Scene<'a>, walk: &mut Walk<'a>, site: Site) -> Result<(), Memory>
    requires touched { AreTouched scene.now walk.old.touched }
    requires site { IsNode scene.now.net site }
    ensures { OnOk result (Grows scene.now walk.old walk.new (site ∷ [])) }
{
    scene.keeps();
    let here = take_touched(alloc, scene, &mut walk.touched, site.level)?;
    let here = hit_in(here, site.node, &mut walk.work)?;
    walk.touched.put(site.level, here)?;
    Ok(())
}

// Hits the node of the terminal of a side, if there is one.
fn hit_side<'a>(
    alloc: Global,
    scene: &Scene<'a>,
    walk: &mut Walk<'a>,
    id: &Id,
    side: u8,
) -> Result<(), Memory>
    requires { AreTouched scene.now walk.old.touched }
    ensures { OnOk result (Grows scene.now walk.old walk.new (site_of_side scene.now.net id.now side)) }
{
    scene.keeps();
    match scene.structure().site(id, side) {
        Some(site) => hit(alloc, scene, walk, site),
        None => Ok(()),
    }
}

// Hits the nodes of all terminals of an equipment.
fn hit_equipment<'a>(
    alloc: Global,
    scene: &Scene<'a>,
    walk: &mut Walk<'a>,
    id: &Id,
) -> Result<(), Memory>
    requires { AreTouched scene.now walk.old.touched }
    ensures { OnOk result (Grows scene.now walk.old walk.new (sites_of_equipment scene.now.net id.now)) }
{
    hit_side(alloc, scene, walk, id, 1)?;
    hit_side(alloc, scene, walk, id, 2)?;
    hit_side(alloc, scene, walk, id, 3)
}

// Hits the two nodes of a switch.
fn hit_switch<'a>(
    alloc: Global,
    scene: &Scene<'a>,
    walk: &mut Walk<'a>,
    at: SwitchAt,
) -> Result<(), Memory>
    requires touched { AreTouched scene.now walk.old.touched }
    requires at { IsSwitchOf scene.now.net at }
    ensures { OnOk result (Grows scene.now walk.old walk.new (sites_of_switch scene.now.net (switch_place at))) }
{
    scene.keeps();
    let level = at.level;
    let switch = scene.structure().level(level).switch(at.place);
    let (node1, node2) = (switch.node1, switch.node2);
    hit(alloc, scene, walk, Site { level, node: node1 })?;
    hit(alloc, scene, walk, Site { level, node: node2 })
}

// Hits the sites of the switch or of the equipment of an id.
#[tactic(auto, unfolding(crate::specs::Zones::sites_of))]
fn hit_id<'a>(alloc: Global, scene: &Scene<'a>, walk: &mut Walk<'a>, id: &Id) -> Result<(), Memory>
    requires { AreTouched scene.now walk.old.touched }
    ensures { OnOk result (Grows scene.now walk.old walk.new (sites_of scene.now.net id.now)) }
{
    match scene.structure().find_switch(id) {
        Some(at) => hit_switch(alloc, scene, walk, at),
        None => hit_equipment(alloc, scene, walk, id),
    }
}

// Hits the sites of these ids.
fn hit_all<'a>(
    alloc: Global,
    scene: &Scene<'a>,
    walk: &mut Walk<'a>,
    ids: &[Id],
) -> Result<(), Memory>
    requires { AreTouched scene.now walk.old.touched }
    ensures { OnOk result (Grows scene.now walk.old walk.new (flat_map (sites_of scene.now.net) ids.now)) }
{
    for id in ids {
        hit_id(alloc, scene, walk, id)?;
    }
    Ok(())
}

// Goes on until no branch end that was hit waits. It is out of memory, too, where more of them came than a number can
// count.
fn go_on<'a>(alloc: Global, scene: &Scene<'a>, walk: &mut Walk<'a>) -> Result<(), Memory>
    requires { IsOpen scene.now walk.old }
    ensures { OnOk result (Runs scene.now walk.old walk.new) }
{
    scene.keeps();
    for _turn in 0..u64::MAX {
        let Some(id) = walk.work.pop() else {
            return Ok(());
        };
        hit_equipment(alloc, scene, walk, &id)?;
    }
    Err(Memory)
}

/// What is hit where these ids are: the sites that are joined to theirs. The time is that of one look at each level
/// that is hit, and of a look-up for each branch end there.
pub(crate) fn walk_from<'a>(
    alloc: Global,
    scene: &Scene<'a>,
    ids: &[Id],
) -> Result<Walk<'a>, Memory>
    ensures { IfOk result (λ walk. IsSettled scene.now (flat_map (sites_of scene.now.net) ids.now)
        walk.touched) }
{
    scene.keeps();
    let touched = Sparse::new(alloc, scene.structure().level_count());
    let work = Ids::empty(alloc);
    let mut walk = Walk { touched, work };
    hit_all(alloc, scene, &mut walk, ids)?;
    go_on(alloc, scene, &mut walk)?;
    Ok(walk)
}
