// Contingencies that are made of a network's pieces.
ghost use Rattle.std.specs.Prelude.{◌≡◌, ◌++◌, [], ◌∷◌, ◌≤◌, ◌+◌, IfOk, OnOk, length, map};
ghost use Rattle.grid_contingencies.specs.Made as specs;
ghost use Rattle.grid_contingencies.specs.Made.{distinct, has_item};

use crate::listing::pieces;
use crate::{Contingencies, Contingency, Each, Eaches, FaultCase, Piece, Role};
use grid_ids::{Duplicate, Id, Ids, Memory};
use grid_structure::Structure;
use std::alloc::Global;

// Whether a kind is the other one.
fn is_piece(kind: Piece, other: Piece) -> bool
    ensures { result ≡ specs.same_piece kind other }
{
    kind == other
}

// Whether a role is the other one.
fn is_role(role: Role, other: Role) -> bool
    ensures { result ≡ specs.same_role role other }
{
    role == other
}

// Whether an item is the other one.
#[tactic(auto, unfolding(crate::specs::Made::same_each))]
fn is_each(item: Each, other: Each) -> bool
    ensures { result ≡ specs.same_each item other }
{
    is_piece(item.kind, other.kind) && is_role(item.role, other.role)
}

// Whether an item is among those listed.
#[tactic(auto, unfolding(crate::specs::Made::has_item))]
fn lists(listed: &[Each], item: Each) -> bool
    ensures { result ≡ has_item listed.now item }
{
    listed.iter().any(|other| is_each(item, *other))
}

/// The items, each where it first stands. There are fourteen different ones at most, so the time is that of the items.
pub(crate) fn each_once(alloc: Global, items: &[Each]) -> Result<Eaches, Memory>
    ensures { IfOk result (λ each. each ≡ distinct items.now) }
{
    let mut each = Eaches::empty(alloc);
    for item in items {
        if lists(each.slice(), *item) {
            continue;
        }
        each.push(*item)?;
    }
    Ok(each)
}

// The list of one id.
fn only_id(alloc: Global, id: &Id) -> Result<Ids, Memory>
    ensures { IfOk result (λ ids. ids ≡ id.now ∷ []) }
{
    let mut ids = Ids::empty(alloc);
    ids.push(id.copy()?)?;
    Ok(ids)
}

// The contingency of a piece.
#[tactic(auto, unfolding(crate::specs::Made::made_of))]
fn made_of(alloc: Global, role: Role, id: &Id) -> Result<Contingency, Memory>
    ensures { IfOk result (λ contingency. contingency ≡ specs.made_of role id.now) }
{
    let name = id.copy()?;
    let piece = only_id(alloc, id)?;
    let none = Ids::empty(alloc);
    let stuck = Ids::empty(alloc);
    match role {
        Role::Out => Ok(Contingency {
            name,
            event: FaultCase {
                out: piece,
                fault: none,
                stuck,
            },
            has_fault: false,
        }),
        Role::Fault => Ok(Contingency {
            name,
            event: FaultCase {
                out: none,
                fault: piece,
                stuck,
            },
            has_fault: true,
        }),
    }
}

// Puts the contingencies of these pieces last.
fn push_made(list: &mut Contingencies, alloc: Global, role: Role, ids: &[Id]) -> Result<(), Memory>
    ensures { OnOk result (list.new ≡ list.old ++ map (specs.made_of role) ids.now) }
{
    for id in ids {
        list.push(made_of(alloc, role, id)?)?;
    }
    Ok(())
}

/// The contingencies that are made of a network's pieces: for each item in order, one for each piece of its kind in
/// structure order, with the piece's id as its name and as its one id; an item that equals an earlier one counts once.
/// The pieces are the lines, by list; the transformers of two or of three windings, by substation, by list; the
/// generators, loads or busbar sections, by place of level, in each by rising node; or the breakers that are not
/// fictitious, open ones too, by place of level, in each by place. The rule is this project's own.
#[tactic(auto, unfolding(crate::specs::Made::made))]
pub fn made(alloc: Global, structure: &Structure, each: &Eaches) -> Result<Contingencies, Memory>
    ensures { IfOk result (λ list. list ≡ specs.made structure.now each.now) }
{
    let items = each_once(alloc, each.slice())?;
    let mut list = Contingencies::empty(alloc);
    for item in items.slice() {
        let ids = pieces(alloc, structure, item.kind)?;
        push_made(&mut list, alloc, item.role, ids.slice())?;
    }
    Ok(list)
}

// The sum of two counts. It is out of memory, too, where it would not fit its type.
fn plus(count: usize, more: usize) -> Result<usize, Memory>
    ensures { IfOk result (λ sum. sum ≡ count + more) }
{
    match count.checked_add(more) {
        Some(sum) => Ok(sum),
        None => Err(Memory),
    }
}

/// How many contingencies `made` makes. Each kind has fewer pieces than 2^32, and there are fourteen different items at
/// most. It is out of memory, too, where the count does not fit its type.
#[tactic(auto, unfolding(crate::specs::Made::made))]
pub fn count_made(alloc: Global, structure: &Structure, each: &Eaches) -> Result<usize, Memory>
    ensures { IfOk result (λ count. count ≡ length (specs.made structure.now each.now)) }
{
    let items = each_once(alloc, each.slice())?;
    let mut count: usize = 0;
    for item in items.slice() {
        let ids = pieces(alloc, structure, item.kind)?;
        count = plus(count, ids.len())?;
    }
    Ok(count)
}
