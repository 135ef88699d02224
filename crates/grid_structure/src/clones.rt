// Clones of branches and edits, part by part: a derived clone, whose every part may give up, takes long to prove.
ghost use Rattle.std.specs.Prelude.{◌≡◌, IfOk, IsTrue};
ghost use Rattle.grid_structure.specs.Kinds.{adds_injection, adds_level, adds_switch, changes_internal, has_three_windings};

use crate::{Branch, Edit, End};
use grid_ids::Id;
use std::alloc::AllocError;

/// Two equal ids.
fn clone_ids(first: &Id, second: &Id) -> Result<(Id, Id), AllocError>
    ensures { IfOk result (λ ids. (ids.0 ≡ first.now) × (ids.1 ≡ second.now)) }
{
    let first = first.clone()?;
    Ok((first, second.clone()?))
}

/// Equal ends.
fn clone_ends(end1: &End, end2: &End) -> Result<(End, End), AllocError>
    ensures { IfOk result (λ ends. (ends.0 ≡ end1.now) × (ends.1 ≡ end2.now)) }
{
    let end1 = end1.clone()?;
    Ok((end1, end2.clone()?))
}

/// An equal substation's id, and equal ends.
fn clone_sides(substation: &Id, end1: &End, end2: &End) -> Result<(Id, End, End), AllocError>
    ensures { IfOk result (λ sides. (sides.0 ≡ substation.now) × (sides.1 ≡ end1.now)
        × (sides.2 ≡ end2.now)) }
{
    let (end1, end2) = clone_ends(end1, end2)?;
    Ok((substation.clone()?, end1, end2))
}

impl Clone for Branch {
    ghost is_clone = { λ x y. y ≡ x };

    fn clone(&self) -> Result<Branch, AllocError> {
        match self {
            Branch::Line { end1, end2 } => {
                let (end1, end2) = clone_ends(end1, end2)?;
                Ok(Branch::Line { end1, end2 })
            }
            Branch::TwoWindings {
                substation,
                end1,
                end2,
                rated_u1,
                rated_u2,
            } => {
                let (substation, end1, end2) = clone_sides(substation, end1, end2)?;
                Ok(Branch::TwoWindings {
                    substation,
                    end1,
                    end2,
                    rated_u1: *rated_u1,
                    rated_u2: *rated_u2,
                })
            }
            Branch::ThreeWindings { .. } => clone_three_windings(self),
        }
    }
}

/// An equal transformer of three windings.
fn clone_three_windings(branch: &Branch) -> Result<Branch, AllocError>
    requires { IsTrue (has_three_windings branch.now) }
    ensures { IfOk result (λ clone. clone ≡ branch.now) }
{
    match branch {
        Branch::ThreeWindings {
            substation,
            end1,
            end2,
            end3,
            rated_u1,
            rated_u2,
            rated_u3,
        } => {
            let end3 = end3.clone()?;
            let (substation, end1, end2) = clone_sides(substation, end1, end2)?;
            Ok(Branch::ThreeWindings {
                substation,
                end1,
                end2,
                end3,
                rated_u1: *rated_u1,
                rated_u2: *rated_u2,
                rated_u3: *rated_u3,
            })
        }
        _ => unreachable!(),
    }
}

/// An equal addition of a level.
fn clone_level(edit: &Edit) -> Result<Edit, AllocError>
    requires { IsTrue (adds_level edit.now) }
    ensures { IfOk result (λ clone. clone ≡ edit.now) }
{
    match edit {
        Edit::AddLevel {
            id,
            substation,
            nominal_v,
            low_v,
            high_v,
        } => {
            let (id, substation) = clone_ids(id, substation)?;
            Ok(Edit::AddLevel {
                id,
                substation,
                nominal_v: *nominal_v,
                low_v: *low_v,
                high_v: *high_v,
            })
        }
        _ => unreachable!(),
    }
}

/// An equal addition of a switch.
fn clone_switch(edit: &Edit) -> Result<Edit, AllocError>
    requires { IsTrue (adds_switch edit.now) }
    ensures { IfOk result (λ clone. clone ≡ edit.now) }
{
    match edit {
        Edit::AddSwitch {
            id,
            level,
            kind,
            node1,
            node2,
            opened,
            retained,
            fictitious,
        } => {
            let (id, level) = clone_ids(id, level)?;
            Ok(Edit::AddSwitch {
                id,
                level,
                kind: *kind,
                node1: *node1,
                node2: *node2,
                opened: *opened,
                retained: *retained,
                fictitious: *fictitious,
            })
        }
        _ => unreachable!(),
    }
}

/// An equal addition or removal of an internal connection.
fn clone_internal(edit: &Edit) -> Result<Edit, AllocError>
    requires { IsTrue (changes_internal edit.now) }
    ensures { IfOk result (λ clone. clone ≡ edit.now) }
{
    match edit {
        Edit::AddInternal {
            level,
            node1,
            node2,
        } => Ok(Edit::AddInternal {
            level: level.clone()?,
            node1: *node1,
            node2: *node2,
        }),
        Edit::RemoveInternal {
            level,
            node1,
            node2,
        } => Ok(Edit::RemoveInternal {
            level: level.clone()?,
            node1: *node1,
            node2: *node2,
        }),
        _ => unreachable!(),
    }
}

/// An equal addition of an injection.
fn clone_injection(edit: &Edit) -> Result<Edit, AllocError>
    requires { IsTrue (adds_injection edit.now) }
    ensures { IfOk result (λ clone. clone ≡ edit.now) }
{
    match edit {
        Edit::AddInjection {
            id,
            level,
            node,
            item,
        } => {
            let (id, level) = clone_ids(id, level)?;
            Ok(Edit::AddInjection {
                id,
                level,
                node: *node,
                item: *item,
            })
        }
        _ => unreachable!(),
    }
}

impl Clone for Edit {
    ghost is_clone = { λ x y. y ≡ x };

    fn clone(&self) -> Result<Edit, AllocError> {
        match self {
            Edit::AddSubstation { id } => Ok(Edit::AddSubstation { id: id.clone()? }),
            Edit::AddLevel { .. } => clone_level(self),
            Edit::AddBusbar { id, level, node } => {
                let (id, level) = clone_ids(id, level)?;
                Ok(Edit::AddBusbar {
                    id,
                    level,
                    node: *node,
                })
            }
            Edit::AddSwitch { .. } => clone_switch(self),
            Edit::RemoveSwitch { id } => Ok(Edit::RemoveSwitch { id: id.clone()? }),
            Edit::AddInternal { .. } => clone_internal(self),
            Edit::RemoveInternal { .. } => clone_internal(self),
            Edit::AddInjection { .. } => clone_injection(self),
            Edit::AddBranch { id, shape } => {
                let id = id.clone()?;
                Ok(Edit::AddBranch {
                    id,
                    shape: shape.clone()?,
                })
            }
            Edit::RemoveEquipment { id } => Ok(Edit::RemoveEquipment { id: id.clone()? }),
        }
    }
}
