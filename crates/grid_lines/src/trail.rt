//! The way through a job to a place.

use crate::walk::Walk;
use std::alloc::{AllocError, Global};

/// A value on the way to a place.
#[derive(Clone, Copy, Drop)]
pub(crate) struct Stage {
    /// Where it begins.
    pub(crate) at: usize,
    /// Where its member `id` is, where it is an object.
    pub(crate) id: Option<usize>,
    /// Where its member `name` is.
    pub(crate) name: Option<usize>,
}

/// A value on the way that the walk is in.
#[derive(Clone, Copy, Drop)]
enum Open {
    Object,
    /// An array, and how many items stand before the one that is on the way, if that is still to come.
    Array(Option<usize>),
}

/// What comes next of the value that the walk is in.
#[derive(Clone, Copy, Drop)]
enum Turn {
    /// Its end.
    End,
    /// A value that is not on the way.
    Aside,
    /// The next value on the way.
    Onward,
}

/// The values on the way to a place, from the whole one on.
#[derive(Drop)]
pub(crate) struct Trail<'p> {
    pub(crate) steps: Vec<&'p str>,
    pub(crate) stages: Vec<Stage>,
    open: Vec<Open>,
}

impl<'p> Trail<'p> {
    /// The way to a place, in one walk over the whole value. Of members of one name the last counts. Where nothing
    /// stands at the place, there are fewer stages than steps.
    pub(crate) fn to(
        alloc: Global,
        walk: &mut Walk<'_>,
        place: &'p str,
    ) -> Result<Trail<'p>, AllocError> {
        let mut trail = Trail {
            steps: Vec::new(alloc),
            stages: Vec::new(alloc),
            open: Vec::new(alloc),
        };
        let mut steps = place.split('/');
        steps.next();
        for _ in 0..u64::MAX {
            let Some(step) = steps.next() else {
                break;
            };
            trail.steps.push(step)?;
        }
        trail.enter(walk)?;
        for _ in 0..u64::MAX {
            match trail.turn(walk) {
                Turn::Aside => walk.pass(),
                Turn::Onward => trail.enter(walk)?,
                Turn::End => {
                    if trail.open.pop().is_none() {
                        break;
                    }
                }
            }
        }
        Ok(trail)
    }

    /// The step that leads from the value that the walk is in, or from the whole one at first.
    fn step(&self) -> Option<&'p str> {
        let place = self.open.len().checked_sub(1)?;
        self.steps.get(place).copied()
    }

    /// Enters the next value, which is on the way. What was found behind an earlier member of its name is given up.
    fn enter(&mut self, walk: &mut Walk<'_>) -> Result<(), AllocError> {
        self.stages.truncate(self.open.len());
        self.stages.push(Stage {
            at: walk.here(),
            id: None,
            name: None,
        })?;
        if walk.is_at(b'[') {
            self.open.push(Open::Array(None))?;
            let before = self.step().and_then(|step| step.parse::<usize>().ok());
            if let Some(open) = self.open.last_mut() {
                *open = Open::Array(before);
            }
            walk.enters_array();
        } else if walk.enters_object() {
            self.open.push(Open::Object)?;
        }
        Ok(())
    }

    /// What comes next of the value that the walk is in.
    fn turn(&mut self, walk: &mut Walk<'_>) -> Turn {
        let step = self.step();
        match self.open.last_mut() {
            None => Turn::End,
            Some(Open::Array(before)) => next_item(before, walk),
            Some(Open::Object) => match walk.next_name() {
                None => Turn::End,
                Some(name) => {
                    self.note(name, walk.here());
                    if step == Some(name) {
                        Turn::Onward
                    } else {
                        Turn::Aside
                    }
                }
            },
        }
    }

    /// Notes a member that names the object that the walk is in.
    fn note(&mut self, member: &str, at: usize) {
        let place = self.open.len().saturating_sub(1);
        let Some(stage) = self.stages.get_mut(place) else {
            return;
        };
        match member {
            "id" => stage.id = Some(at),
            "name" => stage.name = Some(at),
            _ => {}
        }
    }
}

/// What comes next in an array, of which so many items stand before the one on the way.
fn next_item(before: &mut Option<usize>, walk: &mut Walk<'_>) -> Turn {
    if !walk.is_at_item() {
        return Turn::End;
    }
    match *before {
        None => Turn::Aside,
        Some(0) => {
            *before = None;
            Turn::Onward
        }
        Some(more) => {
            *before = more.checked_sub(1);
            Turn::Aside
        }
    }
}
