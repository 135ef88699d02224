// Arrays of just two and of just three items.
ghost use Rattle.std.specs.Prelude.{◌≡◌, decimal};
ghost use Rattle.grid_value.specs.View.{view};
ghost use Rattle.grid_json.specs.Reading.{Gives, under};
ghost use Rattle.grid_json.specs.Network.{two_at, three_at, both, all_three};

use crate::format::Format;
use crate::read::{FromJson, member, only};
use crate::{ReadError, Reason};
use grid_structure::End;
use grid_value::Value;
use std::alloc::Global;

/// Two values of one kind.
#[derive(Clone, Debug, Drop)]
pub struct Two<T> {
    pub first: T,
    pub second: T,
}

/// Three values of one kind.
#[derive(Clone, Debug)]
pub struct Three<T> {
    pub first: T,
    pub second: T,
    pub third: T,
}

// Written out, so that where three values are dropped a proof sees one call.
impl<T: Drop> Drop for Three<T> {
    fn drop(self) {
        let Three {
            first: _,
            second: _,
            third: _,
        } = self;
    }
}

impl<T> Three<T> {
    /// The first value, the second and the third.
    pub fn into_parts(self) -> (T, T, T)
        ensures { (result.0 ≡ self.first) × (result.1 ≡ self.second) × (result.2 ≡ self.third) }
    {
        let Three {
            first,
            second,
            third,
        } = self;
        (first, second, third)
    }
}

/// An item of an array, under its position.
fn item<T: FromJson>(
    alloc: Global,
    format: Format,
    value: &Value,
    position: usize,
) -> Result<T, ReadError>
    ensures { Gives result (under (decimal position) (T.reads format (view value.now))) }
{
    match T::from_json(alloc, format, value) {
        Ok(read) => Ok(read),
        Err(e) => Err(e.under_position(alloc, position)),
    }
}

/// Two items of an array of two.
#[tactic(auto, unfolding(crate::specs::Network::both))]
fn two_of<T: FromJson>(
    alloc: Global,
    format: Format,
    first: &Value,
    second: &Value,
) -> Result<Two<T>, ReadError>
    ensures { Gives result (both (T.reads format) (view first.now) (view second.now)) }
{
    let first = item(alloc, format, first, 0)?;
    let second = item(alloc, format, second, 1)?;
    Ok(Two { first, second })
}

impl<T: FromJson> FromJson for Two<T> {
    ghost reads = { λ format. two_at (T.reads format) };

    fn from_json(alloc: Global, format: Format, value: &Value) -> Result<Two<T>, ReadError> {
        let Some(mut items) = value.as_array() else {
            return Err(ReadError::here(alloc, Reason::WrongKind));
        };
        let Some(first) = items.next() else {
            return Err(ReadError::here(alloc, Reason::WrongKind));
        };
        let Some(second) = items.next() else {
            return Err(ReadError::here(alloc, Reason::WrongKind));
        };
        match items.next() {
            None => two_of(alloc, format, &first, &second),
            Some(_) => Err(ReadError::here(alloc, Reason::WrongKind)),
        }
    }
}

/// Three items of an array of three.
#[tactic(auto, unfolding(crate::specs::Network::all_three))]
fn three_of<T: FromJson>(
    alloc: Global,
    format: Format,
    first: &Value,
    second: &Value,
    third: &Value,
) -> Result<Three<T>, ReadError>
    ensures { Gives result (all_three (T.reads format) (view first.now) (view second.now)
        (view third.now)) }
{
    let first = item(alloc, format, first, 0)?;
    let second = item(alloc, format, second, 1)?;
    let third = item(alloc, format, third, 2)?;
    Ok(Three {
        first,
        second,
        third,
    })
}

impl<T: FromJson> FromJson for Three<T> {
    ghost reads = { λ format. three_at (T.reads format) };

    fn from_json(alloc: Global, format: Format, value: &Value) -> Result<Three<T>, ReadError> {
        let Some(mut items) = value.as_array() else {
            return Err(ReadError::here(alloc, Reason::WrongKind));
        };
        let Some(first) = items.next() else {
            return Err(ReadError::here(alloc, Reason::WrongKind));
        };
        let Some(second) = items.next() else {
            return Err(ReadError::here(alloc, Reason::WrongKind));
        };
        let Some(third) = items.next() else {
            return Err(ReadError::here(alloc, Reason::WrongKind));
        };
        match items.next() {
            None => three_of(alloc, format, &first, &second, &third),
            Some(_) => Err(ReadError::here(alloc, Reason::WrongKind)),
        }
    }
}

/// The members of an end at a node.
pub const END_MEMBERS: &[&str] = &["level", "node"];

impl FromJson for End {
    ghost use Rattle.grid_json.specs.Network.{end_at};

    ghost reads = { λ _. end_at };

    #[tactic(auto, unfolding(crate::specs::Network::end_at))]
    fn from_json(alloc: Global, format: Format, value: &Value) -> Result<End, ReadError> {
        only(alloc, value, END_MEMBERS)?;
        let level = member(alloc, format, value, "level")?;
        let node = member(alloc, format, value, "node")?;
        Ok(End { level, node })
    }
}
