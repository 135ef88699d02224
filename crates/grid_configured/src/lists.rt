// Members and lists by ways of reading them.
ghost use Rattle.std.specs.Prelude.{◌≡◌, Result, IfOk, length};
ghost use Rattle.serde_json.specs.Data.{Data};
ghost use Rattle.grid_value.specs.View.{view, items_view, items_len};
ghost use Rattle.grid_json.specs.declared.fault.Fault.{Fault as FaultAt};
ghost use Rattle.grid_json.specs.Reading.{Gives, member_at, array_at, items_at};
ghost use Rattle.grid_configured.specs.Jobs.{plain_at};

use crate::plain::read_plain;
use grid_ids::{Id, Seq};
use grid_json::{ReadError, Reason};
use grid_value::{Items, Value};
use std::alloc::Global;
use std::marker::PhantomData;

/// A way of reading a JSON value.
pub(crate) trait Reader {
    /// What is read.
    type Item: Drop;

    // The value of a JSON value, or its first fault.
    ghost reads: { Data → Result Self.Item FaultAt };

    fn read(alloc: Global, value: &Value) -> Result<Self::Item, ReadError>
        ensures { Gives result (reads (view value.now)) };
}

/// A member that must be there.
pub(crate) fn read_member<R: Reader>(
    alloc: Global,
    value: &Value,
    name: &str,
) -> Result<R::Item, ReadError>
    ensures { Gives result (member_at R.reads name.now (view value.now)) }
{
    match value.get(name) {
        None => Err(ReadError::here(alloc, Reason::Missing).under(alloc, name)),
        Some(found) => match R::read(alloc, &found) {
            Ok(read) => Ok(read),
            Err(e) => Err(e.under(alloc, name)),
        },
    }
}

/// Each item, under its position.
pub(crate) fn read_each<R: Reader>(alloc: Global, items: &Items) -> Result<Seq<R::Item>, ReadError>
    ensures items { Gives result (items_at R.reads 0 (items_view items.now)) }
    ensures count { IfOk result (λ list. length list ≡ items_len (items_view items.now)) }
{
    let mut list = Seq::empty(alloc);
    let mut left = *items;
    while let Some(item) = left.next() {
        match R::read(alloc, &item) {
            Ok(read) => list.push(read)?,
            Err(e) => return Err(e.under_position(alloc, list.len())),
        }
    }
    Ok(list)
}

/// Reads a plain id.
pub(crate) struct PlainId;

impl Reader for PlainId {
    type Item = Id;

    ghost reads = { plain_at };

    fn read(alloc: Global, value: &Value) -> Result<Id, ReadError> {
        read_plain(alloc, value)
    }
}

/// Reads an array, each item as `R` reads it.
pub(crate) struct Each<R> {
    of: PhantomData<R>,
}

impl<R: Reader> Reader for Each<R> {
    type Item = Seq<R::Item>;

    ghost reads = { array_at R.reads };

    fn read(alloc: Global, value: &Value) -> Result<Seq<R::Item>, ReadError> {
        match value.as_array() {
            None => Err(ReadError::here(alloc, Reason::WrongKind)),
            Some(items) => read_each::<R>(alloc, &items),
        }
    }
}
