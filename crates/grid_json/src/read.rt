// Reading values from JSON, each with the first fault and its place.
ghost use Rattle.std.specs.Prelude.{◌≡◌, ◌++◌, ℕ, Result, IfOk, length, is_some};
ghost use Rattle.std.specs.List.{list_any, position};
ghost use Rattle.std.specs.Str.{bytes_eq};
ghost use Rattle.serde_json.specs.Data.{Data};
ghost use Rattle.grid_value.specs.View.{view, items_view, members_view, items_len};
ghost use Rattle.grid_json.specs.declared.fault.Fault.{Fault as FaultAt};
ghost use Rattle.grid_json.specs.declared.format.Format.{Format as FormatAt};
ghost use Rattle.grid_json.specs.Reading.{Gives, whole_at, flag_at, id_at, member_at, optional_at, member_or, object_at, only_at, texts, all_known, array_at, items_at};

use crate::format::Format;
use crate::{ReadError, Reason};
use grid_ids::{Id, IdFault, Seq};
use grid_value::{Items, Members, Value, same_text};
use std::alloc::Global;

/// What is read from a JSON value.
pub trait FromJson: Sized + Drop {
    // The value of a JSON value in a format, or its first fault.
    ghost reads: { FormatAt → Data → Result Self FaultAt };

    fn from_json(alloc: Global, format: Format, value: &Value) -> Result<Self, ReadError>
        ensures { Gives result (reads format (view value.now)) };
}

impl FromJson for i64 {
    ghost reads = { λ _. whole_at };

    fn from_json(alloc: Global, _format: Format, value: &Value) -> Result<i64, ReadError> {
        if !value.is_number() {
            return Err(ReadError::here(alloc, Reason::WrongKind));
        }
        match value.as_i64() {
            Some(number) => Ok(number),
            None => Err(ReadError::here(alloc, Reason::NotWhole)),
        }
    }
}

impl FromJson for bool {
    ghost reads = { λ _. flag_at };

    fn from_json(alloc: Global, _format: Format, value: &Value) -> Result<bool, ReadError> {
        match value.as_bool() {
            Some(flag) => Ok(flag),
            None => Err(ReadError::here(alloc, Reason::WrongKind)),
        }
    }
}

impl FromJson for Id {
    ghost reads = { λ _. id_at };

    fn from_json(alloc: Global, _format: Format, value: &Value) -> Result<Id, ReadError> {
        let Some(text) = value.as_str() else {
            return Err(ReadError::here(alloc, Reason::WrongKind));
        };
        match Id::new(alloc, text) {
            Ok(id) => Ok(id),
            Err(IdFault::Memory) => Err(ReadError::Memory),
            Err(fault) => Err(ReadError::here(alloc, Reason::Name(fault))),
        }
    }
}

/// A member that must be there.
pub fn member<T: FromJson>(
    alloc: Global,
    format: Format,
    value: &Value,
    name: &str,
) -> Result<T, ReadError>
    ensures { Gives result (member_at (T.reads format) name.now (view value.now)) }
{
    match value.get(name) {
        None => Err(ReadError::here(alloc, Reason::Missing).under(alloc, name)),
        Some(found) => match T::from_json(alloc, format, &found) {
            Ok(read) => Ok(read),
            Err(e) => Err(e.under(alloc, name)),
        },
    }
}

/// A member that may be absent.
pub fn optional<T: FromJson>(
    alloc: Global,
    format: Format,
    value: &Value,
    name: &str,
) -> Result<Option<T>, ReadError>
    ensures { Gives result (optional_at (T.reads format) name.now (view value.now)) }
{
    match value.get(name) {
        None => Ok(None),
        Some(found) => match T::from_json(alloc, format, &found) {
            Ok(read) => Ok(Some(read)),
            Err(e) => Err(e.under(alloc, name)),
        },
    }
}

/// A member that may be absent, and what stands for it then.
pub fn member_otherwise<T: FromJson>(
    alloc: Global,
    format: Format,
    value: &Value,
    name: &str,
    otherwise: T,
) -> Result<T, ReadError>
    ensures { Gives result (member_or otherwise (T.reads format) name.now (view value.now)) }
{
    match value.get(name) {
        None => Ok(otherwise),
        Some(found) => match T::from_json(alloc, format, &found) {
            Ok(read) => Ok(read),
            Err(e) => Err(e.under(alloc, name)),
        },
    }
}

/// The value is an object.
pub fn object(alloc: Global, value: &Value) -> Result<(), ReadError>
    ensures { Gives result (object_at (view value.now)) }
{
    if value.is_object() {
        Ok(())
    } else {
        Err(ReadError::here(alloc, Reason::WrongKind))
    }
}

/// The first place of the name among those given.
fn first_place(names: &[&str], name: &str) -> Option<usize>
    ensures { result ≡ position (λ known. bytes_eq known.now name.now) names.now }
{
    names.iter().position(|known| same_text(known, name))
}

/// A place of the name among those given, or behind them all where it is among those of a kind. The one at `likely` is
/// looked at first.
fn place_of(names: &[&str], of_kind: &[&str], name: &str, likely: usize) -> Option<usize>
    ensures { is_some result ≡ list_any (λ known. bytes_eq known.now name.now)
        (names.now ++ of_kind.now) }
{
    if likely < names.len() && same_text(names[likely], name) {
        return Some(likely);
    }
    if let Some(place) = first_place(names, name) {
        return Some(place);
    }
    match first_place(of_kind, name) {
        Some(_) => Some(names.len()),
        None => None,
    }
}

/// Whether each member's name is among those given: those that all kinds have, and those that a kind brings. Most
/// objects have their members in the order in which the names stand, so that the name before the one that was found is
/// the likely one of the member before it.
fn has_only(names: &[&str], of_kind: &[&str], members: &Members) -> bool
    ensures { result ≡ all_known (texts (names.now ++ of_kind.now)) (members_view members.now) }
{
    let mut left = *members;
    let mut behind = names.len();
    while let Some((name, _)) = left.next_back() {
        match place_of(names, of_kind, name, behind.saturating_sub(1)) {
            Some(place) => behind = place,
            None => return false,
        }
    }
    true
}

/// The value is an object that has no member but these: those that all kinds have, and those that its kind brings.
pub fn only_of_kind(
    alloc: Global,
    value: &Value,
    names: &[&str],
    of_kind: &[&str],
) -> Result<(), ReadError>
    ensures { Gives result (only_at (texts (names.now ++ of_kind.now)) (view value.now)) }
{
    let Some(members) = value.as_object() else {
        return Err(ReadError::here(alloc, Reason::WrongKind));
    };
    if has_only(names, of_kind, &members) {
        Ok(())
    } else {
        Err(ReadError::here(alloc, Reason::Unknown))
    }
}

/// The value is an object that has no member but these.
pub fn only(alloc: Global, value: &Value, names: &[&str]) -> Result<(), ReadError>
    ensures { Gives result (only_at (texts names.now) (view value.now)) }
{
    only_of_kind(alloc, value, names, &[])
}

impl<T: FromJson> FromJson for Seq<T> {
    ghost reads = { λ format. array_at (T.reads format) };

    fn from_json(alloc: Global, format: Format, value: &Value) -> Result<Seq<T>, ReadError> {
        match value.as_array() {
            None => Err(ReadError::here(alloc, Reason::WrongKind)),
            Some(items) => read_items(alloc, format, &items),
        }
    }
}

/// Each item, under its position.
pub fn read_items<T: FromJson>(
    alloc: Global,
    format: Format,
    items: &Items,
) -> Result<Seq<T>, ReadError>
    ensures items { Gives result (items_at (T.reads format) 0 (items_view items.now)) }
    ensures count { IfOk result (λ list. length list ≡ items_len (items_view items.now)) }
{
    let mut list = Seq::empty(alloc);
    let mut left = *items;
    while let Some(item) = left.next() {
        match T::from_json(alloc, format, &item) {
            Ok(read) => list.push(read)?,
            Err(e) => return Err(e.under_position(alloc, list.len())),
        }
    }
    Ok(list)
}
