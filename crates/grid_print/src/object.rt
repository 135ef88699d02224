// Objects and arrays of JSON.
ghost use Rattle.std.specs.Prelude.{◌≡◌, [], ◌∷◌, IfOk, IfSome, OnOk, All, ⊤};
ghost use Rattle.serde_json.specs.Data.{Data, put as with_member};
ghost use Rattle.serde_json.specs.View.{view, members_view};
ghost use Rattle.grid_print.specs.Objects.{array_of, whole, given, members_from};

use grid_ids::{Id, Memory};
use serde_json::{Map, Value, json};
use std::alloc::Global;

/// What is written as a JSON value.
pub(crate) trait ToJson {
    // The value that is written.
    ghost written: { Self → Data };

    // What is known of it then, so that it is read back as it is.
    ghost readable: { Self → Type 0 } = { λ _. ⊤ };

    fn to_json(&self, alloc: Global) -> Result<Value, Memory>
        ensures value { IfOk result (λ v. view v ≡ written self.now) }
        ensures readable { OnOk result (readable self.now) };
}

/// An array of what stands in a list, in its order.
pub(crate) fn array_of<T: ToJson>(alloc: Global, items: &[T]) -> Result<Value, Memory>
    ensures value { IfOk result (λ v. view v ≡ array_of T.written items.now) }
    ensures readable { OnOk result (All T.readable items.now) }
{
    let mut values = Vec::new(alloc);
    for item in items {
        values.push(item.to_json(alloc)?)?;
    }
    Ok(Value::from(values))
}

/// An array of two.
pub(crate) fn two<T: ToJson>(alloc: Global, first: &T, second: &T) -> Result<Value, Memory>
    ensures value { IfOk result (λ v. view v ≡ array_of T.written (first.now ∷ second.now ∷ [])) }
    ensures readable { OnOk result (T.readable first.now × T.readable second.now) }
{
    let first = first.to_json(alloc)?;
    let second = second.to_json(alloc)?;
    Ok(json!(in alloc; [first, second])?)
}

/// An array of three.
pub(crate) fn three<T: ToJson>(
    alloc: Global,
    first: &T,
    second: &T,
    third: &T,
) -> Result<Value, Memory>
    ensures value { IfOk result (λ v. view v
        ≡ array_of T.written (first.now ∷ second.now ∷ third.now ∷ [])) }
    ensures readable { OnOk result (T.readable first.now × T.readable second.now
        × T.readable third.now) }
{
    let first = first.to_json(alloc)?;
    let second = second.to_json(alloc)?;
    let third = third.to_json(alloc)?;
    Ok(json!(in alloc; [first, second, third])?)
}

impl ToJson for i64 {
    ghost use Rattle.grid_print.specs.Readable.{IsWhole};

    ghost written = { whole };

    ghost readable = { IsWhole };

    fn to_json(&self, _alloc: Global) -> Result<Value, Memory> {
        Ok(Value::from(*self))
    }
}

impl ToJson for bool {
    ghost use Rattle.serde_json.specs.Data.{boolean};

    ghost written = { boolean };

    fn to_json(&self, _alloc: Global) -> Result<Value, Memory> {
        Ok(Value::from(*self))
    }
}

impl ToJson for u32 {
    ghost use Rattle.grid_print.specs.Objects.{natural};

    ghost written = { natural };

    fn to_json(&self, _alloc: Global) -> Result<Value, Memory> {
        Ok(Value::from(*self))
    }
}

impl ToJson for Id {
    ghost use Rattle.serde_json.specs.Data.{string};
    ghost use Rattle.grid_print.specs.Readable.{IsId};

    ghost written = { string };

    ghost readable = { IsId };

    fn to_json(&self, alloc: Global) -> Result<Value, Memory> {
        Ok(Value::try_from_str(alloc, self.text())?)
    }
}

/// The members of an object, in byte order of their names.
pub(crate) type Members = Map<String, Value>;

/// Puts a member.
pub(crate) fn put<T: ToJson>(
    members: &mut Members,
    alloc: Global,
    name: &str,
    value: &T,
) -> Result<(), Memory>
    ensures value { OnOk result (members_view members.new.entries
        ≡ with_member name.now (T.written value.now) (members_view members.old.entries)) }
    ensures readable { OnOk result (T.readable value.now) }
{
    let written = value.to_json(alloc)?;
    put_value(members, alloc, name, written)
}

/// Puts a member where it is given.
#[tactic(auto, unfolding(crate::specs::Objects::members_from))]
pub(crate) fn put_given<T: ToJson>(
    members: &mut Members,
    alloc: Global,
    name: &str,
    value: &Option<T>,
) -> Result<(), Memory>
    ensures value { OnOk result (members_view members.new.entries
        ≡ members_from (members_view members.old.entries) (given name.now T.written value.now)) }
    ensures readable { OnOk result (IfSome value.now T.readable) }
{
    match value {
        None => Ok(()),
        Some(value) => put(members, alloc, name, value),
    }
}

/// Puts a member that is a value already.
pub(crate) fn put_value(
    members: &mut Members,
    alloc: Global,
    name: &str,
    value: Value,
) -> Result<(), Memory>
    ensures { OnOk result (members_view members.new.entries
        ≡ with_member name.now (view value) (members_view members.old.entries)) }
{
    serde_json::put(members, alloc, name, value)?;
    Ok(())
}

impl ToJson for u16 {
    ghost use Rattle.grid_print.specs.Objects.{natural};

    ghost written = { natural };

    fn to_json(&self, _alloc: Global) -> Result<Value, Memory> {
        Ok(Value::from(*self))
    }
}
