// Reading straight from tokens, where there is no fault: None promises nothing.
ghost use Rattle.std.specs.Prelude.{◌≡◌, ◌<◌, ◌++◌, ◌&&◌, ℕ, List, [], Bool, true, false, length, unwrap_or, IfSome, OnSome};
ghost use Rattle.std.specs.Str.{bytes_eq};
ghost use Rattle.serde_json.specs.Data.{Data, Members as MembersData, no_members, put};
ghost use Rattle.grid_json.specs.declared.format.Format.{Format as FormatAt};
ghost use Rattle.grid_json.specs.Reading.{knows};
ghost use Rattle.grid_json.specs.Kept.{first_unknown, second_unknown};
ghost use Rattle.grid_json.specs.Streams.{Streams, Among, Fills, Offered, WhereTaken, IsObject, IsRest, disjoint};

use crate::format::Format;
use crate::kinds::{InjectionKind, injection_kind_of, switch_kind_of};
use crate::read::FromJson;
use grid_ids::{Id, Seq};
use grid_kinds::SwitchKind;
use grid_value::{Tree, Value, next_flag, next_text, next_whole};
use json::{Reader, Token};
use std::alloc::Global;

/// What is read from the next value of a reader.
pub trait FromTokens: FromJson {
    /// The next value, in which arrays and objects may nest `depth` deep, where it has no fault.
    fn from_tokens(
        alloc: Global,
        format: Format,
        reader: &mut Reader<'_>,
        depth: usize,
    ) -> Option<Self>
        ensures read { IfSome result (Streams (Self.reads format) depth reader.old reader.new) }
        ensures shorter { OnSome result (length reader.new < length reader.old) };
}

/// The next value by way of a tree of it alone.
pub fn small<T: FromJson>(
    alloc: Global,
    format: Format,
    reader: &mut Reader<'_>,
    depth: usize,
) -> Option<T>
    ensures read { IfSome result (Streams (T.reads format) depth reader.old reader.new) }
    ensures shorter { OnSome result (length reader.new < length reader.old) }
{
    let tree = Tree::next_of(alloc, reader, depth).ok()?;
    T::from_json(alloc, format, &tree.root()).ok()
}

/// The next value, which is neither an array nor an object, so that it takes no memory of its own.
pub fn leaf<T: FromJson>(alloc: Global, format: Format, reader: &mut Reader<'_>) -> Option<T>
    ensures read { IfSome result (λ read. (depth : ℕ) → Streams (T.reads format) depth reader.old
        reader.new read) }
    ensures shorter { OnSome result (length reader.new < length reader.old) }
{
    let value = Value::next_leaf(reader)?;
    T::from_json(alloc, format, &value).ok()
}

impl FromTokens for i64 {
    fn from_tokens(
        _alloc: Global,
        _format: Format,
        reader: &mut Reader<'_>,
        _depth: usize,
    ) -> Option<i64> {
        next_whole(reader)
    }
}

impl FromTokens for bool {
    fn from_tokens(
        _alloc: Global,
        _format: Format,
        reader: &mut Reader<'_>,
        _depth: usize,
    ) -> Option<bool> {
        next_flag(reader)
    }
}

impl FromTokens for Id {
    fn from_tokens(
        alloc: Global,
        _format: Format,
        reader: &mut Reader<'_>,
        _depth: usize,
    ) -> Option<Id> {
        Id::new(alloc, next_text(reader)?).ok()
    }
}

impl FromTokens for SwitchKind {
    fn from_tokens(
        _alloc: Global,
        _format: Format,
        reader: &mut Reader<'_>,
        _depth: usize,
    ) -> Option<SwitchKind> {
        switch_kind_of(next_text(reader)?)
    }
}

impl FromTokens for InjectionKind {
    fn from_tokens(
        _alloc: Global,
        format: Format,
        reader: &mut Reader<'_>,
        _depth: usize,
    ) -> Option<InjectionKind> {
        injection_kind_of(format, next_text(reader)?)
    }
}

// How much more room than its items a list may keep.
const SPARE: usize = 8;

/// Gives back the room of a list, where there is much more of it than items: lists of a draft stand until all is read.
fn give_back<T: Drop>(list: &mut Vec<T>)
    ensures { list.new.items ≡ list.old.items }
{
    if list.capacity() - list.len() > SPARE {
        list.shrink_to_fit();
    }
}

impl<T: FromTokens> FromTokens for Seq<T> {
    fn from_tokens(
        alloc: Global,
        format: Format,
        reader: &mut Reader<'_>,
        depth: usize,
    ) -> Option<Seq<T>> {
        if depth == 0 {
            return None;
        }
        let Some(Token::BeginArray) = reader.next() else {
            return None;
        };
        let mut list = Vec::new(alloc);
        'items: while !reader.take_end_array() {
            let item = T::from_tokens(alloc, format, reader, depth - 1)?;
            list.push(item).ok()?;
        }
        give_back(&mut list);
        Some(Seq::from_vec(list))
    }
}

/// What came of a member that slots were offered.
#[derive(Drop)]
pub enum Offer {
    /// Its value is in the slot of its name.
    Taken,
    /// There is no slot of its name.
    Unknown,
    /// Its value has a fault, or memory runs out.
    Fault,
}

/// Whether the name is the known one. Where it is inlined, a name of another length is told by its length.
#[inline(always)]
pub fn is_named(name: &str, known: &str) -> bool
    ensures { result ≡ bytes_eq known.now name.now }
{
    known.len() == name.len() && known == name
}

/// The members of an object that were found so far, each in a slot of its own.
pub trait Slots: Sized + Drop {
    // The names that have a slot.
    ghost names: { List (List ℕ) };
    // Whether no name has two slots.
    ghost apart: { Bool };
    // What the slots hold of the members that were found.
    ghost holds: { FormatAt → Self → MembersData → Type 0 };

    /// Nothing is found so far.
    fn empty() -> Self
        ensures { (format : FormatAt) → holds format result no_members };

    /// Takes the next value of the reader as the member of a name, where that name has a slot and there is no fault.
    fn take(
        &mut self,
        alloc: Global,
        format: Format,
        name: &str,
        reader: &mut Reader<'_>,
        depth: usize,
    ) -> Offer
        requires { apart ≡ true }
        ensures { Offered names (holds format) name.now depth reader.old reader.new self.old self.new
            result };

    // A member of another name leaves the slots as they are.
    ghost kept: { (format : FormatAt) (slots : Self) (name : List ℕ) (d : Data) (found : MembersData)
        → knows names name ≡ false → holds format slots found → holds format slots (put name d found) };
}

/// Two groups of slots, as one.
#[derive(Drop)]
pub struct Both<A, B> {
    pub first: A,
    pub second: B,
}

impl<A: Slots, B: Slots> Slots for Both<A, B> {
    ghost names = { A.names ++ B.names };

    ghost apart = { A.apart && (B.apart && disjoint A.names B.names) };

    ghost holds = { λ format both found. A.holds format both.first found
        × B.holds format both.second found };

    ghost kept = { λ format both name d found other held. (
      A.kept format both.first name d found (first_unknown A.names B.names name other) held.0,
      B.kept format both.second name d found (second_unknown A.names B.names name other) held.1,
    ) };

    fn empty() -> Both<A, B> {
        Both {
            first: A::empty(),
            second: B::empty(),
        }
    }

    fn take(
        &mut self,
        alloc: Global,
        format: Format,
        name: &str,
        reader: &mut Reader<'_>,
        depth: usize,
    ) -> Offer {
        match self.first.take(alloc, format, name, reader, depth) {
            Offer::Taken => Offer::Taken,
            Offer::Unknown => self.second.take(alloc, format, name, reader, depth),
            Offer::Fault => Offer::Fault,
        }
    }
}

/// Takes the next value of the reader into a slot.
pub fn fill<T: FromTokens>(
    alloc: Global,
    format: Format,
    slot: &mut Option<T>,
    reader: &mut Reader<'_>,
    depth: usize,
) -> Offer
    ensures { WhereTaken result
        (Fills (T.reads format) depth reader.old reader.new slot.new
        × (length reader.new < length reader.old)) }
{
    match T::from_tokens(alloc, format, reader, depth) {
        Some(value) => {
            *slot = Some(value);
            Offer::Taken
        }
        None => Offer::Fault,
    }
}

/// The members up to the end of an object that was begun, put into slots that may hold some of its members. Arrays and
/// objects may nest `depth` deep in it.
pub fn members_of<S: Slots>(
    alloc: Global,
    format: Format,
    reader: &mut Reader<'_>,
    depth: usize,
    begun: S,
) -> Option<S>
    requires { S.apart ≡ true }
    ensures rest { IfSome result (IsRest S.names (S.holds format) depth reader.old reader.new begun) }
    ensures shorter { OnSome result (length reader.new < length reader.old) }
{
    let mut slots = begun;
    'members: while let Some(name) = reader.next_key().ok()? {
        let Offer::Taken = slots.take(alloc, format, name, reader, depth) else {
            return None;
        };
    }
    Some(slots)
}

/// The next value of the reader as an object.
pub fn object_of<S: Slots>(
    alloc: Global,
    format: Format,
    reader: &mut Reader<'_>,
    depth: usize,
) -> Option<S>
    requires { S.apart ≡ true }
    ensures object { IfSome result
        (λ slots. IsObject (Among S.names (S.holds format) slots) depth reader.old reader.new) }
    ensures shorter { OnSome result (length reader.new < length reader.old) }
{
    if depth == 0 {
        return None;
    }
    let Some(Token::BeginObject) = reader.next() else {
        return None;
    };
    members_of(alloc, format, reader, depth - 1, S::empty())
}

/// The items of a slot, or none.
pub fn or_none<T: Drop>(alloc: Global, slot: Option<Seq<T>>) -> Seq<T>
    ensures { result ≡ unwrap_or slot [] }
{
    match slot {
        Some(items) => items,
        None => Seq::empty(alloc),
    }
}
