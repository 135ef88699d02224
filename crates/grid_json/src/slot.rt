// A slot for the member of one name.
ghost use Rattle.std.specs.Prelude.{◌≡◌, ◌∷◌, ℕ, List, [], None, IfSome, OnSome, codes, true};
ghost use Rattle.grid_json.specs.Streams.{Holds};

use crate::ends::{Three, Two};
use crate::format::Format;
use crate::tokens::{FromTokens, Offer, Slots, fill, is_named};
use grid_ids::Seq;
use json::Reader;
use std::alloc::Global;
use std::marker::PhantomData;

/// The name of a member.
pub trait MemberName {
    ghost name: { List ℕ };

    fn text() -> &'static str
        ensures { result.now ≡ name };
}

/// `id`.
pub struct IdName;

impl MemberName for IdName {
    ghost name = { codes "id" };

    #[inline(always)]
    fn text() -> &'static str {
        "id"
    }
}

/// `kind`.
pub struct KindName;

impl MemberName for KindName {
    ghost name = { codes "kind" };

    #[inline(always)]
    fn text() -> &'static str {
        "kind"
    }
}

/// `ends`.
pub struct EndsName;

impl MemberName for EndsName {
    ghost name = { codes "ends" };

    #[inline(always)]
    fn text() -> &'static str {
        "ends"
    }
}

/// `rated_u`.
pub struct RatedName;

impl MemberName for RatedName {
    ghost name = { codes "rated_u" };

    #[inline(always)]
    fn text() -> &'static str {
        "rated_u"
    }
}

/// The member of the name `N`, where it was found.
#[derive(Drop)]
pub struct Slot<N, T> {
    pub value: Option<T>,
    name: PhantomData<N>,
}

impl<N: MemberName, T: FromTokens> Slots for Slot<N, T> {
    ghost use Rattle.grid_json.specs.Kept.{lone_kept};

    ghost names = { N.name ∷ [] };

    ghost apart = { true };

    ghost holds = { λ format slot found. Holds (T.reads format) N.name found slot.value };

    ghost kept = { λ format slot name d found other held. lone_kept N.name name d other held };

    fn empty() -> Slot<N, T> {
        Slot {
            value: None,
            name: PhantomData,
        }
    }

    fn take(
        &mut self,
        alloc: Global,
        format: Format,
        name: &str,
        reader: &mut Reader<'_>,
        depth: usize,
    ) -> Offer {
        if is_named(name, N::text()) {
            fill(alloc, format, &mut self.value, reader, depth)
        } else {
            Offer::Unknown
        }
    }
}

/// Of no member.
#[derive(Drop)]
pub struct NoSlots;

impl Slots for NoSlots {
    ghost use Rattle.std.specs.Prelude.{⊤};

    ghost names = { [] };

    ghost apart = { true };

    ghost holds = { λ _ _ _. ⊤ };

    ghost kept = { λ _ _ _ _ _ _ held. held };

    fn empty() -> NoSlots {
        NoSlots
    }

    fn take(
        &mut self,
        _alloc: Global,
        _format: Format,
        _name: &str,
        _reader: &mut Reader<'_>,
        _depth: usize,
    ) -> Offer {
        Offer::Unknown
    }
}

/// Goes on where nothing was found.
pub fn none_in<T: Drop>(slot: Option<T>) -> Option<()>
    ensures { OnSome result (slot ≡ None) }
{
    match slot {
        None => Some(()),
        Some(_) => None,
    }
}

/// The items of a list of two.
pub fn two_in<T: Drop>(list: Seq<T>) -> Option<Two<T>>
    ensures { IfSome result (λ two. list ≡ two.first ∷ two.second ∷ []) }
{
    let mut left = list;
    let second = left.pop()?;
    let first = left.pop()?;
    if left.len() > 0 {
        return None;
    }
    Some(Two { first, second })
}

/// The items of a list of three.
pub fn three_in<T: Drop>(list: Seq<T>) -> Option<Three<T>>
    ensures { IfSome result (λ three. list ≡ three.first ∷ three.second ∷ three.third ∷ []) }
{
    let mut left = list;
    let third = left.pop()?;
    let second = left.pop()?;
    let first = left.pop()?;
    if left.len() > 0 {
        return None;
    }
    Some(Three {
        first,
        second,
        third,
    })
}
