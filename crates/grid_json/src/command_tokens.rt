// Commands straight from the tokens. The verb is read first, and it says which members there are, so that a command
// whose verb stands behind other members is not read here.
ghost use Rattle.std.specs.Prelude.{◌≡◌, ◌<◌, ◌∷◌, [], IfSome, OnSome, codes, length, true, false};
ghost use Rattle.grid_json.specs.Reading.{knows};
ghost use Rattle.grid_json.specs.CommandTokens.{BeginsCommand, Completes, HoldsBehind, IsIdUnder, IsInternalEdit, IsSided, ShapeOf, internal_edit_names, sided_names};

use crate::command::{EditVerb, Verb, line, three_windings, two_windings};
use crate::format::Format;
use crate::injections::{FigureSlots, InjectionKindSlot, figures_in, injection_in};
use crate::kinds::BranchKind;
use crate::slot::{
    EndsName, IdName, KindName, MemberName, NoSlots, RatedName, Slot, none_in, three_in, two_in,
};
use crate::slots::{FlagSlots, KindSlots, NodeSlots, PlaceSlots, VoltageSlots};
use crate::tokens::{Both, FromTokens, Slots, is_named, leaf, members_of};
use grid_ids::{Id, Seq};
use grid_requests::Request;
use grid_structure::{BoxedBranch, Branch, Edit, End};
use json::{Reader, Token};
use std::alloc::Global;

/// `variant`.
struct VariantName;

impl MemberName for VariantName {
    ghost name = { codes "variant" };

    #[inline(always)]
    fn text() -> &'static str {
        "variant"
    }
}

/// `switch`.
struct SwitchName;

impl MemberName for SwitchName {
    ghost name = { codes "switch" };

    #[inline(always)]
    fn text() -> &'static str {
        "switch"
    }
}

/// `equipment`.
struct EquipmentName;

impl MemberName for EquipmentName {
    ghost name = { codes "equipment" };

    #[inline(always)]
    fn text() -> &'static str {
        "equipment"
    }
}

/// `level`.
struct LevelName;

impl MemberName for LevelName {
    ghost name = { codes "level" };

    #[inline(always)]
    fn text() -> &'static str {
        "level"
    }
}

/// `retained`.
struct RetainedName;

impl MemberName for RetainedName {
    ghost name = { codes "retained" };

    #[inline(always)]
    fn text() -> &'static str {
        "retained"
    }
}

/// `watts`.
struct WattsName;

impl MemberName for WattsName {
    ghost name = { codes "watts" };

    #[inline(always)]
    fn text() -> &'static str {
        "watts"
    }
}

/// `side`.
struct SideName;

impl MemberName for SideName {
    ghost name = { codes "side" };

    #[inline(always)]
    fn text() -> &'static str {
        "side"
    }
}

/// `from`.
struct FromName;

impl MemberName for FromName {
    ghost name = { codes "from" };

    #[inline(always)]
    fn text() -> &'static str {
        "from"
    }
}

/// `to`.
struct ToName;

impl MemberName for ToName {
    ghost name = { codes "to" };

    #[inline(always)]
    fn text() -> &'static str {
        "to"
    }
}

/// `overwrite`.
struct OverwriteName;

impl MemberName for OverwriteName {
    ghost name = { codes "overwrite" };

    #[inline(always)]
    fn text() -> &'static str {
        "overwrite"
    }
}

/// `substation`.
struct SubstationName;

impl MemberName for SubstationName {
    ghost name = { codes "substation" };

    #[inline(always)]
    fn text() -> &'static str {
        "substation"
    }
}

/// The verb that the next value of a reader begins with.
fn first_verb(alloc: Global, format: Format, reader: &mut Reader<'_>, depth: usize) -> Option<Verb>
    requires { 0 < depth }
    ensures verb { IfSome result (λ verb. BeginsCommand format verb depth reader.old reader.new) }
    ensures shorter { OnSome result (length reader.new < length reader.old) }
{
    let Some(Token::BeginObject) = reader.next() else {
        return None;
    };
    let Some(name) = reader.next_key().ok()? else {
        return None;
    };
    if !is_named(name, "do") {
        return None;
    }
    leaf(alloc, format, reader)
}

/// The members of a command behind its verb.
fn behind_verb<S: Slots>(
    alloc: Global,
    format: Format,
    reader: &mut Reader<'_>,
    depth: usize,
) -> Option<S>
    requires deep { 0 < depth }
    requires apart { S.apart ≡ true }
    requires other { knows S.names (codes "do") ≡ false }
    ensures slots { IfSome result
        (HoldsBehind format S.names (S.holds format) depth reader.old reader.new) }
    ensures shorter { OnSome result (length reader.new < length reader.old) }
{
    members_of(alloc, format, reader, depth - 1, S::empty())
}

/// The id under the name `N`, where a command has no member but it behind its verb.
fn lone_id<N: MemberName>(
    alloc: Global,
    format: Format,
    reader: &mut Reader<'_>,
    depth: usize,
) -> Option<Id>
    requires deep { 0 < depth }
    requires other { knows (N.name ∷ []) (codes "do") ≡ false }
    ensures id { IfSome result (HoldsBehind format (N.name ∷ []) (IsIdUnder N.name) depth reader.old
        reader.new) }
    ensures shorter { OnSome result (length reader.new < length reader.old) }
{
    let slot: Slot<N, Id> = behind_verb(alloc, format, reader, depth)?;
    slot.value
}

/// An added level, behind its verb.
fn added_level(alloc: Global, format: Format, reader: &mut Reader<'_>, depth: usize) -> Option<Edit>
    requires { 0 < depth }
    ensures edit { IfSome result (λ edit. Completes format (Verb.Change EditVerb.AddLevel) depth
        reader.old reader.new (Request.Change edit)) }
    ensures shorter { OnSome result (length reader.new < length reader.old) }
{
    let slots: Both<VoltageSlots, Slot<SubstationName, Id>> = behind_verb(
        alloc, format, reader, depth,
    )?;
    let Both {
        first: voltages,
        second: substation,
    } = slots;
    Some(Edit::AddLevel {
        id: voltages.id?,
        substation: substation.value?,
        nominal_v: voltages.nominal_v?,
        low_v: voltages.low_v,
        high_v: voltages.high_v,
    })
}

/// An added busbar section, behind its verb.
fn added_busbar(
    alloc: Global,
    format: Format,
    reader: &mut Reader<'_>,
    depth: usize,
) -> Option<Edit>
    requires { 0 < depth }
    ensures edit { IfSome result (λ edit. Completes format (Verb.Change EditVerb.AddBusbar) depth
        reader.old reader.new (Request.Change edit)) }
    ensures shorter { OnSome result (length reader.new < length reader.old) }
{
    let slots: Both<PlaceSlots, Slot<LevelName, Id>> = behind_verb(alloc, format, reader, depth)?;
    let Both {
        first: place,
        second: level,
    } = slots;
    Some(Edit::AddBusbar {
        id: place.id?,
        level: level.value?,
        node: place.node?,
    })
}

/// The slots of an added switch.
type SwitchEditSlots = Both<KindSlots, Both<Slot<LevelName, Id>, Both<NodeSlots, FlagSlots>>>;

/// An added switch, behind its verb.
fn added_switch(
    alloc: Global,
    format: Format,
    reader: &mut Reader<'_>,
    depth: usize,
) -> Option<Edit>
    requires { 0 < depth }
    ensures edit { IfSome result (λ edit. Completes format (Verb.Change EditVerb.AddSwitch) depth
        reader.old reader.new (Request.Change edit)) }
    ensures shorter { OnSome result (length reader.new < length reader.old) }
{
    let slots: SwitchEditSlots = behind_verb(alloc, format, reader, depth)?;
    let Both {
        first: named,
        second: rest,
    } = slots;
    let Both {
        first: level,
        second: rest,
    } = rest;
    let Both {
        first: nodes,
        second: flags,
    } = rest;
    Some(Edit::AddSwitch {
        id: named.id?,
        level: level.value?,
        kind: named.kind?,
        node1: nodes.node1?,
        node2: nodes.node2?,
        opened: flags.opened.unwrap_or(false),
        retained: flags.retained.unwrap_or(false),
        fictitious: flags.fictitious.unwrap_or(false),
    })
}

/// The level and the nodes of an internal connection, behind a verb.
#[derive(Drop)]
struct InternalEdit {
    level: Id,
    node1: i64,
    node2: i64,
}

/// The members of an added or a removed internal connection, behind its verb.
fn internal_behind(
    alloc: Global,
    format: Format,
    reader: &mut Reader<'_>,
    depth: usize,
) -> Option<InternalEdit>
    requires { 0 < depth }
    ensures edit { IfSome result (HoldsBehind format internal_edit_names IsInternalEdit depth
        reader.old reader.new) }
    ensures shorter { OnSome result (length reader.new < length reader.old) }
{
    let slots: Both<Slot<LevelName, Id>, NodeSlots> = behind_verb(alloc, format, reader, depth)?;
    let Both {
        first: level,
        second: nodes,
    } = slots;
    Some(InternalEdit {
        level: level.value?,
        node1: nodes.node1?,
        node2: nodes.node2?,
    })
}

/// The slots of an added injection.
type InjectionEditSlots = Both<
    InjectionKindSlot,
    Both<PlaceSlots, Both<Slot<LevelName, Id>, FigureSlots>>,
>;

/// An added injection, behind its verb.
fn added_injection(
    alloc: Global,
    format: Format,
    reader: &mut Reader<'_>,
    depth: usize,
) -> Option<Edit>
    requires { 0 < depth }
    ensures edit { IfSome result (λ edit. Completes format (Verb.Change EditVerb.AddInjection) depth
        reader.old reader.new (Request.Change edit)) }
    ensures shorter { OnSome result (length reader.new < length reader.old) }
{
    let slots: InjectionEditSlots = behind_verb(alloc, format, reader, depth)?;
    let Both {
        first: kinds,
        second: rest,
    } = slots;
    let Both {
        first: place,
        second: rest,
    } = rest;
    let Both {
        first: level,
        second: figures,
    } = rest;
    let item = injection_in(kinds.kind?, &figures_in(figures))?;
    Some(Edit::AddInjection {
        id: place.id?,
        level: level.value?,
        node: place.node?,
        item,
    })
}

/// The slots of an added branch.
type BranchEditSlots = Both<
    Slot<KindName, BranchKind>,
    Both<
        Slot<IdName, Id>,
        Both<Slot<EndsName, Seq<End>>, Both<Slot<SubstationName, Id>, Slot<RatedName, Seq<i64>>>>,
    >,
>;

/// The branch of a kind, where these are its members.
fn shape_in(
    kind: BranchKind,
    ends: Seq<End>,
    substation: Option<Id>,
    rated: Option<Seq<i64>>,
) -> Option<Branch>
    ensures { IfSome result (ShapeOf kind ends substation rated) }
{
    match kind {
        BranchKind::Line => {
            none_in(substation)?;
            none_in(rated)?;
            Some(line(two_in(ends)?))
        }
        BranchKind::TwoWindings => {
            let ends = two_in(ends)?;
            let voltages = two_in(rated?)?;
            Some(two_windings(substation?, ends, &voltages))
        }
        BranchKind::ThreeWindings => {
            let ends = three_in(ends)?;
            let voltages = three_in(rated?)?;
            Some(three_windings(substation?, ends, &voltages))
        }
    }
}

/// The branch in a box of its own, where there is memory for it.
fn boxed(alloc: Global, branch: Branch) -> Option<BoxedBranch>
    ensures { IfSome result (λ boxed. boxed ≡ branch) }
{
    BoxedBranch::new(alloc, branch).ok()
}

/// An added branch, behind its verb.
fn added_branch(
    alloc: Global,
    format: Format,
    reader: &mut Reader<'_>,
    depth: usize,
) -> Option<Edit>
    requires { 0 < depth }
    ensures edit { IfSome result (λ edit. Completes format (Verb.Change EditVerb.AddBranch) depth
        reader.old reader.new (Request.Change edit)) }
    ensures shorter { OnSome result (length reader.new < length reader.old) }
{
    let slots: BranchEditSlots = behind_verb(alloc, format, reader, depth)?;
    let Both {
        first: kind,
        second: rest,
    } = slots;
    let Both {
        first: id,
        second: rest,
    } = rest;
    let Both {
        first: ends,
        second: rest,
    } = rest;
    let Both {
        first: substation,
        second: rated,
    } = rest;
    let branch = shape_in(kind.value?, ends.value?, substation.value, rated.value)?;
    let shape = boxed(alloc, branch)?;
    Some(Edit::AddBranch {
        id: id.value?,
        shape,
    })
}

/// The edit of a verb, behind it.
fn edit_behind(
    alloc: Global,
    format: Format,
    verb: EditVerb,
    reader: &mut Reader<'_>,
    depth: usize,
) -> Option<Edit>
    requires { 0 < depth }
    ensures edit { IfSome result (λ edit. Completes format (Verb.Change verb) depth reader.old
        reader.new (Request.Change edit)) }
    ensures shorter { OnSome result (length reader.new < length reader.old) }
{
    match verb {
        EditVerb::AddSubstation => {
            let id = lone_id::<IdName>(alloc, format, reader, depth)?;
            Some(Edit::AddSubstation { id })
        }
        EditVerb::AddLevel => added_level(alloc, format, reader, depth),
        EditVerb::AddBusbar => added_busbar(alloc, format, reader, depth),
        EditVerb::AddSwitch => added_switch(alloc, format, reader, depth),
        EditVerb::RemoveSwitch => {
            let id = lone_id::<IdName>(alloc, format, reader, depth)?;
            Some(Edit::RemoveSwitch { id })
        }
        EditVerb::RemoveEquipment => {
            let id = lone_id::<IdName>(alloc, format, reader, depth)?;
            Some(Edit::RemoveEquipment { id })
        }
        EditVerb::AddInternal => {
            let internal = internal_behind(alloc, format, reader, depth)?;
            Some(Edit::AddInternal {
                level: internal.level,
                node1: internal.node1,
                node2: internal.node2,
            })
        }
        EditVerb::RemoveInternal => {
            let internal = internal_behind(alloc, format, reader, depth)?;
            Some(Edit::RemoveInternal {
                level: internal.level,
                node1: internal.node1,
                node2: internal.node2,
            })
        }
        EditVerb::AddInjection => added_injection(alloc, format, reader, depth),
        EditVerb::AddBranch => added_branch(alloc, format, reader, depth),
    }
}

/// What becomes of whether a switch is retained, behind its verb.
fn retained_switch(
    alloc: Global,
    format: Format,
    reader: &mut Reader<'_>,
    depth: usize,
) -> Option<Request>
    requires { 0 < depth }
    ensures request { IfSome result (Completes format Verb.Retain depth reader.old reader.new) }
    ensures shorter { OnSome result (length reader.new < length reader.old) }
{
    let slots: Both<Slot<SwitchName, Id>, Slot<RetainedName, bool>> = behind_verb(
        alloc, format, reader, depth,
    )?;
    Some(Request::RetainSwitch {
        id: slots.first.value?,
        retained: slots.second.value?,
    })
}

/// A set power, behind its verb.
fn set_power(
    alloc: Global,
    format: Format,
    reader: &mut Reader<'_>,
    depth: usize,
) -> Option<Request>
    requires { 0 < depth }
    ensures request { IfSome result (Completes format Verb.SetPower depth reader.old reader.new) }
    ensures shorter { OnSome result (length reader.new < length reader.old) }
{
    let slots: Both<Slot<EquipmentName, Id>, Slot<WattsName, i64>> = behind_verb(
        alloc, format, reader, depth,
    )?;
    Some(Request::SetPower {
        id: slots.first.value?,
        watts: slots.second.value?,
    })
}

/// A clone of a variant, behind its verb.
fn cloned_variant(
    alloc: Global,
    format: Format,
    reader: &mut Reader<'_>,
    depth: usize,
) -> Option<Request>
    requires { 0 < depth }
    ensures request { IfSome result (Completes format Verb.Clone depth reader.old reader.new) }
    ensures shorter { OnSome result (length reader.new < length reader.old) }
{
    let slots: Both<Slot<FromName, Id>, Both<Slot<ToName, Id>, Slot<OverwriteName, bool>>> =
        behind_verb(alloc, format, reader, depth)?;
    let Both {
        first: from,
        second: rest,
    } = slots;
    Some(Request::CloneVariant {
        from: from.value?,
        to: rest.first.value?,
        overwrite: rest.second.value.unwrap_or(false),
    })
}

/// The equipment of a connect or of a disconnect, and its side.
#[derive(Drop)]
struct Sided {
    id: Id,
    side: i64,
}

/// The members of a connect or of a disconnect, behind its verb.
fn sided_behind(
    alloc: Global,
    format: Format,
    reader: &mut Reader<'_>,
    depth: usize,
) -> Option<Sided>
    requires { 0 < depth }
    ensures sided { IfSome result (HoldsBehind format sided_names IsSided depth reader.old
        reader.new) }
    ensures shorter { OnSome result (length reader.new < length reader.old) }
{
    let slots: Both<Slot<EquipmentName, Id>, Slot<SideName, i64>> = behind_verb(
        alloc, format, reader, depth,
    )?;
    Some(Sided {
        id: slots.first.value?,
        side: slots.second.value.unwrap_or(1),
    })
}

/// A request for the totals, behind its verb.
fn totals(alloc: Global, format: Format, reader: &mut Reader<'_>, depth: usize) -> Option<Request>
    requires { 0 < depth }
    ensures request { IfSome result (Completes format Verb.Totals depth reader.old reader.new) }
    ensures shorter { OnSome result (length reader.new < length reader.old) }
{
    let NoSlots = behind_verb(alloc, format, reader, depth)?;
    Some(Request::Totals)
}

/// The request of a verb that has one name behind it, and nothing of another verb.
fn named_behind(
    alloc: Global,
    format: Format,
    verb: Verb,
    reader: &mut Reader<'_>,
    depth: usize,
) -> Option<Request>
    requires { 0 < depth }
    ensures request { IfSome result (Completes format verb depth reader.old reader.new) }
    ensures shorter { OnSome result (length reader.new < length reader.old) }
{
    match verb {
        Verb::Use => Some(Request::UseVariant {
            name: lone_id::<VariantName>(alloc, format, reader, depth)?,
        }),
        Verb::Remove => Some(Request::RemoveVariant {
            name: lone_id::<VariantName>(alloc, format, reader, depth)?,
        }),
        Verb::Open => Some(Request::OpenSwitch {
            id: lone_id::<SwitchName>(alloc, format, reader, depth)?,
        }),
        Verb::Close => Some(Request::CloseSwitch {
            id: lone_id::<SwitchName>(alloc, format, reader, depth)?,
        }),
        Verb::BusBreakerView => Some(Request::BusBreakerView {
            level: lone_id::<LevelName>(alloc, format, reader, depth)?,
        }),
        Verb::BusView => Some(Request::BusView {
            level: lone_id::<LevelName>(alloc, format, reader, depth)?,
        }),
        Verb::Components => Some(Request::Components {
            level: lone_id::<LevelName>(alloc, format, reader, depth)?,
        }),
        _ => None,
    }
}

/// The request of a verb, behind it.
fn request_behind(
    alloc: Global,
    format: Format,
    verb: Verb,
    reader: &mut Reader<'_>,
    depth: usize,
) -> Option<Request>
    requires { 0 < depth }
    ensures request { IfSome result (Completes format verb depth reader.old reader.new) }
    ensures shorter { OnSome result (length reader.new < length reader.old) }
{
    match verb {
        Verb::Retain => retained_switch(alloc, format, reader, depth),
        Verb::SetPower => set_power(alloc, format, reader, depth),
        Verb::Totals => totals(alloc, format, reader, depth),
        Verb::Connect => {
            let sided = sided_behind(alloc, format, reader, depth)?;
            Some(Request::Connect {
                id: sided.id,
                side: sided.side,
            })
        }
        Verb::Disconnect => {
            let sided = sided_behind(alloc, format, reader, depth)?;
            Some(Request::Disconnect {
                id: sided.id,
                side: sided.side,
            })
        }
        Verb::Clone => cloned_variant(alloc, format, reader, depth),
        Verb::Change(edit) => Some(Request::Change {
            edit: edit_behind(alloc, format, edit, reader, depth)?,
        }),
        named => named_behind(alloc, format, named, reader, depth),
    }
}

impl FromTokens for BranchKind {
    fn from_tokens(
        alloc: Global,
        format: Format,
        reader: &mut Reader<'_>,
        _depth: usize,
    ) -> Option<BranchKind> {
        leaf(alloc, format, reader)
    }
}

impl FromTokens for Request {
    fn from_tokens(
        alloc: Global,
        format: Format,
        reader: &mut Reader<'_>,
        depth: usize,
    ) -> Option<Request> {
        if depth == 0 {
            return None;
        }
        let verb = first_verb(alloc, format, reader, depth)?;
        request_behind(alloc, format, verb, reader, depth)
    }
}
