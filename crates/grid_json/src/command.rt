// The commands of a script.
ghost use Rattle.std.specs.Prelude.{◌≡◌, codes, map};
ghost use Rattle.grid_value.specs.View.{view};
ghost use Rattle.grid_json.specs.Reading.{Gives, texts, or_fault, word_among, word_at};
ghost use Rattle.grid_json.specs.Words.{AreWords};
ghost use Rattle.grid_json.specs.Command.{known_verb, verb_at, command_names, plain_names, branch_names, add_level_at, add_busbar_at, add_switch_at, add_internal_at, remove_internal_at, add_injection_at, shape_at, add_branch_at, clone_at, retain_at, set_power_at, edit_at, request_at, plain_words, edit_words, verb_words, line_of, two_windings_of, three_windings_of, named_at, sided_at};

use crate::ends::{Three, Two};
use crate::format::Format;
use crate::kinds::{BranchKind, InjectionKind};
use crate::network::{item_of, names_of_item};
use crate::read::{FromJson, member, member_otherwise, object, only, only_of_kind, optional};
use crate::{ReadError, Reason};
use grid_ids::Id;
use grid_requests::Request;
use grid_structure::{BoxedBranch, Branch, Edit, End};
use grid_value::Value;
use std::alloc::Global;

/// The edits that a command may ask for.
#[derive(Clone, Copy, Debug, PartialEq, Eq)]
pub enum EditVerb {
    AddSubstation,
    AddLevel,
    AddBusbar,
    AddSwitch,
    RemoveSwitch,
    RemoveEquipment,
    AddInternal,
    RemoveInternal,
    AddInjection,
    AddBranch,
}

/// What a command asks for.
#[derive(Clone, Copy, Debug, PartialEq, Eq)]
pub enum Verb {
    Use,
    Remove,
    Open,
    Close,
    Retain,
    SetPower,
    Totals,
    Connect,
    Disconnect,
    BusBreakerView,
    BusView,
    Components,
    Clone,
    Change(EditVerb),
}

impl EditVerb {
    ghost use Rattle.std.specs.Prelude.{◌≡◌};
    ghost use Rattle.grid_json.specs.Command.{edit_verb_of};

    /// What an edit is asked for by.
    fn of(edit: &Edit) -> EditVerb
        ensures { result ≡ edit_verb_of edit.now }
    {
        match edit {
            Edit::AddSubstation { .. } => EditVerb::AddSubstation,
            Edit::AddLevel { .. } => EditVerb::AddLevel,
            Edit::AddBusbar { .. } => EditVerb::AddBusbar,
            Edit::AddSwitch { .. } => EditVerb::AddSwitch,
            Edit::RemoveSwitch { .. } => EditVerb::RemoveSwitch,
            Edit::AddInternal { .. } => EditVerb::AddInternal,
            Edit::RemoveInternal { .. } => EditVerb::RemoveInternal,
            Edit::AddInjection { .. } => EditVerb::AddInjection,
            Edit::AddBranch { .. } => EditVerb::AddBranch,
            Edit::RemoveEquipment { .. } => EditVerb::RemoveEquipment,
        }
    }
}

impl Verb {
    ghost use Rattle.std.specs.Prelude.{◌≡◌};
    ghost use Rattle.grid_json.specs.Command as command;

    /// What a request is asked for by.
    pub fn of(request: &Request) -> Verb
        ensures { result ≡ command.verb_of request.now }
    {
        match request {
            Request::UseVariant { .. } => Verb::Use,
            Request::OpenSwitch { .. } => Verb::Open,
            Request::CloseSwitch { .. } => Verb::Close,
            Request::RetainSwitch { .. } => Verb::Retain,
            Request::SetPower { .. } => Verb::SetPower,
            Request::Totals => Verb::Totals,
            Request::Connect { .. } => Verb::Connect,
            Request::Disconnect { .. } => Verb::Disconnect,
            Request::BusBreakerView { .. } => Verb::BusBreakerView,
            Request::BusView { .. } => Verb::BusView,
            Request::Components { .. } => Verb::Components,
            Request::CloneVariant { .. } => Verb::Clone,
            Request::RemoveVariant { .. } => Verb::Remove,
            Request::Change { edit } => Verb::Change(EditVerb::of(edit)),
        }
    }

    /// The number of the format that its word came with.
    pub fn since(self) -> u32
        ensures { result ≡ command.verb_format self }
    {
        match self {
            Verb::Retain => 2,
            Verb::SetPower | Verb::Totals => 3,
            _ => 1,
        }
    }
}

/// The verb of a word that asks for no edit.
fn plain_verb(word: &str) -> Option<Verb>
    ensures { or_fault Reason.Unknown result ≡ word_among plain_words word.now }
{
    match word {
        "use" => Some(Verb::Use),
        "remove" => Some(Verb::Remove),
        "open" => Some(Verb::Open),
        "close" => Some(Verb::Close),
        "retain" => Some(Verb::Retain),
        "set_power" => Some(Verb::SetPower),
        "totals" => Some(Verb::Totals),
        "connect" => Some(Verb::Connect),
        "disconnect" => Some(Verb::Disconnect),
        "bus_breaker_view" => Some(Verb::BusBreakerView),
        "bus_view" => Some(Verb::BusView),
        "components" => Some(Verb::Components),
        "clone" => Some(Verb::Clone),
        _ => None,
    }
}

/// The edit that a word asks for.
fn edit_verb(word: &str) -> Option<EditVerb>
    ensures { or_fault Reason.Unknown result ≡ word_among edit_words word.now }
{
    match word {
        "add_substation" => Some(EditVerb::AddSubstation),
        "add_level" => Some(EditVerb::AddLevel),
        "add_busbar" => Some(EditVerb::AddBusbar),
        "add_switch" => Some(EditVerb::AddSwitch),
        "remove_switch" => Some(EditVerb::RemoveSwitch),
        "remove_equipment" => Some(EditVerb::RemoveEquipment),
        "add_internal" => Some(EditVerb::AddInternal),
        "remove_internal" => Some(EditVerb::RemoveInternal),
        "add_injection" => Some(EditVerb::AddInjection),
        "add_branch" => Some(EditVerb::AddBranch),
        _ => None,
    }
}

/// The verb of a word, whichever format it came with.
pub fn verb_named(word: &str) -> Option<Verb>
    ensures { or_fault Reason.Unknown result ≡ word_among verb_words word.now }
{
    if let Some(verb) = plain_verb(word) {
        return Some(verb);
    }
    Some(Verb::Change(edit_verb(word)?))
}

/// The words of `do`, each with the number of the format that it came with, in the order in which they are told.
pub fn command_words() -> &'static [(&'static str, i64)]
    ensures { AreWords verb_at (map (λ w. w.0) verb_words) result.now }
{
    &[
        ("add_branch", 1),
        ("add_busbar", 1),
        ("add_injection", 1),
        ("add_internal", 1),
        ("add_level", 1),
        ("add_substation", 1),
        ("add_switch", 1),
        ("bus_breaker_view", 1),
        ("bus_view", 1),
        ("clone", 1),
        ("close", 1),
        ("components", 1),
        ("connect", 1),
        ("disconnect", 1),
        ("open", 1),
        ("remove", 1),
        ("remove_equipment", 1),
        ("remove_internal", 1),
        ("remove_switch", 1),
        ("use", 1),
        ("retain", 2),
        ("set_power", 3),
        ("totals", 3),
    ]
}

/// The verb of a value.
fn verb_of(alloc: Global, value: &Value) -> Result<Verb, ReadError>
    ensures { Gives result (word_at verb_words (view value.now)) }
{
    let Some(word) = value.as_str() else {
        return Err(ReadError::here(alloc, Reason::WrongKind));
    };
    match verb_named(word) {
        Some(verb) => Ok(verb),
        None => Err(ReadError::here(alloc, Reason::Unknown)),
    }
}

/// The verb, where the format has it.
fn known(alloc: Global, format: Format, verb: Verb) -> Result<Verb, ReadError>
    ensures { Gives result (known_verb format verb) }
{
    if verb.since() <= format.number() {
        Ok(verb)
    } else {
        Err(ReadError::here(alloc, Reason::Unknown))
    }
}

impl FromJson for Verb {
    ghost use Rattle.grid_json.specs.Command.{verb_at};

    ghost reads = { verb_at };

    fn from_json(alloc: Global, format: Format, value: &Value) -> Result<Verb, ReadError> {
        let verb = verb_of(alloc, value)?;
        known(alloc, format, verb)
    }
}

/// The members of an edit without a kind.
fn names_of_edit(verb: EditVerb) -> &'static [&'static str]
    ensures { texts result.now ≡ command_names (Verb.Change verb) }
{
    match verb {
        EditVerb::AddSubstation | EditVerb::RemoveSwitch | EditVerb::RemoveEquipment => {
            &["do", "id"]
        }
        EditVerb::AddLevel => &["do", "id", "substation", "nominal_v", "low_v", "high_v"],
        EditVerb::AddBusbar => &["do", "id", "level", "node"],
        EditVerb::AddSwitch => &[
            "do",
            "id",
            "level",
            "kind",
            "node1",
            "node2",
            "open",
            "retained",
            "fictitious",
        ],
        EditVerb::AddInternal | EditVerb::RemoveInternal => &["do", "level", "node1", "node2"],
        EditVerb::AddInjection | EditVerb::AddBranch => &["do"],
    }
}

/// The members of a command without a kind.
pub fn names_of_command(verb: Verb) -> &'static [&'static str]
    ensures { texts result.now ≡ command_names verb }
{
    match verb {
        Verb::Use | Verb::Remove => &["do", "variant"],
        Verb::Open | Verb::Close => &["do", "switch"],
        Verb::Retain => &["do", "switch", "retained"],
        Verb::SetPower => &["do", "equipment", "watts"],
        Verb::Totals => &["do"],
        Verb::Connect | Verb::Disconnect => &["do", "equipment", "side"],
        Verb::BusBreakerView | Verb::BusView | Verb::Components => &["do", "level"],
        Verb::Clone => &["do", "from", "to", "overwrite"],
        Verb::Change(edit) => names_of_edit(edit),
    }
}

/// Looks for members that are none of a command's, where no kind chooses them.
fn only_plain(alloc: Global, verb: Verb, value: &Value) -> Result<(), ReadError>
    ensures { Gives result (plain_names verb (view value.now)) }
{
    match verb {
        Verb::Change(EditVerb::AddInjection | EditVerb::AddBranch) => Ok(()),
        verb => only(alloc, value, names_of_command(verb)),
    }
}

#[tactic(auto, unfolding(crate::specs::Command::add_level_at))]
fn add_level_of(alloc: Global, format: Format, value: &Value) -> Result<Edit, ReadError>
    ensures { Gives result (add_level_at (view value.now)) }
{
    let id = member(alloc, format, value, "id")?;
    let substation = member(alloc, format, value, "substation")?;
    let nominal_v = member(alloc, format, value, "nominal_v")?;
    let low_v = optional(alloc, format, value, "low_v")?;
    let high_v = optional(alloc, format, value, "high_v")?;
    Ok(Edit::AddLevel {
        id,
        substation,
        nominal_v,
        low_v,
        high_v,
    })
}

#[tactic(auto, unfolding(crate::specs::Command::add_busbar_at))]
fn add_busbar_of(alloc: Global, format: Format, value: &Value) -> Result<Edit, ReadError>
    ensures { Gives result (add_busbar_at (view value.now)) }
{
    let id = member(alloc, format, value, "id")?;
    let level = member(alloc, format, value, "level")?;
    let node = member(alloc, format, value, "node")?;
    Ok(Edit::AddBusbar { id, level, node })
}

#[tactic(auto, unfolding(crate::specs::Command::add_switch_at))]
fn add_switch_of(alloc: Global, format: Format, value: &Value) -> Result<Edit, ReadError>
    ensures { Gives result (add_switch_at format (view value.now)) }
{
    let id = member(alloc, format, value, "id")?;
    let level = member(alloc, format, value, "level")?;
    let kind = member(alloc, format, value, "kind")?;
    let node1 = member(alloc, format, value, "node1")?;
    let node2 = member(alloc, format, value, "node2")?;
    let opened = member_otherwise(alloc, format, value, "open", false)?;
    let retained = member_otherwise(alloc, format, value, "retained", false)?;
    let fictitious = member_otherwise(alloc, format, value, "fictitious", false)?;
    Ok(Edit::AddSwitch {
        id,
        level,
        kind,
        node1,
        node2,
        opened,
        retained,
        fictitious,
    })
}

#[tactic(auto, unfolding(crate::specs::Command::add_internal_at))]
fn add_internal_of(alloc: Global, format: Format, value: &Value) -> Result<Edit, ReadError>
    ensures { Gives result (add_internal_at (view value.now)) }
{
    let level = member(alloc, format, value, "level")?;
    let node1 = member(alloc, format, value, "node1")?;
    let node2 = member(alloc, format, value, "node2")?;
    Ok(Edit::AddInternal {
        level,
        node1,
        node2,
    })
}

#[tactic(auto, unfolding(crate::specs::Command::remove_internal_at))]
fn remove_internal_of(alloc: Global, format: Format, value: &Value) -> Result<Edit, ReadError>
    ensures { Gives result (remove_internal_at (view value.now)) }
{
    let level = member(alloc, format, value, "level")?;
    let node1 = member(alloc, format, value, "node1")?;
    let node2 = member(alloc, format, value, "node2")?;
    Ok(Edit::RemoveInternal {
        level,
        node1,
        node2,
    })
}

/// The members that all added injections have.
pub const ADDED_INJECTION_MEMBERS: &[&str] = &["do", "kind", "id", "level", "node"];

#[tactic(auto, unfolding(crate::specs::Command::add_injection_at))]
fn add_injection_of(alloc: Global, format: Format, value: &Value) -> Result<Edit, ReadError>
    ensures { Gives result (add_injection_at format (view value.now)) }
{
    let kind = member(alloc, format, value, "kind")?;
    only_of_kind(alloc, value, ADDED_INJECTION_MEMBERS, names_of_item(kind))?;
    let id = member(alloc, format, value, "id")?;
    let level = member(alloc, format, value, "level")?;
    let node = member(alloc, format, value, "node")?;
    let item = item_of(alloc, format, kind, value)?;
    Ok(Edit::AddInjection {
        id,
        level,
        node,
        item,
    })
}

/// The members of an added branch of a kind.
pub fn names_of_branch(kind: BranchKind) -> &'static [&'static str]
    ensures { texts result.now ≡ branch_names kind }
{
    match kind {
        BranchKind::Line => &["do", "kind", "id", "ends"],
        BranchKind::TwoWindings | BranchKind::ThreeWindings => {
            &["do", "kind", "id", "ends", "substation", "rated_u"]
        }
    }
}

/// The line between two ends.
pub fn line(ends: Two<End>) -> Branch
    ensures { result ≡ line_of ends }
{
    let Two { first, second } = ends;
    Branch::Line {
        end1: first,
        end2: second,
    }
}

/// The transformer of two windings.
pub fn two_windings(substation: Id, ends: Two<End>, rated: &Two<i64>) -> Branch
    ensures { result ≡ two_windings_of substation ends rated.now }
{
    let Two { first, second } = ends;
    Branch::TwoWindings {
        substation,
        end1: first,
        end2: second,
        rated_u1: rated.first,
        rated_u2: rated.second,
    }
}

/// The transformer of three windings.
pub fn three_windings(substation: Id, ends: Three<End>, rated: &Three<i64>) -> Branch
    ensures { result ≡ three_windings_of substation ends rated.now }
{
    let (first, second, third) = ends.into_parts();
    Branch::ThreeWindings {
        substation,
        end1: first,
        end2: second,
        end3: third,
        rated_u1: rated.first,
        rated_u2: rated.second,
        rated_u3: rated.third,
    }
}

/// The branch of a kind.
#[tactic(auto, unfolding(crate::specs::Command::shape_at))]
fn shape_of(
    alloc: Global,
    format: Format,
    kind: BranchKind,
    value: &Value,
) -> Result<Branch, ReadError>
    ensures { Gives result (shape_at kind (view value.now)) }
{
    match kind {
        BranchKind::Line => {
            let ends = member(alloc, format, value, "ends")?;
            Ok(line(ends))
        }
        BranchKind::TwoWindings => {
            let ends = member(alloc, format, value, "ends")?;
            let substation = member(alloc, format, value, "substation")?;
            let rated = member(alloc, format, value, "rated_u")?;
            Ok(two_windings(substation, ends, &rated))
        }
        BranchKind::ThreeWindings => {
            let ends = member(alloc, format, value, "ends")?;
            let substation = member(alloc, format, value, "substation")?;
            let rated = member(alloc, format, value, "rated_u")?;
            Ok(three_windings(substation, ends, &rated))
        }
    }
}

#[tactic(auto, unfolding(crate::specs::Command::add_branch_at))]
fn add_branch_of(alloc: Global, format: Format, value: &Value) -> Result<Edit, ReadError>
    ensures { Gives result (add_branch_at format (view value.now)) }
{
    let kind = member(alloc, format, value, "kind")?;
    only(alloc, value, names_of_branch(kind))?;
    let id = member(alloc, format, value, "id")?;
    let shape = BoxedBranch::new(alloc, shape_of(alloc, format, kind, value)?)?;
    Ok(Edit::AddBranch { id, shape })
}

#[tactic(auto, unfolding(crate::specs::Command::clone_at))]
fn clone_of(alloc: Global, format: Format, value: &Value) -> Result<Request, ReadError>
    ensures { Gives result (clone_at (view value.now)) }
{
    let from = member(alloc, format, value, "from")?;
    let to = member(alloc, format, value, "to")?;
    let overwrite = member_otherwise(alloc, format, value, "overwrite", false)?;
    Ok(Request::CloneVariant {
        from,
        to,
        overwrite,
    })
}

#[tactic(auto, unfolding(crate::specs::Command::retain_at))]
fn retain_of(alloc: Global, format: Format, value: &Value) -> Result<Request, ReadError>
    ensures { Gives result (retain_at (view value.now)) }
{
    let id = member(alloc, format, value, "switch")?;
    let retained = member(alloc, format, value, "retained")?;
    Ok(Request::RetainSwitch { id, retained })
}

#[tactic(auto, unfolding(crate::specs::Command::set_power_at))]
fn set_power_of(alloc: Global, format: Format, value: &Value) -> Result<Request, ReadError>
    ensures { Gives result (set_power_at (view value.now)) }
{
    let id = member(alloc, format, value, "equipment")?;
    let watts = member(alloc, format, value, "watts")?;
    Ok(Request::SetPower { id, watts })
}

/// The edit of a verb.
#[tactic(auto, unfolding(crate::specs::Command::edit_at, crate::specs::Command::named_at))]
fn edit_of(alloc: Global, format: Format, verb: EditVerb, value: &Value) -> Result<Edit, ReadError>
    ensures { Gives result (edit_at format verb (view value.now)) }
{
    match verb {
        EditVerb::AddSubstation => {
            let id = member(alloc, format, value, "id")?;
            Ok(Edit::AddSubstation { id })
        }
        EditVerb::AddLevel => add_level_of(alloc, format, value),
        EditVerb::AddBusbar => add_busbar_of(alloc, format, value),
        EditVerb::AddSwitch => add_switch_of(alloc, format, value),
        EditVerb::RemoveSwitch => {
            let id = member(alloc, format, value, "id")?;
            Ok(Edit::RemoveSwitch { id })
        }
        EditVerb::RemoveEquipment => {
            let id = member(alloc, format, value, "id")?;
            Ok(Edit::RemoveEquipment { id })
        }
        EditVerb::AddInternal => add_internal_of(alloc, format, value),
        EditVerb::RemoveInternal => remove_internal_of(alloc, format, value),
        EditVerb::AddInjection => add_injection_of(alloc, format, value),
        EditVerb::AddBranch => add_branch_of(alloc, format, value),
    }
}

/// A connect.
#[tactic(auto, unfolding(crate::specs::Command::sided_at))]
fn connect_of(alloc: Global, format: Format, value: &Value) -> Result<Request, ReadError>
    ensures { Gives result (sided_at Request.Connect (view value.now)) }
{
    let id = member(alloc, format, value, "equipment")?;
    let side = member_otherwise(alloc, format, value, "side", 1)?;
    Ok(Request::Connect { id, side })
}

/// A disconnect.
#[tactic(auto, unfolding(crate::specs::Command::sided_at))]
fn disconnect_of(alloc: Global, format: Format, value: &Value) -> Result<Request, ReadError>
    ensures { Gives result (sided_at Request.Disconnect (view value.now)) }
{
    let id = member(alloc, format, value, "equipment")?;
    let side = member_otherwise(alloc, format, value, "side", 1)?;
    Ok(Request::Disconnect { id, side })
}

/// What is asked of a level.
#[tactic(auto, unfolding(crate::specs::Command::named_at))]
fn bus_breaker_view_of(alloc: Global, format: Format, value: &Value) -> Result<Request, ReadError>
    ensures { Gives result (named_at (codes "level") Request.BusBreakerView (view value.now)) }
{
    let level = member(alloc, format, value, "level")?;
    Ok(Request::BusBreakerView { level })
}

#[tactic(auto, unfolding(crate::specs::Command::named_at))]
fn bus_view_of(alloc: Global, format: Format, value: &Value) -> Result<Request, ReadError>
    ensures { Gives result (named_at (codes "level") Request.BusView (view value.now)) }
{
    let level = member(alloc, format, value, "level")?;
    Ok(Request::BusView { level })
}

#[tactic(auto, unfolding(crate::specs::Command::named_at))]
fn components_of(alloc: Global, format: Format, value: &Value) -> Result<Request, ReadError>
    ensures { Gives result (named_at (codes "level") Request.Components (view value.now)) }
{
    let level = member(alloc, format, value, "level")?;
    Ok(Request::Components { level })
}

/// The request of a verb.
#[tactic(auto, unfolding(crate::specs::Command::request_at, crate::specs::Command::named_at))]
fn request_of(
    alloc: Global,
    format: Format,
    verb: Verb,
    value: &Value,
) -> Result<Request, ReadError>
    ensures { Gives result (request_at format verb (view value.now)) }
{
    match verb {
        Verb::Use => Ok(Request::UseVariant {
            name: member(alloc, format, value, "variant")?,
        }),
        Verb::Remove => Ok(Request::RemoveVariant {
            name: member(alloc, format, value, "variant")?,
        }),
        Verb::Open => Ok(Request::OpenSwitch {
            id: member(alloc, format, value, "switch")?,
        }),
        Verb::Close => Ok(Request::CloseSwitch {
            id: member(alloc, format, value, "switch")?,
        }),
        Verb::Retain => retain_of(alloc, format, value),
        Verb::SetPower => set_power_of(alloc, format, value),
        Verb::Totals => Ok(Request::Totals),
        Verb::Connect => connect_of(alloc, format, value),
        Verb::Disconnect => disconnect_of(alloc, format, value),
        Verb::BusBreakerView => bus_breaker_view_of(alloc, format, value),
        Verb::BusView => bus_view_of(alloc, format, value),
        Verb::Components => components_of(alloc, format, value),
        Verb::Clone => clone_of(alloc, format, value),
        Verb::Change(edit) => Ok(Request::Change {
            edit: edit_of(alloc, format, edit, value)?,
        }),
    }
}

impl FromJson for Request {
    ghost use Rattle.grid_json.specs.Command.{command_at};

    ghost reads = { command_at };

    #[tactic(auto, unfolding(crate::specs::Command::command_at))]
    fn from_json(alloc: Global, format: Format, value: &Value) -> Result<Request, ReadError> {
        object(alloc, value)?;
        let verb = member(alloc, format, value, "do")?;
        only_plain(alloc, verb, value)?;
        request_of(alloc, format, verb, value)
    }
}
