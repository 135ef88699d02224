//! The members that the objects of a job may have, and the words that it may use: for the line on standard error.
//! Those of networks and of scripts are the tables of their reader. Those of other inputs stand here.

use crate::sentence::{Members, Words};
use grid_forms::Form;
use grid_json::{
    ADDED_INJECTION_MEMBERS, BUS_END_MEMBERS, BUS_INJECTION_MEMBERS, BUS_LEVEL_MEMBERS,
    BUS_SWITCH_MEMBERS, BUSBAR_MEMBERS, BranchKind, END_MEMBERS, EditVerb, INJECTION_MEMBERS,
    INTERNAL_MEMBERS, JOB_MEMBERS, LEVEL_MEMBERS, LINE_MEMBERS, LISTENER_MEMBERS, NETWORK_MEMBERS,
    NODE_LEVEL_MEMBERS, SUBSTATION_MEMBERS, SWITCH_MEMBERS, TRANSFORMER_MEMBERS, Verb,
    branch_words, command_words, event_words, injection_named, injection_words, names_of_branch,
    names_of_command, names_of_item, switch_words, topology_words, transformer_words, verb_named,
};

/// What stands in one column of a table, by what stands in the other.
type Row = (&'static str, Members);

/// The words of `do` in a job with configured buses.
const CONFIGURED_COMMANDS: [(&str, i64); 8] = [
    ("bus_view", 1),
    ("clone", 1),
    ("close", 1),
    ("connect", 1),
    ("disconnect", 1),
    ("open", 1),
    ("remove", 1),
    ("use", 1),
];

/// The pieces of which contingencies are made.
const PIECES: [(&str, i64); 7] = [
    ("LINE", 1),
    ("TWO_WINDINGS", 1),
    ("THREE_WINDINGS", 1),
    ("GENERATOR", 1),
    ("LOAD", 1),
    ("BUSBAR_SECTION", 1),
    ("BREAKER", 1),
];

/// What becomes of the piece of a contingency that is made.
const ROLES: [(&str, i64); 2] = [("out", 1), ("fault", 1)];

/// Of which findings the lines are told.
const TOLD: [(&str, i64); 2] = [("all", 1), ("losses", 1)];

/// What the kind is of, in an object that stands in this array or is this command.
pub(crate) fn kinds_of(holder: &str, command: &str) -> Option<Words> {
    match (holder, command) {
        ("switches", _) | (_, "add_switch") => Some(switch_words()),
        ("injections", _) | (_, "add_injection") => Some(injection_words()),
        ("transformers", _) => Some(transformer_words()),
        ("each", _) => Some(&PIECES),
        (_, "add_branch") => Some(branch_words()),
        _ => None,
    }
}

/// The words that choose a level's parts.
pub(crate) fn topologies() -> Words {
    topology_words()
}

/// What may become of a piece.
pub(crate) fn roles() -> Words {
    &ROLES
}

/// The words that tell of which findings the lines are told.
pub(crate) fn told_words() -> Words {
    &TOLD
}

/// The events that a listener may hear.
pub(crate) fn events() -> Words {
    event_words()
}

/// The words of `do`.
pub(crate) fn commands(form: Option<Form>) -> Words {
    match form {
        Some(Form::Configured(_)) => &CONFIGURED_COMMANDS,
        _ => command_words(),
    }
}

/// The members that a table has for a word.
fn members_in(table: &'static [Row], word: &str) -> Option<Members> {
    let (_, members) = table.iter().find(|(known, _)| *known == word)?;
    Some(*members)
}

/// Whether the name is one of these.
pub(crate) fn has(names: &[&str], name: &str) -> bool {
    names.iter().any(|known| *known == name)
}

/// What a table says of a word that is in its other column; else the last text.
fn column_of(table: &[Row], word: &str, otherwise: &'static str) -> &'static str {
    for (column, words) in table {
        if has(words, word) {
            return column;
        }
    }
    otherwise
}

const CONFIGURED: &[&str] = &["format", "configured", "workers", "order"];

/// Those of a job with contingencies in the second format.
const SCREEN: &[&str] = &["format", "job", "variant", "contingencies", "each", "only"];

const HVDC: &[&str] = &["job", "hvdc"];

/// The members of the object at the top.
fn members_of_top(form: Option<Form>) -> Members {
    match form {
        Some(Form::Hvdc(_)) => HVDC,
        Some(Form::Configured(_)) => CONFIGURED,
        _ => JOB_MEMBERS,
    }
}

/// Members that belong to inputs of one form alone, with all that such an input may have, and what is told of a member
/// that another form has.
const FORMS: [(&str, Members, &str); 4] = [
    ("contingencies", SCREEN, ": this is a job for screen (63)"),
    ("hvdc", HVDC, ": this is a job for hvdc (63)"),
    (
        "configured",
        CONFIGURED,
        ": this is a job for configured (63)",
    ),
    (
        "network",
        JOB_MEMBERS,
        ": this is a job for check, replay, run or print (63)",
    ),
];

/// Whether all names are among the members, and this one is among the names.
fn is_of_form(names: &[&str], own: &str, members: Members) -> bool {
    let mut has_own = false;
    for name in names {
        if !has(members, name) {
            return false;
        }
        has_own = has_own || *name == own;
    }
    has_own
}

/// What is told of the form whose input has the members of these names; where there is none, only the number.
pub(crate) fn other_form(names: &[&str]) -> &'static str {
    for (own, members, told) in FORMS {
        if is_of_form(names, own, members) {
            return told;
        }
    }
    " (63)"
}

/// The members of an object that is a member of another one.
pub(crate) fn members_of_named(form: Option<Form>, name: &str) -> Option<Members> {
    match name {
        "" => Some(members_of_top(form)),
        "job" => Some(JOB_MEMBERS),
        "network" => Some(NETWORK_MEMBERS),
        "configured" => Some(&["id", "levels", "lines"]),
        _ => None,
    }
}

const ITEMS: [Row; 11] = [
    ("substations", SUBSTATION_MEMBERS),
    ("levels", LEVEL_MEMBERS),
    ("busbars", BUSBAR_MEMBERS),
    ("switches", SWITCH_MEMBERS),
    ("internal", INTERNAL_MEMBERS),
    ("injections", INJECTION_MEMBERS),
    ("transformers", TRANSFORMER_MEMBERS),
    ("lines", LINE_MEMBERS),
    ("ends", END_MEMBERS),
    ("listeners", LISTENER_MEMBERS),
    ("hvdc", &["id", "station1", "station2"]),
];

/// The members of an object that stands in an array, but those that its kind brings.
pub(crate) fn members_of_item(holder: &str) -> Option<Members> {
    members_in(&ITEMS, holder)
}

/// The members of a level, in a format that has both kinds of levels.
pub(crate) fn members_of_level(has_buses: bool) -> Members {
    if has_buses {
        BUS_LEVEL_MEMBERS
    } else {
        NODE_LEVEL_MEMBERS
    }
}

/// The members of an object of a job with contingencies, but of what all jobs have, by the job's format: of the object
/// at the top, or of one that stands in an array. In the first format `format` may stand at the top, too.
pub(crate) fn members_of_screen(holder: &str, format: i64) -> Option<Members> {
    match (holder, format) {
        ("", 1) => Some(&["job", "contingencies"]),
        ("", _) => Some(SCREEN),
        ("contingencies", 1) => Some(&["name", "out"]),
        ("contingencies", _) => Some(&["name", "out", "fault", "stuck"]),
        ("each", _) => Some(&["kind", "as"]),
        _ => None,
    }
}

const CONFIGURED_ITEMS: [Row; 5] = [
    (
        "levels",
        &["id", "nominal_v", "buses", "switches", "injections"],
    ),
    ("switches", BUS_SWITCH_MEMBERS),
    ("injections", BUS_INJECTION_MEMBERS),
    ("lines", LINE_MEMBERS),
    ("ends", BUS_END_MEMBERS),
];

/// The members of an object that stands in an array of a network with configured buses, or in one of a level with such
/// buses, but those that its kind brings.
pub(crate) fn members_of_configured(holder: &str) -> Option<Members> {
    members_in(&CONFIGURED_ITEMS, holder)
}

/// The members that an injection has by its kind.
pub(crate) fn members_of_kind(kind: &str) -> Members {
    match injection_named(kind) {
        Some(kind) => names_of_item(kind),
        None => &[],
    }
}

/// The members of a command by its word, but those that its kind brings. A line is a branch with fewer.
pub(crate) fn members_of_command(command: &str, is_line: bool) -> Option<Members> {
    Some(match verb_named(command)? {
        Verb::Change(EditVerb::AddInjection) => ADDED_INJECTION_MEMBERS,
        Verb::Change(EditVerb::AddBranch) if is_line => names_of_branch(BranchKind::Line),
        Verb::Change(EditVerb::AddBranch) => names_of_branch(BranchKind::TwoWindings),
        verb => names_of_command(verb),
    })
}

const UNITS: [Row; 3] = [
    (
        " of volts",
        &["nominal_v", "low_v", "high_v", "target_v", "rated_u"],
    ),
    (" of watts", &["p0", "target_p", "min_p", "max_p", "watts"]),
    (" of vars", &["q0", "target_q"]),
];

/// The unit of the numbers at a member, in words, if they have one.
pub(crate) fn unit_of(name: &str) -> &'static str {
    column_of(&UNITS, name, "")
}

const WANTED: [Row; 4] = [
    ("an object", &["", "job", "network", "configured"]),
    (
        "a whole number",
        &[
            "format",
            "node",
            "node1",
            "node2",
            "nominal_v",
            "low_v",
            "high_v",
            "p0",
            "q0",
            "target_p",
            "target_v",
            "target_q",
            "min_p",
            "max_p",
            "section_count",
            "max_sections",
            "side",
            "watts",
        ],
    ),
    (
        "true or false",
        &["open", "retained", "fictitious", "overwrite", "connected"],
    ),
    (
        "a text",
        &[
            "id",
            "kind",
            "as",
            "only",
            "do",
            "level",
            "substation",
            "switch",
            "equipment",
            "variant",
            "from",
            "to",
            "bus",
            "bus1",
            "bus2",
            "topology",
            "name",
            "station1",
            "station2",
        ],
    ),
];

/// What must stand at a member, in words; nothing where it is an array or another thing.
pub(crate) fn wanted_at(name: &str) -> &'static str {
    column_of(&WANTED, name, "an array")
}

const WANTED_ITEMS: [Row; 3] = [
    ("a whole number", &["order", "rated_u"]),
    ("a text", &["kinds", "out", "fault", "stuck", "buses"]),
    ("an array", &["workers"]),
];

/// What must stand as an item of an array, in words.
pub(crate) fn wanted_in(holder: &str) -> &'static str {
    column_of(&WANTED_ITEMS, holder, "an object")
}
