//! What is wrong with a job, in words.

use crate::sentence::{Named, Sentence};
use grid_ids::IdFault;
use grid_json::Reason;
use grid_kinds::CheckFault;
use grid_structure::EditFault;
use thiserror::Error;

/// What is wrong at a place of a job: the number of the reason, and what to look at.
#[derive(Debug, Drop, Error)]
pub enum Why {
    /// In words, with what stands at the place.
    #[error("{0}")]
    Seen(String),
    /// As the reason alone tells it.
    #[error("{}", why_of(.0))]
    Alone(Reason),
}

/// The words of a record that breaks its rule: before what was found, between it and the bound, and behind that.
fn words_of_check(fault: &CheckFault) -> [&'static str; 3] {
    match fault {
        CheckFault::NominalNotPositive { .. } => {
            ["the nominal voltage is ", " and must be above ", " (10)"]
        }
        CheckFault::VoltageLimits { .. } => {
            [
                "the low voltage limit ",
                " is above the high one, ",
                " (11)",
            ]
        }
        CheckFault::PowerLimits { .. } => {
            ["the least power ", " is above the greatest, ", " (12)"]
        }
        CheckFault::Sections { .. } => {
            [
                "",
                " sections are in service, and from 0 to ",
                " may be (13)",
            ]
        }
        CheckFault::RatedNotPositive { .. } => {
            ["a rated voltage is ", " and must be above ", " (14)"]
        }
    }
}

/// What was found in such a record, and the bound.
fn numbers_of_check(fault: &CheckFault) -> (i64, i64) {
    match *fault {
        CheckFault::NominalNotPositive { found, bound }
        | CheckFault::VoltageLimits { found, bound }
        | CheckFault::PowerLimits { found, bound }
        | CheckFault::Sections { found, bound }
        | CheckFault::RatedNotPositive { found, bound } => (found, bound),
    }
}

/// Why a record breaks its rule.
fn of_check(fault: &CheckFault) -> Sentence<'static> {
    let [begin, between, end] = words_of_check(fault);
    let (found, bound) = numbers_of_check(fault);
    Sentence::two(
        begin,
        Named::Number(found),
        between,
        Named::Number(bound),
        end,
    )
}

/// Why an edit is refused that names nothing.
fn plain_edit(fault: &EditFault) -> &'static str {
    match fault {
        EditFault::NoEdge => "there is no such internal connection (23)",
        EditFault::TooManyNodes => "the level would have more than 1,024 different nodes (24)",
        EditFault::TooManyEdges => {
            "the level has 4,096 switches and internal connections, which are the most (25)"
        }
        EditFault::IdTaken => "a substation, level, switch or equipment has this id already (30)",
        EditFault::NoSubstation => "no substation has the id that is named (31)",
        EditFault::NoLevel => "no level has the id that is named (32)",
        EditFault::NoSuchId => "nothing that could be removed has the id (33)",
        EditFault::TooManyLevels => "the network has 10,000 levels, which are the most (35)",
        EditFault::TooManySwitches => "the network has 200,000 switches, which are the most (36)",
        _ => "",
    }
}

/// Why an edit is refused.
fn of_edit(fault: &EditFault) -> Sentence<'_> {
    match fault {
        EditFault::Check(fault) => of_check(fault),
        EditFault::NodeRange { node } => {
            Sentence::one(
                "node ",
                Named::Number(*node),
                " is not from 0 to 65,535 (20)",
            )
        }
        EditFault::NodeTaken { terminal } => Sentence::two(
            "the node carries the terminal ",
            Named::Word(terminal.equipment.text()),
            ".",
            Named::Number(i64::from(terminal.side)),
            " (21)",
        ),
        EditFault::SameNode { node } => {
            Sentence::one("both nodes are ", Named::Number(*node), " (22)")
        }
        EditFault::OtherSubstation { side } => Sentence::one(
            "the transformer's end ",
            Named::Number(i64::from(*side)),
            " is in a level of another substation (34)",
        ),
        _ => Sentence::plain(plain_edit(fault)),
    }
}

/// Why a text is no id.
fn of_name(fault: &IdFault) -> Sentence<'static> {
    match *fault {
        IdFault::Empty => Sentence::plain("the id is empty (1)"),
        IdFault::TooLong(length) => {
            Sentence::one(
                "the id has ",
                Named::Count(length),
                " bytes, and 128 are the most (2)",
            )
        }
        IdFault::Control(byte) => Sentence::one(
            "the id has the control byte ",
            Named::Number(i64::from(byte)),
            " (3)",
        ),
        IdFault::Memory => Sentence::plain("memory ran out"),
    }
}

/// A reason that names nothing.
fn plain_reason(reason: &Reason) -> &'static str {
    match reason {
        Reason::Missing => "a member that must be there is missing (60)",
        Reason::WrongKind => {
            "the value is of another JSON type than wanted, or an array of another length (61)"
        }
        Reason::NotWhole => "the number is not whole, or does not fit 64 bits with a sign (62)",
        Reason::Unknown => {
            "the word or the format is none of those that are known here, or the object has a member that it should not have (63)"
        }
        Reason::Schedule => {
            "the order must name each worker as often as its script has commands, and nobody else (64)"
        }
        Reason::TooManyCommands => "all scripts together have more than 20,000 commands (65)",
        Reason::TooManyWorkers => "there are more than 32 workers (66)",
        Reason::TooManyListeners => "there are more than 16 listeners (67)",
        Reason::HvdcIdTaken => {
            "something in the network or an earlier HVDC line has this line's id (70)"
        }
        Reason::TooManyContingencies => "there are more than 20,000 contingencies (73)",
        Reason::Reserved => {
            "an id here may have 100 bytes at most and no exclamation mark, since such ids are the program's own (74)"
        }
        Reason::NoBus => "the level has no bus of the id that is named (75)",
        Reason::SameBus => "both ends of the switch are one bus (76)",
        Reason::NoNode => {
            "an end names a node of a level that has configured buses: `bus` must stand in its place (90)"
        }
        Reason::LongAtBus => {
            "the id has more than 126 bytes, which are the most at a configured bus, since its breaker's id has two more (91)"
        }
        _ => "",
    }
}

/// Why a job has a fault, as the reason alone tells it.
fn why_of(reason: &Reason) -> Sentence<'_> {
    match reason {
        Reason::NoStation { side } => Sentence::one(
            "no converter station has the id of side ",
            Named::Number(i64::from(*side)),
            " (71)",
        ),
        Reason::StationUsed { side } => Sentence::one(
            "an HVDC line has the converter station of side ",
            Named::Number(i64::from(*side)),
            " already (72)",
        ),
        Reason::BreakerTaken { side } => Sentence::one(
            "a substation, level, switch or equipment has the id of its breaker of side ",
            Named::Number(i64::from(*side)),
            " already (92)",
        ),
        Reason::Name(fault) => of_name(fault),
        Reason::Load(fault) => of_edit(fault),
        _ => Sentence::plain(plain_reason(reason)),
    }
}
