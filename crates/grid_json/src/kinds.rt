// Kinds by their words.
ghost use Rattle.std.specs.Prelude.{◌≡◌};
ghost use Rattle.serde_json.specs.Data.{string};
ghost use Rattle.grid_json.specs.Reading.{or_fault, word_among};
ghost use Rattle.grid_json.specs.Kinds as kinds;
ghost use Rattle.grid_json.specs.Kinds.{switch_words, injection_words, injection_kind_at};

use crate::format::Format;
use crate::{FromJson, ReadError, Reason};
use grid_kinds::SwitchKind;
use grid_value::Value;
use std::alloc::Global;

/// The kinds of injections.
#[derive(Clone, Copy, Debug, PartialEq, Eq)]
pub enum InjectionKind {
    Load,
    Generator,
    Battery,
    ShuntCompensator,
    StaticVarCompensator,
    ConverterStation,
}

/// How the parts of a level are joined, by the kinds of the IIDM documentation.
#[derive(Clone, Copy, Debug, PartialEq, Eq)]
pub enum Topology {
    /// By nodes: `NODE_BREAKER`.
    Nodes,
    /// By configured buses: `BUS_BREAKER`.
    Buses,
}

/// The kinds of transformers.
#[derive(Clone, Copy, Debug, PartialEq, Eq)]
pub enum WindingsKind {
    Two,
    Three,
}

/// The kinds of branches.
#[derive(Clone, Copy, Debug, PartialEq, Eq)]
pub enum BranchKind {
    Line,
    TwoWindings,
    ThreeWindings,
}

/// The kinds of events that a listener may want.
#[derive(Clone, Copy, Debug, PartialEq, Eq)]
pub enum EventKind {
    Created,
    Removed,
    Updated,
    VariantCreated,
    VariantOverwritten,
    VariantRemoved,
}

/// The kind of switches that a word names.
pub(crate) fn switch_kind_of(word: &str) -> Option<SwitchKind>
    ensures { or_fault Reason.Unknown result ≡ word_among switch_words word.now }
{
    match word {
        "BREAKER" => Some(SwitchKind::Breaker),
        "DISCONNECTOR" => Some(SwitchKind::Disconnector),
        "LOAD_BREAK_SWITCH" => Some(SwitchKind::LoadBreakSwitch),
        _ => None,
    }
}

impl FromJson for SwitchKind {
    ghost use Rattle.grid_json.specs.Kinds.{switch_kind_at};

    ghost reads = { switch_kind_at };

    fn from_json(alloc: Global, _format: Format, value: &Value) -> Result<SwitchKind, ReadError> {
        let Some(word) = value.as_str() else {
            return Err(ReadError::here(alloc, Reason::WrongKind));
        };
        match switch_kind_of(word) {
            Some(kind) => Ok(kind),
            None => Err(ReadError::here(alloc, Reason::Unknown)),
        }
    }
}

/// The kind of injections that a word of any format names.
pub fn injection_named(word: &str) -> Option<InjectionKind>
    ensures { or_fault Reason.Unknown result ≡ word_among injection_words word.now }
{
    match word {
        "LOAD" => Some(InjectionKind::Load),
        "GENERATOR" => Some(InjectionKind::Generator),
        "BATTERY" => Some(InjectionKind::Battery),
        "SHUNT_COMPENSATOR" => Some(InjectionKind::ShuntCompensator),
        "STATIC_VAR_COMPENSATOR" => Some(InjectionKind::StaticVarCompensator),
        "CONVERTER_STATION" => Some(InjectionKind::ConverterStation),
        _ => None,
    }
}

/// The kind of injections, where the format has it.
fn known_injection(kind: InjectionKind, format: Format) -> Option<InjectionKind>
    ensures { or_fault Reason.Unknown result ≡ kinds.known_injection kind format }
{
    match (kind, format) {
        (InjectionKind::ConverterStation, Format::One | Format::Two | Format::Three) => None,
        (kind, _) => Some(kind),
    }
}

/// The kind of injections that a word of the format names.
pub(crate) fn injection_kind_of(format: Format, word: &str) -> Option<InjectionKind>
    ensures { or_fault Reason.Unknown result ≡ injection_kind_at format (string word.now) }
{
    known_injection(injection_named(word)?, format)
}

impl FromJson for InjectionKind {
    ghost reads = { injection_kind_at };

    fn from_json(alloc: Global, format: Format, value: &Value) -> Result<InjectionKind, ReadError> {
        let Some(word) = value.as_str() else {
            return Err(ReadError::here(alloc, Reason::WrongKind));
        };
        match injection_kind_of(format, word) {
            Some(kind) => Ok(kind),
            None => Err(ReadError::here(alloc, Reason::Unknown)),
        }
    }
}

impl FromJson for Topology {
    ghost use Rattle.grid_json.specs.Kinds.{topology_at};

    ghost reads = { topology_at };

    fn from_json(alloc: Global, _format: Format, value: &Value) -> Result<Topology, ReadError> {
        let Some(word) = value.as_str() else {
            return Err(ReadError::here(alloc, Reason::WrongKind));
        };
        match word {
            "NODE_BREAKER" => Ok(Topology::Nodes),
            "BUS_BREAKER" => Ok(Topology::Buses),
            _ => Err(ReadError::here(alloc, Reason::Unknown)),
        }
    }
}

impl FromJson for WindingsKind {
    ghost use Rattle.grid_json.specs.Kinds.{windings_kind_at};

    ghost reads = { windings_kind_at };

    fn from_json(alloc: Global, _format: Format, value: &Value) -> Result<WindingsKind, ReadError> {
        let Some(word) = value.as_str() else {
            return Err(ReadError::here(alloc, Reason::WrongKind));
        };
        match word {
            "TWO_WINDINGS" => Ok(WindingsKind::Two),
            "THREE_WINDINGS" => Ok(WindingsKind::Three),
            _ => Err(ReadError::here(alloc, Reason::Unknown)),
        }
    }
}

impl FromJson for BranchKind {
    ghost use Rattle.grid_json.specs.Kinds.{branch_kind_at};

    ghost reads = { branch_kind_at };

    fn from_json(alloc: Global, _format: Format, value: &Value) -> Result<BranchKind, ReadError> {
        let Some(word) = value.as_str() else {
            return Err(ReadError::here(alloc, Reason::WrongKind));
        };
        match word {
            "LINE" => Ok(BranchKind::Line),
            "TWO_WINDINGS" => Ok(BranchKind::TwoWindings),
            "THREE_WINDINGS" => Ok(BranchKind::ThreeWindings),
            _ => Err(ReadError::here(alloc, Reason::Unknown)),
        }
    }
}

impl FromJson for EventKind {
    ghost use Rattle.grid_json.specs.Kinds.{event_kind_at};

    ghost reads = { event_kind_at };

    fn from_json(alloc: Global, _format: Format, value: &Value) -> Result<EventKind, ReadError> {
        let Some(word) = value.as_str() else {
            return Err(ReadError::here(alloc, Reason::WrongKind));
        };
        match word {
            "created" => Ok(EventKind::Created),
            "removed" => Ok(EventKind::Removed),
            "updated" => Ok(EventKind::Updated),
            "variant_created" => Ok(EventKind::VariantCreated),
            "variant_overwritten" => Ok(EventKind::VariantOverwritten),
            "variant_removed" => Ok(EventKind::VariantRemoved),
            _ => Err(ReadError::here(alloc, Reason::Unknown)),
        }
    }
}
