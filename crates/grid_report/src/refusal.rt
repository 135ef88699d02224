// Why something was refused.
ghost use Rattle.std.specs.Prelude.{◌≡◌, ◌++◌};
ghost use Rattle.grid_report.specs.Words.{behind};
ghost use Rattle.grid_report.specs.Refusals as refusals;
ghost use Rattle.grid_report.specs.Refusals.{check_reason, fault_reason, reason_text, refusal_text};
ghost use Rattle.grid_report.specs.Puts.{Puts};

use crate::text::{Text, put_behind, put_named, put_pair};
use grid_core::Refusal;
use grid_ids::Memory;
use grid_kinds::CheckFault;
use grid_structure::EditFault;

// ---- numbers

#[tactic(auto, unfolding(crate::specs::Refusals::check_number))]
fn check_number(fault: &CheckFault) -> u64
    ensures { result ≡ refusals.check_number fault.now }
{
    match fault {
        CheckFault::NominalNotPositive { .. } => 10,
        CheckFault::VoltageLimits { .. } => 11,
        CheckFault::PowerLimits { .. } => 12,
        CheckFault::Sections { .. } => 13,
        CheckFault::RatedNotPositive { .. } => 14,
    }
}

#[tactic(auto, unfolding(crate::specs::Refusals::fault_number))]
fn fault_number(fault: &EditFault) -> u64
    ensures { result ≡ refusals.fault_number fault.now }
{
    match fault {
        EditFault::Check(fault) => check_number(fault),
        EditFault::NodeRange { .. } => 20,
        EditFault::NodeTaken { .. } => 21,
        EditFault::SameNode { .. } => 22,
        EditFault::NoEdge => 23,
        EditFault::TooManyNodes => 24,
        EditFault::TooManyEdges => 25,
        EditFault::IdTaken => 30,
        EditFault::NoSubstation => 31,
        EditFault::NoLevel => 32,
        EditFault::NoSuchId => 33,
        EditFault::OtherSubstation { .. } => 34,
        EditFault::TooManyLevels => 35,
        EditFault::TooManySwitches => 36,
    }
}

/// The number of a refusal.
#[tactic(auto, unfolding(crate::specs::Refusals::refusal_number))]
pub fn refusal_number(refusal: &Refusal) -> u64
    ensures { result ≡ refusals.refusal_number refusal.now }
{
    match refusal {
        Refusal::NoVariant => 40,
        Refusal::NoSwitch => 41,
        Refusal::NoEquipment => 42,
        Refusal::NoSide => 43,
        Refusal::NoLevel => 44,
        Refusal::TargetExists => 45,
        Refusal::InitialStays => 46,
        Refusal::TooManyVariants => 47,
        Refusal::NoPower => 48,
        Refusal::Edit(fault) => fault_number(fault),
    }
}

// ---- reasons

/// Puts a text, and two numbers behind it.
fn put_bound(out: &mut Text, text: &str, found: &i64, bound: &i64) -> Result<(), Memory>
    ensures { Puts out.old (text.now ++ behind found.now ++ behind bound.now) out.new result }
{
    out.put(text)?;
    put_pair(out, found, bound)
}

#[tactic(auto, unfolding(crate::specs::Refusals::check_reason))]
fn put_check(out: &mut Text, fault: &CheckFault) -> Result<(), Memory>
    ensures { Puts out.old (check_reason fault.now) out.new result }
{
    match fault {
        CheckFault::NominalNotPositive { found, bound } => {
            put_bound(out, "nominal not positive", found, bound)
        }
        CheckFault::VoltageLimits { found, bound } => {
            put_bound(out, "voltage limits", found, bound)
        }
        CheckFault::PowerLimits { found, bound } => put_bound(out, "power limits", found, bound),
        CheckFault::Sections { found, bound } => put_bound(out, "sections", found, bound),
        CheckFault::RatedNotPositive { found, bound } => {
            put_bound(out, "rated not positive", found, bound)
        }
    }
}

/// Puts a text, and a number behind it.
fn put_node(out: &mut Text, text: &str, node: &i64) -> Result<(), Memory>
    ensures { Puts out.old (text.now ++ behind node.now) out.new result }
{
    out.put(text)?;
    put_behind(out, node)
}

#[tactic(auto, unfolding(crate::specs::Refusals::fault_reason))]
fn put_fault(out: &mut Text, fault: &EditFault) -> Result<(), Memory>
    ensures { Puts out.old (fault_reason fault.now) out.new result }
{
    match fault {
        EditFault::Check(fault) => put_check(out, fault),
        EditFault::NodeRange { node } => put_node(out, "node range", node),
        EditFault::NodeTaken { terminal } => put_named(out, "node taken by ", terminal),
        EditFault::SameNode { node } => put_node(out, "same node", node),
        EditFault::NoEdge => out.put("no edge"),
        EditFault::TooManyNodes => out.put("too many nodes"),
        EditFault::TooManyEdges => out.put("too many edges"),
        EditFault::IdTaken => out.put("id taken"),
        EditFault::NoSubstation => out.put("no substation"),
        EditFault::NoLevel => out.put("no level"),
        EditFault::NoSuchId => out.put("no such id"),
        EditFault::OtherSubstation { side } => put_named(out, "other substation ", side),
        EditFault::TooManyLevels => out.put("too many levels"),
        EditFault::TooManySwitches => out.put("too many switches"),
    }
}

/// Puts the reason of a refusal: its words, and the values that it names. Where memory runs out, the text is empty.
#[tactic(auto, unfolding(crate::specs::Refusals::reason_text))]
pub fn put_reason(out: &mut Text, refusal: &Refusal) -> Result<(), Memory>
    ensures { Puts out.old (reason_text refusal.now) out.new result }
{
    match refusal {
        Refusal::NoVariant => out.put("no variant"),
        Refusal::NoSwitch => out.put("no switch"),
        Refusal::NoEquipment => out.put("no equipment"),
        Refusal::NoSide => out.put("no side"),
        Refusal::NoLevel => out.put("no level"),
        Refusal::TargetExists => out.put("target exists"),
        Refusal::InitialStays => out.put("initial stays"),
        Refusal::TooManyVariants => out.put("too many variants"),
        Refusal::NoPower => out.put("no power"),
        Refusal::Edit(fault) => put_fault(out, fault),
    }
}

// ---- refusals

/// Puts a refusal: its number and its reason. Where memory runs out, the text is empty.
#[tactic(auto, unfolding(crate::specs::Refusals::refusal_text))]
pub fn put_refusal(out: &mut Text, refusal: &Refusal) -> Result<(), Memory>
    ensures { Puts out.old (refusal_text refusal.now) out.new result }
{
    out.put_unsigned(refusal_number(refusal))?;
    out.put(" ")?;
    put_reason(out, refusal)
}
