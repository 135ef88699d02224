// The words of kinds.
ghost use Rattle.std.specs.Prelude.{◌≡◌};
ghost use Rattle.grid_print.specs.Network as words;

use grid_kinds::{Injection, SwitchKind};

/// The word of a switch's kind.
pub(crate) fn switch_word(kind: SwitchKind) -> &'static str
    ensures { result.now ≡ words.switch_word kind }
{
    match kind {
        SwitchKind::Breaker => "BREAKER",
        SwitchKind::Disconnector => "DISCONNECTOR",
        SwitchKind::LoadBreakSwitch => "LOAD_BREAK_SWITCH",
    }
}

/// The word of an injection's kind.
pub(crate) fn injection_word(item: &Injection) -> &'static str
    ensures { result.now ≡ words.injection_word item.now }
{
    match item {
        Injection::Load { .. } => "LOAD",
        Injection::Generator { .. } => "GENERATOR",
        Injection::Battery { .. } => "BATTERY",
        Injection::ShuntCompensator { .. } => "SHUNT_COMPENSATOR",
        Injection::StaticVarCompensator { .. } => "STATIC_VAR_COMPENSATOR",
        Injection::ConverterStation { .. } => "CONVERTER_STATION",
    }
}
