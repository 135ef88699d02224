// The words that a job may use, for those who tell what may stand in it: each with the number of the format that it
// came with, in the order in which they are told. The words of commands stand with their verbs.
ghost use Rattle.std.specs.Prelude.{map};
ghost use Rattle.grid_json.specs.Kinds as kinds;
ghost use Rattle.grid_json.specs.Words.{AreWords, told_topology_at};

/// The kinds of switches.
pub fn switch_words() -> &'static [(&'static str, i64)]
    ensures { AreWords kinds.switch_kind_at (map (λ w. w.0) kinds.switch_words) result.now }
{
    &[
        ("BREAKER", 1),
        ("DISCONNECTOR", 1),
        ("LOAD_BREAK_SWITCH", 1),
    ]
}

/// The kinds of injections.
pub fn injection_words() -> &'static [(&'static str, i64)]
    ensures { AreWords kinds.injection_kind_at (map (λ w. w.0) kinds.injection_words) result.now }
{
    &[
        ("LOAD", 1),
        ("GENERATOR", 1),
        ("BATTERY", 1),
        ("SHUNT_COMPENSATOR", 1),
        ("STATIC_VAR_COMPENSATOR", 1),
        ("CONVERTER_STATION", 4),
    ]
}

/// The kinds of transformers.
pub fn transformer_words() -> &'static [(&'static str, i64)]
    ensures { AreWords kinds.windings_kind_at (map (λ w. w.0) kinds.windings_words) result.now }
{
    &[("TWO_WINDINGS", 1), ("THREE_WINDINGS", 1)]
}

/// The kinds of branches.
pub fn branch_words() -> &'static [(&'static str, i64)]
    ensures { AreWords kinds.branch_kind_at (map (λ w. w.0) kinds.branch_words) result.now }
{
    &[("LINE", 1), ("TWO_WINDINGS", 1), ("THREE_WINDINGS", 1)]
}

/// Of what the parts of a level are joined.
pub fn topology_words() -> &'static [(&'static str, i64)]
    ensures { AreWords told_topology_at (map (λ w. w.0) kinds.topology_words) result.now }
{
    &[("NODE_BREAKER", 5), ("BUS_BREAKER", 5)]
}

/// The events that a listener may hear.
pub fn event_words() -> &'static [(&'static str, i64)]
    ensures { AreWords kinds.event_kind_at (map (λ w. w.0) kinds.event_words) result.now }
{
    &[
        ("created", 1),
        ("removed", 1),
        ("updated", 1),
        ("variant_created", 1),
        ("variant_overwritten", 1),
        ("variant_removed", 1),
    ]
}
