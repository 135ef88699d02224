// Commits that come between a worker's answer and its own commit.
use crate::networks::{DUO, FOUR, read, with_scripts};
use grid_core::Script;
use grid_json::Job;
use grid_structure::Seeded;
use std::test::Fail;

/// A request by worker 1, what worker 0 commits before worker 1 does, and what comes of it.
#[derive(Clone, Copy)]
pub(crate) struct Case {
    /// Whether the network is that of four levels, and not the level of two busbar sections.
    of_four: bool,
    /// What workers 0 and 1 do before; what worker 0 does between; what worker 1 asks, behind the request that was
    /// answered in its place where that is another; and what both look at then.
    scripts: &'static str,
    /// Whether worker 1's answer is out of date by then.
    pub(crate) stale: bool,
    /// The report of the steps by callers; None where these cannot make the case.
    pub(crate) report: Option<&'static str>,
}

// In the order of the table in docs/faults.md.
pub(crate) const CASES: [Case; 10] = [
    Case {
        of_four: false,
        scripts: r#"
            [],
            [],
            [{"do": "open", "switch": "BC"}],
            [{"do": "bus_view", "level": "VL"}],
            [{"do": "bus_view", "level": "VL"}]
        "#,
        stale: true,
        report: Some(
            r#"order 0 1 1 0
worker 0
1 InitialState open BC: done
2 InitialState bus_view VL: 2 buses
  bus VL_0 | 0 2 3 4 | BBS1.1 LD.1 | load 50000000 | generation 0
  bus VL_1 | 1 5 | BBS2.1 G.1 | load 0 | generation 60000000
worker 1
1 InitialState bus_view VL: 2 buses
  bus VL_0 | 0 2 3 4 | BBS1.1 LD.1 | load 50000000 | generation 0
  bus VL_1 | 1 5 | BBS2.1 G.1 | load 0 | generation 60000000
2 InitialState bus_view VL: 2 buses
  bus VL_0 | 0 2 3 4 | BBS1.1 LD.1 | load 50000000 | generation 0
  bus VL_1 | 1 5 | BBS2.1 G.1 | load 0 | generation 60000000
end
"#,
        ),
    },
    Case {
        of_four: false,
        scripts: r#"
            [{"do": "open", "switch": "BC"}],
            [],
            [{"do": "add_switch", "id": "N", "level": "VL", "kind": "BREAKER", "node1": 3, "node2": 5}],
            [{"do": "bus_view", "level": "VL"}],
            [{"do": "bus_view", "level": "VL"}]
        "#,
        stale: true,
        report: Some(
            r#"order 0 0 1 1 0
worker 0
1 InitialState open BC: done
2 InitialState add_switch N: done
3 InitialState bus_view VL: 1 buses
  bus VL_0 | 0 1 2 3 4 5 | BBS1.1 BBS2.1 LD.1 G.1 | load 50000000 | generation 60000000
worker 1
1 InitialState bus_view VL: 1 buses
  bus VL_0 | 0 1 2 3 4 5 | BBS1.1 BBS2.1 LD.1 G.1 | load 50000000 | generation 60000000
2 InitialState bus_view VL: 1 buses
  bus VL_0 | 0 1 2 3 4 5 | BBS1.1 BBS2.1 LD.1 G.1 | load 50000000 | generation 60000000
end
"#,
        ),
    },
    Case {
        of_four: false,
        scripts: r#"
            [{"do": "open", "switch": "B"}],
            [],
            [{"do": "remove_switch", "id": "B"}],
            [{"do": "connect", "equipment": "LD"}],
            [{"do": "bus_view", "level": "VL"}]
        "#,
        stale: true,
        report: Some(
            r#"order 0 0 1 1 0
worker 0
1 InitialState open B: done
2 InitialState remove_switch B: done
3 InitialState bus_view VL: 1 buses
  bus VL_0 | 0 1 2 5 | BBS1.1 BBS2.1 G.1 | load 0 | generation 60000000
worker 1
1 InitialState connect LD 1: no path
2 InitialState bus_view VL: 1 buses
  bus VL_0 | 0 1 2 5 | BBS1.1 BBS2.1 G.1 | load 0 | generation 60000000
end
"#,
        ),
    },
    Case {
        of_four: false,
        scripts: r#"
            [],
            [],
            [
              {"do": "remove_switch", "id": "BG"},
              {"do": "add_switch", "id": "BG", "level": "VL", "kind": "BREAKER", "node1": 1, "node2": 5}
            ],
            [{"do": "bus_view", "level": "VL"}],
            [{"do": "bus_view", "level": "VL"}]
        "#,
        stale: false,
        report: Some(
            r#"order 0 0 1 1 0
worker 0
1 InitialState remove_switch BG: done
2 InitialState add_switch BG: done
3 InitialState bus_view VL: 1 buses
  bus VL_0 | 0 1 2 3 4 5 | BBS1.1 BBS2.1 LD.1 G.1 | load 50000000 | generation 60000000
worker 1
1 InitialState bus_view VL: 1 buses
  bus VL_0 | 0 1 2 3 4 5 | BBS1.1 BBS2.1 LD.1 G.1 | load 50000000 | generation 60000000
2 InitialState bus_view VL: 1 buses
  bus VL_0 | 0 1 2 3 4 5 | BBS1.1 BBS2.1 LD.1 G.1 | load 50000000 | generation 60000000
end
"#,
        ),
    },
    Case {
        of_four: false,
        scripts: r#"
            [{"do": "clone", "from": "InitialState", "to": "VA"}],
            [{"do": "use", "variant": "VA"}],
            [{"do": "remove", "variant": "VA"}],
            [{"do": "bus_view", "level": "VL"}],
            [{"do": "bus_view", "level": "VL"}]
        "#,
        stale: true,
        report: Some(
            r#"order 0 1 0 1 1 0
worker 0
1 InitialState clone InitialState VA: created
2 InitialState remove VA: done
3 InitialState bus_view VL: 1 buses
  bus VL_0 | 0 1 2 3 4 5 | BBS1.1 BBS2.1 LD.1 G.1 | load 50000000 | generation 60000000
worker 1
1 InitialState use VA: done
2 VA bus_view VL: refused 40 no variant
3 VA bus_view VL: refused 40 no variant
end
"#,
        ),
    },
    Case {
        of_four: false,
        scripts: r#"
            [
              {"do": "clone", "from": "InitialState", "to": "VA"},
              {"do": "clone", "from": "InitialState", "to": "VB"},
              {"do": "use", "variant": "VB"},
              {"do": "open", "switch": "BC"}
            ],
            [{"do": "use", "variant": "VA"}],
            [{"do": "clone", "from": "VB", "to": "VA", "overwrite": true}],
            [{"do": "bus_view", "level": "VL"}],
            [{"do": "bus_view", "level": "VL"}]
        "#,
        stale: true,
        report: Some(
            r#"order 0 0 0 0 1 0 1 1 0
worker 0
1 InitialState clone InitialState VA: created
2 InitialState clone InitialState VB: created
3 InitialState use VB: done
4 VB open BC: done
5 VB clone VB VA overwrite: overwritten
6 VB bus_view VL: 2 buses
  bus VL_0 | 0 2 3 4 | BBS1.1 LD.1 | load 50000000 | generation 0
  bus VL_1 | 1 5 | BBS2.1 G.1 | load 0 | generation 60000000
worker 1
1 InitialState use VA: done
2 VA bus_view VL: 2 buses
  bus VL_0 | 0 2 3 4 | BBS1.1 LD.1 | load 50000000 | generation 0
  bus VL_1 | 1 5 | BBS2.1 G.1 | load 0 | generation 60000000
3 VA bus_view VL: 2 buses
  bus VL_0 | 0 2 3 4 | BBS1.1 LD.1 | load 50000000 | generation 0
  bus VL_1 | 1 5 | BBS2.1 G.1 | load 0 | generation 60000000
end
"#,
        ),
    },
    Case {
        of_four: false,
        scripts: r#"
            [{"do": "clone", "from": "InitialState", "to": "VA"}],
            [{"do": "use", "variant": "VA"}],
            [{"do": "open", "switch": "BC"}],
            [{"do": "bus_view", "level": "VL"}],
            [{"do": "bus_view", "level": "VL"}]
        "#,
        stale: false,
        report: Some(
            r#"order 0 1 0 1 1 0
worker 0
1 InitialState clone InitialState VA: created
2 InitialState open BC: done
3 InitialState bus_view VL: 2 buses
  bus VL_0 | 0 2 3 4 | BBS1.1 LD.1 | load 50000000 | generation 0
  bus VL_1 | 1 5 | BBS2.1 G.1 | load 0 | generation 60000000
worker 1
1 InitialState use VA: done
2 VA bus_view VL: 1 buses
  bus VL_0 | 0 1 2 3 4 5 | BBS1.1 BBS2.1 LD.1 G.1 | load 50000000 | generation 60000000
3 VA bus_view VL: 1 buses
  bus VL_0 | 0 1 2 3 4 5 | BBS1.1 BBS2.1 LD.1 G.1 | load 50000000 | generation 60000000
end
"#,
        ),
    },
    Case {
        of_four: false,
        scripts: r#"
            [{"do": "clone", "from": "InitialState", "to": "VA"}],
            [{"do": "use", "variant": "VA"}],
            [
              {"do": "remove", "variant": "VA"},
              {"do": "clone", "from": "InitialState", "to": "VA"}
            ],
            [{"do": "disconnect", "equipment": "LD"}],
            [{"do": "bus_view", "level": "VL"}]
        "#,
        stale: false,
        report: Some(
            r#"order 0 1 0 0 1 1 0
worker 0
1 InitialState clone InitialState VA: created
2 InitialState remove VA: done
3 InitialState clone InitialState VA: created
4 InitialState bus_view VL: 1 buses
  bus VL_0 | 0 1 2 3 4 5 | BBS1.1 BBS2.1 LD.1 G.1 | load 50000000 | generation 60000000
worker 1
1 InitialState use VA: done
2 VA disconnect LD 1: opened B
3 VA bus_view VL: 1 buses
  bus VL_0 | 0 1 2 5 | BBS1.1 BBS2.1 G.1 | load 0 | generation 60000000
end
"#,
        ),
    },
    Case {
        of_four: true,
        scripts: r#"
            [],
            [],
            [{"do": "add_level", "id": "E", "substation": "S1", "nominal_v": 90000}],
            [{"do": "bus_view", "level": "D"}],
            [{"do": "bus_view", "level": "D"}]
        "#,
        stale: false,
        report: Some(
            r#"order 0 1 1 0
worker 0
1 InitialState add_level E: done
2 InitialState bus_view D: 1 buses
  bus D_0 | 0 1 2 | BBD.1 L2.2 GD.1 | load 0 | generation 120000000
worker 1
1 InitialState bus_view D: 1 buses
  bus D_0 | 0 1 2 | BBD.1 L2.2 GD.1 | load 0 | generation 120000000
2 InitialState bus_view D: 1 buses
  bus D_0 | 0 1 2 | BBD.1 L2.2 GD.1 | load 0 | generation 120000000
end
"#,
        ),
    },
    Case {
        of_four: false,
        scripts: r#"
            [],
            [],
            [],
            [
              {"do": "bus_view", "level": "VL"},
              {"do": "connect", "equipment": "LD"}
            ],
            [{"do": "bus_view", "level": "VL"}]
        "#,
        stale: true,
        report: None,
    },
];

impl Case {
    /// The case's network with its scripts.
    pub(crate) fn job(&self, seeded: Seeded) -> Result<Job, Fail> {
        let other = if self.of_four { FOUR } else { DUO };
        let bytes = with_scripts(seeded.alloc, other, self.scripts)?;
        read(seeded, bytes.as_slice())
    }
}

/// The scripts of a case.
#[derive(Clone, Copy)]
pub(crate) struct Parts<'a> {
    pub(crate) before_by_0: &'a Script,
    pub(crate) before_by_1: &'a Script,
    pub(crate) between: &'a Script,
    pub(crate) asked: &'a Script,
    pub(crate) look: &'a Script,
}

/// The scripts of a case's job by what they are for.
pub(crate) fn parts_of(scripts: &[Script]) -> Option<Parts<'_>> {
    match scripts {
        [before_by_0, before_by_1, between, asked, look] => Some(Parts {
            before_by_0,
            before_by_1,
            between,
            asked,
            look,
        }),
        _ => None,
    }
}
