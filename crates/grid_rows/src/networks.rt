// Worked networks, and jobs on them.
use grid_ids::Memory;
use grid_json::{Job, read_job};
use grid_structure::Seeded;
use std::alloc::{AllocError, Global};
use std::hash::RandomState;
use std::test::Fail;

/// A level of two busbar sections with a coupler between them, and no worker.
pub(crate) const DUO: &str = r#"{
  "format": 1,
  "network": {
    "id": "DUO",
    "substations": [{
      "id": "S",
      "levels": [{
        "id": "VL", "nominal_v": 225000,
        "busbars": [{"id": "BBS1", "node": 0}, {"id": "BBS2", "node": 1}],
        "switches": [
          {
            "id": "D1", "kind": "DISCONNECTOR", "node1": 0, "node2": 2, "open": false, "retained": false,
            "fictitious": false
          },
          {
            "id": "D2", "kind": "DISCONNECTOR", "node1": 1, "node2": 2, "open": true, "retained": false,
            "fictitious": false
          },
          {"id": "B", "kind": "BREAKER", "node1": 2, "node2": 3, "open": false, "retained": false, "fictitious": false},
          {"id": "BC", "kind": "BREAKER", "node1": 0, "node2": 1, "retained": true, "open": false, "fictitious": false},
          {"id": "BG", "kind": "BREAKER", "node1": 1, "node2": 5, "open": false, "retained": false, "fictitious": false}
        ],
        "internal": [{"node1": 3, "node2": 4}],
        "injections": [
          {"kind": "LOAD", "id": "LD", "node": 4, "p0": 50000000, "q0": 0},
          {
            "kind": "GENERATOR", "id": "G", "node": 5, "target_p": 60000000, "target_v": 225000, "min_p": 0,
            "max_p": 100000000
          }
        ]
      }]
    }]
  },
  "workers": []
}
"#;

/// Four levels of three substations, with a transformer and two lines, and three workers.
pub(crate) const FOUR: &str = r#"{
  "format": 1,
  "network": {
    "id": "FOUR",
    "substations": [
      {
        "id": "S1",
        "levels": [
          {
            "id": "A", "nominal_v": 400000,
            "busbars": [{"id": "BBA", "node": 0}],
            "switches": [
              {"id": "A1", "kind": "BREAKER", "node1": 0, "node2": 1},
              {"id": "A2", "kind": "BREAKER", "node1": 0, "node2": 2}
            ]
          },
          {
            "id": "B", "nominal_v": 225000,
            "busbars": [{"id": "BBB", "node": 0}],
            "switches": [
              {"id": "B1", "kind": "BREAKER", "node1": 0, "node2": 1},
              {"id": "B2", "kind": "BREAKER", "node1": 0, "node2": 2}
            ],
            "injections": [{"kind": "LOAD", "id": "LB", "node": 2, "p0": 80000000, "q0": 0}]
          }
        ],
        "transformers": [{
          "kind": "TWO_WINDINGS", "id": "TR",
          "ends": [{"level": "A", "node": 2}, {"level": "B", "node": 1}],
          "rated_u": [400000, 225000]
        }]
      },
      {
        "id": "S2",
        "levels": [{
          "id": "C", "nominal_v": 400000,
          "busbars": [{"id": "BBC", "node": 0}],
          "switches": [
            {"id": "C1", "kind": "BREAKER", "node1": 0, "node2": 1},
            {"id": "C2", "kind": "BREAKER", "node1": 0, "node2": 2},
            {"id": "C3", "kind": "BREAKER", "node1": 0, "node2": 3}
          ],
          "injections": [{"kind": "LOAD", "id": "LC", "node": 3, "p0": 30000000, "q0": 0}]
        }]
      },
      {
        "id": "S3",
        "levels": [{
          "id": "D", "nominal_v": 400000,
          "busbars": [{"id": "BBD", "node": 0}],
          "switches": [
            {"id": "D1", "kind": "BREAKER", "node1": 0, "node2": 1},
            {"id": "D2", "kind": "BREAKER", "node1": 0, "node2": 2}
          ],
          "injections": [{
            "kind": "GENERATOR", "id": "GD", "node": 2, "target_p": 120000000, "target_v": 400000, "min_p": 0,
            "max_p": 200000000
          }]
        }]
      }
    ],
    "lines": [
      {"id": "L1", "ends": [{"level": "A", "node": 1}, {"level": "C", "node": 1}]},
      {"id": "L2", "ends": [{"level": "C", "node": 2}, {"level": "D", "node": 1}]}
    ]
  },
  "workers": [
    [
      {"do": "clone", "from": "InitialState", "to": "X"},
      {"do": "use", "variant": "X"},
      {"do": "disconnect", "equipment": "L1", "side": 1},
      {"do": "components", "level": "C"}
    ],
    [
      {"do": "clone", "from": "InitialState", "to": "Y"},
      {"do": "use", "variant": "Y"},
      {"do": "disconnect", "equipment": "GD", "side": 1},
      {"do": "bus_view", "level": "D"}
    ],
    [
      {"do": "add_switch", "id": "A3", "level": "A", "kind": "BREAKER", "node1": 0, "node2": 3},
      {"do": "add_injection", "kind": "LOAD", "id": "LA", "level": "A", "node": 3, "p0": 10000000, "q0": 0},
      {"do": "bus_view", "level": "A"}
    ]
  ]
}
"#;

/// The job of another job's network with these scripts, an array of them each.
pub(crate) fn with_scripts(
    alloc: Global,
    other: &str,
    scripts: &str,
) -> Result<Vec<u8>, AllocError> {
    let (front, _scripts) = other.split_once("\"workers\"").unwrap_or(("", ""));
    let mut job = String::from_str(alloc, front)?;
    job.push_str("\"workers\":[")?;
    job.push_str(scripts)?;
    job.push_str("]}")?;
    Ok(job.into_bytes())
}

/// The allocator, and a seed for tables of ids.
pub(crate) fn seeded(rt: &HostRuntime) -> Result<Seeded, Fail> {
    Ok(Seeded {
        alloc: rt.alloc(),
        hasher: RandomState::new(rt)?,
    })
}

/// The job of these bytes.
pub(crate) fn read(seeded: Seeded, bytes: &[u8]) -> Result<Job, Fail> {
    let job = match read_job(seeded, bytes) {
        Ok(job) => Ok(job),
        Err(_) => Err(Memory),
    };
    Ok(job?)
}
