// The formats of jobs.
use crate::{FromJson, ReadError, Reason};
use grid_value::Value;
use std::alloc::Global;

/// The format of a job. Each has the words of the formats before it; `Verb::since` tells which commands came with it.
#[derive(Clone, Copy, Debug, PartialEq, Eq)]
pub enum Format {
    /// The first.
    One,
    /// The second.
    Two,
    /// The third.
    Three,
    /// Has also the injection kind `CONVERTER_STATION`.
    Four,
    /// Has also levels with configured buses, and ends of branches at such buses.
    Five,
}

impl Format {
    ghost use Rattle.std.specs.Prelude.{◌≡◌};
    ghost use Rattle.grid_json.specs.Formats as formats;
    ghost use Rattle.grid_json.specs.Network as network;

    /// The number by which a job names it.
    pub fn number(self) -> u32
        ensures { result ≡ formats.number_of self }
    {
        match self {
            Format::One => 1,
            Format::Two => 2,
            Format::Three => 3,
            Format::Four => 4,
            Format::Five => 5,
        }
    }

    /// Whether it has levels with configured buses.
    pub fn has_buses(self) -> bool
        ensures { result ≡ network.has_buses self }
    {
        match self {
            Format::One | Format::Two | Format::Three | Format::Four => false,
            Format::Five => true,
        }
    }
}

impl FromJson for Format {
    ghost use Rattle.grid_json.specs.Job.{format_at};

    ghost reads = { format_at };

    fn from_json(alloc: Global, format: Format, value: &Value) -> Result<Format, ReadError> {
        match i64::from_json(alloc, format, value)? {
            1 => Ok(Format::One),
            2 => Ok(Format::Two),
            3 => Ok(Format::Three),
            4 => Ok(Format::Four),
            5 => Ok(Format::Five),
            _ => Err(ReadError::here(alloc, Reason::Unknown)),
        }
    }
}
