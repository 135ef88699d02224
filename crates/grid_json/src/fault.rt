// Why bytes are no job, and where that shows.
use crate::Place;
use grid_ids::{IdFault, Memory};
use grid_structure::EditFault;
use std::alloc::Global;

/// What is wrong at a place of a job. The rules and their order are this project's own.
#[derive(Debug, Drop)]
pub enum Reason {
    /// Reason 60: a member that must be there is not.
    Missing,
    /// Reason 61: a value of another JSON type than wanted, or an array of another length.
    WrongKind,
    /// Reason 62: a number that is not whole, or does not fit 64 bits with a sign.
    NotWhole,
    /// Reason 63: a word that is not among those given, or a member that is none of its object's.
    Unknown,
    /// Reason 64: the order does not have each worker as often as its script has commands, and nobody else.
    Schedule,
    /// Reason 65: all scripts together have more than 20,000 commands.
    TooManyCommands,
    /// Reason 66: there are more than 32 workers.
    TooManyWorkers,
    /// Reason 67: there are more than 16 listeners.
    TooManyListeners,
    /// Reason 70: the id of an HVDC line is that of a thing of the network or of an earlier line.
    HvdcIdTaken,
    /// Reason 71: no converter station of the network has the id of this side, 1 or 2.
    NoStation { side: u8 },
    /// Reason 72: an earlier line, or side 1 of this one, names the converter station of this side.
    StationUsed { side: u8 },
    /// Reason 73: there are more than 20,000 contingencies.
    TooManyContingencies,
    /// Reason 74: an id of a job with configured buses has the byte `!` or more than 100 bytes.
    Reserved,
    /// Reason 75: the level has no configured bus of this id.
    NoBus,
    /// Reason 76: both ends of a switch are one configured bus.
    SameBus,
    /// Reason 90: an end of a branch names a node of a level that has configured buses.
    NoNode,
    /// Reason 91: an id at a configured bus has more than 126 bytes, so that its breaker's would have more than 128.
    LongAtBus,
    /// Reason 92: a thing of the network has the id of the breaker of this side, from 1 on.
    BreakerTaken { side: u8 },
    /// A text that must be an id is none.
    Name(IdFault),
    /// An edit that loads the network is refused.
    Load(EditFault),
}

/// A reason at its place.
#[derive(Drop)]
pub struct Fault {
    pub place: Place,
    pub reason: Reason,
}

/// The first fault, or out of memory.
#[derive(Drop)]
pub enum ReadError {
    Memory,
    Fault(Fault),
}

impl From<Memory> for ReadError {
    ghost use Rattle.std.specs.Prelude.{◌≡◌};
    ghost use Rattle.grid_json.specs.declared.fault.ReadError.TheVariants as variants;

    ghost from_gives = { λ _ error. error ≡ variants.Memory };

    fn from(_memory: Memory) -> ReadError {
        ReadError::Memory
    }
}

impl ReadError {
    ghost use Rattle.std.specs.Prelude.{◌≡◌, decimal};
    ghost use Rattle.grid_json.specs.Reading.{here, IsUnder};

    /// This reason at the value itself.
    pub fn here(alloc: Global, reason: Reason) -> ReadError
        ensures { result ≡ ReadError.Fault (here reason) }
    {
        ReadError::Fault(Fault {
            place: Place::root(alloc),
            reason,
        })
    }

    /// The same fault, seen from the value that holds this one under a name.
    pub fn under(self, alloc: Global, name: &str) -> ReadError
        ensures { IsUnder name.now self result }
    {
        match self {
            ReadError::Memory => ReadError::Memory,
            ReadError::Fault(fault) => {
                let Fault { place, reason } = fault;
                match place.under(alloc, name) {
                    Ok(place) => ReadError::Fault(Fault { place, reason }),
                    Err(_) => ReadError::Memory,
                }
            }
        }
    }

    /// The same fault, seen from the array that holds this value at a position.
    pub fn under_position(self, alloc: Global, position: usize) -> ReadError
        ensures { IsUnder (decimal position) self result }
    {
        match format!(in alloc; "{position}") {
            Ok(name) => self.under(alloc, name.as_str()),
            Err(_) => ReadError::Memory,
        }
    }
}
