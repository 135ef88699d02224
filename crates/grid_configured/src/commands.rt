// Commands on networks with configured buses from JSON.
ghost use Rattle.std.specs.Prelude.{◌≡◌};
ghost use Rattle.grid_value.specs.View.{view};
ghost use Rattle.grid_json.specs.Reading.{Gives, texts};
ghost use Rattle.grid_configured.specs.Jobs.{command_names, sided_at, clone_at, request_at};

use crate::lists::{PlainId, Reader, read_member};
use grid_core::Request;
use grid_json::{Format, FromJson, ReadError, Reason, member, member_otherwise, object, only};
use grid_value::Value;
use std::alloc::Global;

/// What a command asks for.
#[derive(Clone, Copy, Debug, PartialEq, Eq)]
pub(crate) enum Verb {
    Use,
    Remove,
    Open,
    Close,
    Connect,
    Disconnect,
    BusView,
    Clone,
}

impl FromJson for Verb {
    ghost use Rattle.grid_json.specs.Reading.{word_at};
    ghost use Rattle.grid_configured.specs.Jobs.{verb_words};

    ghost reads = { λ _. word_at verb_words };

    fn from_json(alloc: Global, _format: Format, value: &Value) -> Result<Verb, ReadError> {
        let Some(word) = value.as_str() else {
            return Err(ReadError::here(alloc, Reason::WrongKind));
        };
        match word {
            "use" => Ok(Verb::Use),
            "remove" => Ok(Verb::Remove),
            "open" => Ok(Verb::Open),
            "close" => Ok(Verb::Close),
            "connect" => Ok(Verb::Connect),
            "disconnect" => Ok(Verb::Disconnect),
            "bus_view" => Ok(Verb::BusView),
            "clone" => Ok(Verb::Clone),
            _ => Err(ReadError::here(alloc, Reason::Unknown)),
        }
    }
}

// The members of a command.
fn names_of_command(verb: Verb) -> &'static [&'static str]
    ensures { texts result.now ≡ command_names verb }
{
    match verb {
        Verb::Use | Verb::Remove => &["do", "variant"],
        Verb::Open | Verb::Close => &["do", "switch"],
        Verb::Connect | Verb::Disconnect => &["do", "equipment", "side"],
        Verb::BusView => &["do", "level"],
        Verb::Clone => &["do", "from", "to", "overwrite"],
    }
}

#[tactic(auto, unfolding(crate::specs::Jobs::sided_at))]
fn connect_of(alloc: Global, value: &Value) -> Result<Request, ReadError>
    ensures { Gives result (sided_at Request.Connect (view value.now)) }
{
    let id = read_member::<PlainId>(alloc, value, "equipment")?;
    let side = member_otherwise(alloc, Format::One, value, "side", 1)?;
    Ok(Request::Connect { id, side })
}

#[tactic(auto, unfolding(crate::specs::Jobs::sided_at))]
fn disconnect_of(alloc: Global, value: &Value) -> Result<Request, ReadError>
    ensures { Gives result (sided_at Request.Disconnect (view value.now)) }
{
    let id = read_member::<PlainId>(alloc, value, "equipment")?;
    let side = member_otherwise(alloc, Format::One, value, "side", 1)?;
    Ok(Request::Disconnect { id, side })
}

#[tactic(auto, unfolding(crate::specs::Jobs::clone_at))]
fn clone_of(alloc: Global, value: &Value) -> Result<Request, ReadError>
    ensures { Gives result (clone_at (view value.now)) }
{
    let from = read_member::<PlainId>(alloc, value, "from")?;
    let to = read_member::<PlainId>(alloc, value, "to")?;
    let overwrite = member_otherwise(alloc, Format::One, value, "overwrite", false)?;
    Ok(Request::CloneVariant {
        from,
        to,
        overwrite,
    })
}

// The request of a verb.
#[tactic(auto, unfolding(crate::specs::Jobs::request_at, crate::specs::Jobs::named_at))]
fn request_of(alloc: Global, verb: Verb, value: &Value) -> Result<Request, ReadError>
    ensures { Gives result (request_at verb (view value.now)) }
{
    match verb {
        Verb::Use => Ok(Request::UseVariant {
            name: read_member::<PlainId>(alloc, value, "variant")?,
        }),
        Verb::Remove => Ok(Request::RemoveVariant {
            name: read_member::<PlainId>(alloc, value, "variant")?,
        }),
        Verb::Open => Ok(Request::OpenSwitch {
            id: read_member::<PlainId>(alloc, value, "switch")?,
        }),
        Verb::Close => Ok(Request::CloseSwitch {
            id: read_member::<PlainId>(alloc, value, "switch")?,
        }),
        Verb::Connect => connect_of(alloc, value),
        Verb::Disconnect => disconnect_of(alloc, value),
        Verb::BusView => Ok(Request::BusView {
            level: read_member::<PlainId>(alloc, value, "level")?,
        }),
        Verb::Clone => clone_of(alloc, value),
    }
}

/// Reads a command.
pub(crate) struct Command;

impl Reader for Command {
    ghost use Rattle.grid_configured.specs.Jobs.{command_at};

    type Item = Request;

    ghost reads = { command_at };

    #[tactic(auto, unfolding(crate::specs::Jobs::command_at))]
    fn read(alloc: Global, value: &Value) -> Result<Request, ReadError> {
        object(alloc, value)?;
        let verb = member(alloc, Format::One, value, "do")?;
        only(alloc, value, names_of_command(verb))?;
        request_of(alloc, verb, value)
    }
}
