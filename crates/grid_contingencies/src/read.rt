// Jobs with contingencies from JSON.
ghost use Rattle.std.specs.Prelude.{◌≡◌, ◌≤◌, ◌+◌, [], IfOk, codes, length, nat_lt, unwrap_or, is_none, not};
ghost use Rattle.serde_json.specs.Find.{get};
ghost use Rattle.grid_value.specs.View.{view};
ghost use Rattle.grid_json.specs.Job.{command_total, max_commands};
ghost use Rattle.grid_json.specs.Reading.{Gives, array_at, member_at, member_or};
ghost use Rattle.grid_json.specs.Whole.{JobGives};
ghost use Rattle.grid_contingencies.specs.Jobs.{max_contingencies, format_at, needed_at, has_member, outage_at, fault_at, contingencies_at, item_at, few_made, each_at, first_root_at, second_root_at, root_at, screen_at, screen_job_of};

use crate::making::{count_made, each_once};
use crate::{Contingencies, Contingency, Each, Eaches, FaultCase, Piece, Role, ScreenJob, Told};
use grid_ids::{Id, Ids};
use grid_json::{
    Format, FromJson, JobFault, ReadError, Reason, few, job_member, member, member_otherwise,
    object, only, optional,
};
use grid_structure::{Seeded, Structure};
use grid_value::{ByteFault, Scratch, Tree, Value};
use std::alloc::Global;

/// The most contingencies that are screened at once.
const MOST_CONTINGENCIES: usize = 20_000;

// The format of a job with contingencies.
fn format_of(alloc: Global, value: &Value) -> Result<Format, ReadError>
    ensures { Gives result (format_at (view value.now)) }
{
    match i64::from_json(alloc, Format::One, value)? {
        1 => Ok(Format::One),
        2 => Ok(Format::Two),
        _ => Err(ReadError::here(alloc, Reason::Unknown)),
    }
}

// The member `format`, or the first format.
fn format_member(alloc: Global, value: &Value) -> Result<Format, ReadError>
    ensures { Gives result (member_or Format.One format_at (codes "format") (view value.now)) }
{
    match value.get("format") {
        None => Ok(Format::One),
        Some(found) => match format_of(alloc, &found) {
            Ok(format) => Ok(format),
            Err(e) => Err(e.under(alloc, "format")),
        },
    }
}

// A member that must be there where the flag says so.
fn needed<T: FromJson>(
    alloc: Global,
    format: Format,
    value: &Value,
    name: &str,
    must: bool,
) -> Result<Option<T>, ReadError>
    ensures { Gives result (needed_at must (T.reads format) name.now (view value.now)) }
{
    if !must {
        return optional(alloc, format, value, name);
    }
    match member(alloc, format, value, name) {
        Ok(read) => Ok(Some(read)),
        Err(e) => Err(e),
    }
}

// Whether the object has the member.
fn has(value: &Value, name: &str) -> bool
    ensures here { result ≡ has_member name.now (view value.now) }
    ensures gone { is_none (get name.now (view value.now)) ≡ (not result) }
{
    value.get(name).is_some()
}

// These ids, or none.
fn or_none(alloc: Global, ids: Option<Ids>) -> Ids
    ensures { result ≡ unwrap_or ids [] }
{
    match ids {
        Some(ids) => ids,
        None => Ids::empty(alloc),
    }
}

// A contingency of the first format.
#[tactic(auto, unfolding(crate::specs::Jobs::outage_at))]
fn read_outage(alloc: Global, value: &Value) -> Result<Contingency, ReadError>
    ensures { Gives result (outage_at (view value.now)) }
{
    only(alloc, value, &["name", "out"])?;
    let name = member(alloc, Format::One, value, "name")?;
    let out = member(alloc, Format::One, value, "out")?;
    Ok(Contingency {
        name,
        event: FaultCase {
            out,
            fault: Ids::empty(alloc),
            stuck: Ids::empty(alloc),
        },
        has_fault: false,
    })
}

// A contingency of the second format.
#[tactic(auto, unfolding(crate::specs::Jobs::fault_at))]
fn read_fault(alloc: Global, value: &Value) -> Result<Contingency, ReadError>
    ensures { Gives result (fault_at (view value.now)) }
{
    only(alloc, value, &["name", "out", "fault", "stuck"])?;
    let name: Id = member(alloc, Format::One, value, "name")?;
    let out: Option<Ids> = needed(alloc, Format::One, value, "out", !has(value, "fault"))?;
    let fault: Option<Ids> = needed(alloc, Format::One, value, "fault", has(value, "stuck"))?;
    let stuck: Option<Ids> = optional(alloc, Format::One, value, "stuck")?;
    let has_fault = fault.is_some();
    Ok(Contingency {
        name,
        event: FaultCase {
            out: or_none(alloc, out),
            fault: or_none(alloc, fault),
            stuck: or_none(alloc, stuck),
        },
        has_fault,
    })
}

impl FromJson for Contingency {
    ghost use Rattle.grid_contingencies.specs.Jobs.{contingency_at};

    ghost reads = { contingency_at };

    fn from_json(alloc: Global, format: Format, value: &Value) -> Result<Contingency, ReadError> {
        match format {
            Format::One => read_outage(alloc, value),
            Format::Two => read_fault(alloc, value),
            Format::Three => read_fault(alloc, value),
            Format::Four => read_fault(alloc, value),
            Format::Five => read_fault(alloc, value),
        }
    }
}

// The contingencies, of which there are few enough.
fn read_list(alloc: Global, format: Format, value: &Value) -> Result<Contingencies, ReadError>
    ensures list { Gives result (contingencies_at format (view value.now)) }
    ensures few { IfOk result (λ list. length list ≤ max_contingencies) }
{
    few(
        alloc,
        format,
        value,
        MOST_CONTINGENCIES,
        Reason::TooManyContingencies,
    )
}

// The member `contingencies`, which must be there.
fn contingencies_of(
    alloc: Global,
    format: Format,
    value: &Value,
) -> Result<Contingencies, ReadError>
    ensures list { Gives result (member_at (contingencies_at format) (codes "contingencies") (view value.now)) }
    ensures few { IfOk result (λ list. length list ≤ max_contingencies) }
{
    match value.get("contingencies") {
        None => Err(ReadError::here(alloc, Reason::Missing).under(alloc, "contingencies")),
        Some(found) => match read_list(alloc, format, &found) {
            Ok(contingencies) => Ok(contingencies),
            Err(e) => Err(e.under(alloc, "contingencies")),
        },
    }
}

impl FromJson for Piece {
    ghost use Rattle.grid_contingencies.specs.Jobs.{piece_at};

    ghost reads = { λ _. piece_at };

    fn from_json(alloc: Global, _format: Format, value: &Value) -> Result<Piece, ReadError> {
        let Some(word) = value.as_str() else {
            return Err(ReadError::here(alloc, Reason::WrongKind));
        };
        match word {
            "LINE" => Ok(Piece::Line),
            "TWO_WINDINGS" => Ok(Piece::TwoWindings),
            "THREE_WINDINGS" => Ok(Piece::ThreeWindings),
            "GENERATOR" => Ok(Piece::Generator),
            "LOAD" => Ok(Piece::Load),
            "BUSBAR_SECTION" => Ok(Piece::BusbarSection),
            "BREAKER" => Ok(Piece::Breaker),
            _ => Err(ReadError::here(alloc, Reason::Unknown)),
        }
    }
}

impl FromJson for Role {
    ghost use Rattle.grid_contingencies.specs.Jobs.{role_at};

    ghost reads = { λ _. role_at };

    fn from_json(alloc: Global, _format: Format, value: &Value) -> Result<Role, ReadError> {
        let Some(word) = value.as_str() else {
            return Err(ReadError::here(alloc, Reason::WrongKind));
        };
        match word {
            "out" => Ok(Role::Out),
            "fault" => Ok(Role::Fault),
            _ => Err(ReadError::here(alloc, Reason::Unknown)),
        }
    }
}

impl FromJson for Each {
    ghost reads = { λ _. item_at };

    #[tactic(auto, unfolding(crate::specs::Jobs::item_at))]
    fn from_json(alloc: Global, format: Format, value: &Value) -> Result<Each, ReadError> {
        only(alloc, value, &["kind", "as"])?;
        let kind = member(alloc, format, value, "kind")?;
        let role = member(alloc, format, value, "as")?;
        Ok(Each { kind, role })
    }
}

impl FromJson for Told {
    ghost use Rattle.grid_contingencies.specs.Jobs.{told_at};

    ghost reads = { λ _. told_at };

    fn from_json(alloc: Global, _format: Format, value: &Value) -> Result<Told, ReadError> {
        let Some(word) = value.as_str() else {
            return Err(ReadError::here(alloc, Reason::WrongKind));
        };
        match word {
            "all" => Ok(Told::All),
            "losses" => Ok(Told::Losses),
            _ => Err(ReadError::here(alloc, Reason::Unknown)),
        }
    }
}

// Whether so many contingencies, and those that a network has by the items, are too many.
fn are_too_many(count: usize, listed: usize) -> bool
    requires { listed ≤ max_contingencies }
    ensures { result ≡ nat_lt max_contingencies (listed + count) }
{
    count > MOST_CONTINGENCIES - listed
}

// The items, each once, where they make few enough contingencies beside so many.
#[tactic(auto, unfolding(crate::specs::Jobs::few_made))]
fn few_items(
    alloc: Global,
    structure: &Structure,
    listed: usize,
    items: &Eaches,
) -> Result<Eaches, ReadError>
    requires { listed ≤ max_contingencies }
    ensures { Gives result (few_made structure.now listed items.now) }
{
    let count = count_made(alloc, structure, items)?;
    if are_too_many(count, listed) {
        return Err(ReadError::here(alloc, Reason::TooManyContingencies));
    }
    Ok(each_once(alloc, items.slice())?)
}

// The items of a value, each once.
fn read_each(
    alloc: Global,
    structure: &Structure,
    listed: usize,
    value: &Value,
) -> Result<Eaches, ReadError>
    requires { listed ≤ max_contingencies }
    ensures { Gives result (each_at structure.now listed (view value.now)) }
{
    let items = Eaches::from_json(alloc, Format::One, value)?;
    few_items(alloc, structure, listed, &items)
}

// The member `each`, or no items.
fn each_of(
    alloc: Global,
    structure: &Structure,
    listed: usize,
    value: &Value,
) -> Result<Eaches, ReadError>
    requires { listed ≤ max_contingencies }
    ensures { Gives result (member_or [] (each_at structure.now listed) (codes "each") (view value.now)) }
{
    match value.get("each") {
        None => Ok(Eaches::empty(alloc)),
        Some(found) => match read_each(alloc, structure, listed, &found) {
            Ok(each) => Ok(each),
            Err(e) => Err(e.under(alloc, "each")),
        },
    }
}

// The job of a value in the first format, with its contingencies.
#[tactic(auto, unfolding(crate::specs::Jobs::first_root_at))]
fn read_first(seeded: Seeded, value: &Value) -> Result<ScreenJob, ReadError>
    ensures job { Gives result (first_root_at (view value.now)) }
    ensures total { IfOk result (λ screen. command_total screen.job.scripts ≤ max_commands) }
{
    let alloc = seeded.alloc;
    only(alloc, value, &["format", "job", "contingencies"])?;
    let job = job_member(seeded, value)?;
    let contingencies = contingencies_of(alloc, Format::One, value)?;
    Ok(ScreenJob {
        format: Format::One,
        job,
        variant: None,
        contingencies,
        each: Eaches::empty(alloc),
        only: Told::All,
    })
}

// The job of a value in the second format, with its contingencies.
#[tactic(auto, unfolding(crate::specs::Jobs::second_root_at))]
fn read_second(seeded: Seeded, value: &Value) -> Result<ScreenJob, ReadError>
    ensures job { Gives result (second_root_at (view value.now)) }
    ensures total { IfOk result (λ screen. command_total screen.job.scripts ≤ max_commands) }
{
    let alloc = seeded.alloc;
    only(
        alloc,
        value,
        &["format", "job", "variant", "contingencies", "each", "only"],
    )?;
    let job = job_member(seeded, value)?;
    let variant = optional(alloc, Format::Two, value, "variant")?;
    let contingencies = contingencies_of(alloc, Format::Two, value)?;
    let each = each_of(alloc, &job.network, contingencies.len(), value)?;
    let told = member_otherwise(alloc, Format::Two, value, "only", Told::All)?;
    Ok(ScreenJob {
        format: Format::Two,
        job,
        variant,
        contingencies,
        each,
        only: told,
    })
}

// The job of a value in a format.
fn read_in(seeded: Seeded, format: Format, value: &Value) -> Result<ScreenJob, ReadError>
    ensures job { Gives result (root_at format (view value.now)) }
    ensures total { IfOk result (λ screen. command_total screen.job.scripts ≤ max_commands) }
{
    match format {
        Format::One => read_first(seeded, value),
        Format::Two => read_second(seeded, value),
        Format::Three => read_second(seeded, value),
        Format::Four => read_second(seeded, value),
        Format::Five => read_second(seeded, value),
    }
}

// The job of a value, with its contingencies.
#[tactic(auto, unfolding(crate::specs::Jobs::screen_at))]
fn read_root(seeded: Seeded, value: &Value) -> Result<ScreenJob, ReadError>
    ensures job { Gives result (screen_at (view value.now)) }
    ensures total { IfOk result (λ screen. command_total screen.job.scripts ≤ max_commands) }
{
    object(seeded.alloc, value)?;
    let format = format_member(seeded.alloc, value)?;
    read_in(seeded, format, value)
}

/// The job of the bytes with its contingencies: BadJson exactly where `serde_json` has no reading of them, BadJob
/// exactly where there is a fault, with the first one. The root's member `format`, 1 or 2, is read first, and is 1
/// where it is absent; then members that the format does not have are Unknown (63). Then `job` is read whole, with its
/// loading, before `variant`, an id, `contingencies`, `each` and `only`. More than 20,000 contingencies are
/// TooManyContingencies (73), before the items are looked at; each is an object with `name` and `out`, an array of ids,
/// and in format 2 with `fault` and `stuck`, arrays of ids, too: `out` must be there where `fault` is not, and `fault`
/// where `stuck` is. An item of `each` has `kind`, a word of a piece, and `as`, `out` or `fault`; where the listed
/// contingencies and those that the loaded network has by the items are more than 20,000 together, that is
/// TooManyContingencies at `each`. `only` is `all` or `losses`. The rules and their order are this project's own.
#[tactic(auto, unfolding(crate::specs::Jobs::screen_job_of))]
pub fn read_screen(seeded: Seeded, bytes: &[u8]) -> Result<ScreenJob, JobFault>
    ensures job { JobGives result (screen_job_of bytes.now) }
    ensures total { IfOk result (λ screen. command_total screen.job.scripts ≤ max_commands) }
{
    let alloc = seeded.alloc;
    let mut scratch = Scratch::new(alloc);
    let tree = match Tree::from_slice(alloc, bytes, &mut scratch) {
        Ok(tree) => tree,
        Err(ByteFault::NotJson) => return Err(JobFault::BadJson),
        Err(ByteFault::Memory) => return Err(JobFault::Memory),
    };
    match read_root(seeded, &tree.root()) {
        Ok(screen) => Ok(screen),
        Err(ReadError::Memory) => Err(JobFault::Memory),
        Err(ReadError::Fault(fault)) => Err(JobFault::BadJob {
            place: fault.place,
            reason: fault.reason,
        }),
    }
}
