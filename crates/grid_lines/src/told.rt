//! What is wrong with a job, told with the words and ids that it has there.

use crate::known::{
    commands, events, has, kinds_of, members_of_command, members_of_configured, members_of_item,
    members_of_kind, members_of_level, members_of_named, members_of_screen, other_form, roles,
    told_words, topologies, unit_of, wanted_at, wanted_in,
};
use crate::look::{Job, Seen};
use crate::missing::{level_of_side, level_with_buses, missing_bus, missing_level};
use crate::order::order_told;
use crate::sentence::{Members, Named, Sentence, Words};
use grid_json::Reason;
use grid_structure::EditFault;
use std::alloc::{AllocError, Global};

/// The words that may stand where the value does, each with the format that it came with.
fn words_at(job: &mut Job<'_>, seen: &Seen<'_>) -> Option<Words> {
    if seen.is_item() {
        return (seen.holder == "kinds").then_some(events());
    }
    match seen.name {
        "do" => Some(commands(seen.form)),
        "kind" => kinds_of(seen.above, job.word(seen.parent, "do")),
        "as" => Some(roles()),
        "only" => Some(told_words()),
        "topology" => Some(topologies()),
        _ => None,
    }
}

/// The format that a word came with, where it is one of those listed.
fn since(word: &str, words: Words) -> Option<i64> {
    let (_, format) = words.iter().find(|(known, _)| *known == word)?;
    Some(*format)
}

/// That a word or a member is of a later format.
fn later_told<'j>(word: &'j str, format: i64) -> Sentence<'j> {
    Sentence::two(
        "`",
        Named::Text(word),
        "` needs format ",
        Named::Number(format),
        " (63)",
    )
}

/// Why a word is unknown: it is of a later format, or of none.
fn word_told<'j>(job: &'j mut Job<'_>, seen: &Seen<'_>) -> Option<Sentence<'j>> {
    let words = words_at(job, seen)?;
    let format = if seen.is_configured() {
        4
    } else {
        job.format()
    };
    let word = job.text(seen.value)?;
    Some(match since(word, words) {
        Some(later) => later_told(word, later),
        None => Sentence::two(
            "`",
            Named::Text(word),
            "` is none of the words that are known here: ",
            Named::Words { words, format },
            " (63)",
        ),
    })
}

/// The array that holds the object, or no text where it stands at the top, in a job with contingencies.
fn screen_holder<'p>(seen: &Seen<'p>) -> Option<&'p str> {
    if !seen.is_screen() {
        None
    } else if seen.name.is_empty() {
        Some("")
    } else {
        seen.is_item().then_some(seen.holder)
    }
}

/// The members that the object of a job with contingencies has by the job's format.
fn members_by_format(job: &mut Job<'_>, seen: &Seen<'_>) -> Option<Members> {
    let holder = screen_holder(seen)?;
    members_of_screen(holder, job.screen_format())
}

/// The members that the object has in the second format of its job with contingencies, where that is of the first.
fn later_members(job: &mut Job<'_>, seen: &Seen<'_>) -> Members {
    match screen_holder(seen) {
        Some(holder) if job.screen_format() == 1 => members_of_screen(holder, 2).unwrap_or(&[]),
        _ => &[],
    }
}

/// Whether an object of an array is at configured buses, in a job of a format that has both kinds of levels: it stands
/// in a level with such buses, or is an end that names one.
fn is_at_buses(job: &mut Job<'_>, seen: &Seen<'_>) -> bool {
    match seen.holder {
        "switches" | "injections" => job.is_bus_level(seen.grandparent),
        "ends" => seen.command.is_none() && job.member(seen.value, "bus").is_some(),
        _ => false,
    }
}

/// The members that an object of an array may have in a job of the fifth format, but those that its kind brings.
fn members_of_either(job: &mut Job<'_>, seen: &Seen<'_>) -> Option<Members> {
    if seen.holder == "levels" {
        return Some(members_of_level(job.is_bus_level(seen.value)));
    }
    if is_at_buses(job, seen) {
        return members_of_configured(seen.holder);
    }
    members_of_item(seen.holder)
}

/// The members that the object may have, but those that its kind brings.
fn members_at(job: &mut Job<'_>, seen: &Seen<'_>) -> Option<Members> {
    if let Some(members) = members_by_format(job, seen) {
        return Some(members);
    }
    if !seen.is_item() {
        return members_of_named(seen.form, seen.name);
    }
    if seen.above == "workers" {
        let is_line = job.word(seen.value, "kind") == "LINE";
        return members_of_command(job.word(seen.value, "do"), is_line);
    }
    if seen.is_configured() {
        members_of_configured(seen.holder)
    } else if job.format() == 5 {
        members_of_either(job, seen)
    } else {
        members_of_item(seen.holder)
    }
}

/// The members that the object's kind brings.
fn members_of_its_kind(job: &mut Job<'_>, seen: &Seen<'_>) -> Members {
    if seen.holder == "injections" || job.word(seen.value, "do") == "add_injection" {
        members_of_kind(job.word(seen.value, "kind"))
    } else {
        &[]
    }
}

/// The names of an object's members.
fn names_of<'j>(
    alloc: Global,
    job: &'j mut Job<'_>,
    object: usize,
) -> Result<Vec<&'j str>, AllocError> {
    let mut names = Vec::new(alloc);
    let Some(mut walk) = job.walk(object) else {
        return Ok(names);
    };
    if !walk.enters_object() {
        return Ok(names);
    }
    for _ in 0..u64::MAX {
        let Some(name) = walk.next_name() else {
            break;
        };
        names.push(name)?;
        walk.pass();
    }
    Ok(names)
}

/// The first name in the order of their bytes that is none of those known.
fn unknown_of<'n>(names: &[&'n str], known: &[Members]) -> Option<&'n str> {
    let mut first: Option<&'n str> = None;
    for name in names {
        let is_first = match first {
            Some(first) => *name < first,
            None => true,
        };
        if is_first && !known.iter().any(|known| has(known, name)) {
            first = Some(*name);
        }
    }
    first
}

/// The member that the object may not have.
fn member_told<'j>(
    alloc: Global,
    job: &'j mut Job<'_>,
    seen: &Seen<'_>,
) -> Result<Option<Sentence<'j>>, AllocError> {
    let Some(members) = members_at(job, seen) else {
        return Ok(None);
    };
    let of_kind = members_of_its_kind(job, seen);
    let later = later_members(job, seen);
    // The number of the first format may be told, too.
    let format: Members = if has(later, "format") {
        &["format"]
    } else {
        &[]
    };
    let names = names_of(alloc, job, seen.value)?;
    let Some(name) = unknown_of(names.as_slice(), &[members, of_kind, format]) else {
        return Ok(None);
    };
    if has(later, name) {
        return Ok(Some(later_told(name, 2)));
    }
    let end = if seen.name.is_empty() {
        other_form(names.as_slice())
    } else {
        " (63)"
    };
    Ok(Some(Sentence::two(
        "the object has a member `",
        Named::Text(name),
        "`, and may have only ",
        Named::Members { members, of_kind },
        end,
    )))
}

/// That a number is no format.
fn format_told(found: i64, seen: &Seen<'_>) -> Sentence<'static> {
    let known = if seen.is_configured() {
        "1 alone"
    } else if seen.is_screen() && seen.holder.is_empty() {
        "1 and 2"
    } else {
        "1, 2, 3, 4 and 5"
    };
    Sentence::two(
        "format ",
        Named::Number(found),
        " is not read here, but ",
        Named::Word(known),
        " (63)",
    )
}

/// What is unknown: a word, a format or a member.
fn unknown_told<'j>(
    alloc: Global,
    job: &'j mut Job<'_>,
    seen: &Seen<'_>,
) -> Result<Option<Sentence<'j>>, AllocError> {
    if job.text(seen.value).is_some() {
        return Ok(word_told(job, seen));
    }
    match job.whole(seen.value) {
        Some(found) => Ok(Some(format_told(found, seen))),
        None => member_told(alloc, job, seen),
    }
}

/// That an array has another length than that of a branch of its kind.
fn length_told(job: &mut Job<'_>, seen: &Seen<'_>, found: usize) -> Sentence<'static> {
    let wanted = if job.word(seen.parent, "kind") == "THREE_WINDINGS" {
        3
    } else {
        2
    };
    Sentence::two(
        "an array of ",
        Named::Number(wanted),
        " must stand here, and this one has ",
        Named::Count(found),
        " (61)",
    )
}

/// What was wanted at the place, and what stands there.
fn kind_told(job: &mut Job<'_>, seen: &Seen<'_>) -> Sentence<'static> {
    let wanted = if seen.is_item() {
        wanted_in(seen.holder)
    } else {
        wanted_at(seen.name)
    };
    if wanted == "an array" {
        if let Some(found) = job.length(seen.value) {
            return length_told(job, seen, found);
        }
    }
    Sentence::two(
        "",
        Named::Word(wanted),
        " must stand here, and this is ",
        Named::Word(job.found(seen.value)),
        " (61)",
    )
}

/// Why a number is not whole, as it is written.
fn number_told<'j>(job: &'j mut Job<'_>, seen: &Seen<'_>) -> Option<Sentence<'j>> {
    let unit = unit_of(if seen.is_item() {
        seen.holder
    } else {
        seen.name
    });
    let number = job.number(seen.value)?;
    if number == "-0" {
        return Some(Sentence::plain("-0 must be written as 0 (62)"));
    }
    let is_fraction = number
        .bytes()
        .any(|byte| matches!(byte, b'.' | b'e' | b'E'));
    Some(if is_fraction {
        Sentence::two(
            "",
            Named::Text(number),
            " must be a whole number",
            Named::Word(unit),
            ", without point or exponent (62)",
        )
    } else {
        Sentence::one(
            "",
            Named::Text(number),
            " does not fit 64 bits with a sign (62)",
        )
    })
}

/// The converter station that an HVDC line names on a side, in vain or once more.
fn station_told<'j>(
    job: &'j mut Job<'_>,
    seen: &Seen<'_>,
    side: u8,
    is_used: bool,
) -> Option<Sentence<'j>> {
    let name = if side == 1 { "station1" } else { "station2" };
    let station = job.text_member(seen.value, name)?;
    let id = Named::Text(job.text(station)?);
    let side = Named::Number(i64::from(side));
    Some(if is_used {
        Sentence::two(
            "an HVDC line has the converter station `",
            id,
            "` of side ",
            side,
            " already (72)",
        )
    } else {
        Sentence::two(
            "side ",
            side,
            " names `",
            id,
            "`, and no converter station has that id (71)",
        )
    })
}

/// The level of another substation at an end of a transformer.
fn substation_told<'j>(job: &'j mut Job<'_>, seen: &Seen<'_>, side: u8) -> Option<Sentence<'j>> {
    let level = level_of_side(job, seen.value, side)?;
    let id = job.text(level)?;
    Some(Sentence::two(
        "the transformer's end ",
        Named::Number(i64::from(side)),
        " is in the level `",
        Named::Text(id),
        "` of another substation (34)",
    ))
}

/// The id that is too long for what stands at a configured bus.
fn long_told(job: &mut Job<'_>, seen: &Seen<'_>) -> Option<Sentence<'static>> {
    let id = job.text_member(seen.value, "id")?;
    let length = job.text(id)?.len();
    Some(Sentence::one(
        "the id has ",
        Named::Count(length),
        " bytes, and 126 are the most at a configured bus, since its breaker's id has two more (91)",
    ))
}

/// The id of a breaker that something has already.
fn breaker_told<'j>(job: &'j mut Job<'_>, seen: &Seen<'_>, side: u8) -> Option<Sentence<'j>> {
    let id = job.text_member(seen.value, "id")?;
    Some(Sentence::two(
        "a substation, level, switch or equipment has the id `",
        Named::Text(job.text(id)?),
        "!",
        Named::Number(i64::from(side)),
        "` of its breaker already (92)",
    ))
}

/// What stands round the id that a job has a fault for, where one is told alone.
fn round_id(seen: &Seen<'_>, reason: &Reason) -> Option<(&'static str, &'static str)> {
    match reason {
        Reason::NoBus => Some(("the level has no bus `", "` (75)")),
        Reason::Reserved => Some((
            "the id `",
            "` has more than 100 bytes or an exclamation mark, and such ids are the program's own (74)",
        )),
        Reason::SameBus => Some(("both ends of the switch are the bus `", "` (76)")),
        Reason::NoNode => Some((
            "an end names a node of the level `",
            "`, which has configured buses: `bus` must stand in its place (90)",
        )),
        Reason::Load(EditFault::IdTaken) if seen.is_configured() => {
            Some((
                "a level, bus, switch, injection or line has the id `",
                "` already (30)",
            ))
        }
        Reason::Load(EditFault::IdTaken) => {
            Some((
                "a substation, level, switch or equipment has the id `",
                "` already (30)",
            ))
        }
        Reason::Load(EditFault::NoLevel) => Some(("no level before it has the id `", "` (32)")),
        _ => None,
    }
}

/// Where the id is that a job has a fault for.
fn id_at(
    alloc: Global,
    job: &mut Job<'_>,
    seen: &Seen<'_>,
    reason: &Reason,
) -> Result<Option<usize>, AllocError> {
    match reason {
        Reason::NoBus => missing_bus(alloc, job, seen),
        Reason::SameBus => Ok(job.text_member(seen.value, "bus1")),
        Reason::NoNode => level_with_buses(alloc, job, seen),
        Reason::Load(EditFault::NoLevel) => missing_level(alloc, job, seen),
        Reason::Load(_) => Ok(job.text_member(seen.value, "id").or(Some(seen.value))),
        _ => Ok(Some(seen.value)),
    }
}

/// The id that a job has a fault for.
fn id_told<'j>(
    alloc: Global,
    job: &'j mut Job<'_>,
    seen: &Seen<'_>,
    reason: &Reason,
) -> Result<Option<Sentence<'j>>, AllocError> {
    let Some((begin, end)) = round_id(seen, reason) else {
        return Ok(None);
    };
    let Some(at) = id_at(alloc, job, seen, reason)? else {
        return Ok(None);
    };
    Ok(match job.text(at) {
        Some(id) => Some(Sentence::one(begin, Named::Text(id), end)),
        None => None,
    })
}

/// Why a job has a fault, with what stands at its place; None where that tells no more than the reason.
fn sentence_of<'j>(
    alloc: Global,
    job: &'j mut Job<'_>,
    seen: &Seen<'_>,
    reason: &Reason,
) -> Result<Option<Sentence<'j>>, AllocError> {
    match reason {
        Reason::Unknown => unknown_told(alloc, job, seen),
        Reason::WrongKind => Ok(Some(kind_told(job, seen))),
        Reason::NotWhole => Ok(number_told(job, seen)),
        Reason::Schedule => order_told(alloc, job, seen.parent, seen.value),
        Reason::NoStation { side } => Ok(station_told(job, seen, *side, false)),
        Reason::StationUsed { side } => Ok(station_told(job, seen, *side, true)),
        Reason::LongAtBus => Ok(long_told(job, seen)),
        Reason::BreakerTaken { side } => Ok(breaker_told(job, seen, *side)),
        Reason::Load(EditFault::OtherSubstation { side }) => {
            Ok(substation_told(job, seen, *side))
        }
        Reason::Load(EditFault::TooManyEdges) if seen.is_configured() => Ok(Some(Sentence::plain(
            "the level has 4,096 switches and terminals, which are the most (25)",
        ))),
        _ => id_told(alloc, job, seen, reason),
    }
}

/// Why a job has a fault, with what stands at its place, in words; None where that tells no more than the reason.
pub(crate) fn why_seen(
    alloc: Global,
    job: &mut Job<'_>,
    seen: &Seen<'_>,
    reason: &Reason,
) -> Result<Option<String>, AllocError> {
    match sentence_of(alloc, job, seen, reason)? {
        Some(sentence) => Ok(Some(format!(in alloc; "{sentence}")?)),
        None => Ok(None),
    }
}
