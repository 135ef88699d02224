// Broken input of which no single case tells enough, or whose text is long.
use crate::words::words_of;
use grid_cli::grid_once;
use grid_forms::Status;
use grid_report::Text;
use grid_source::{Input, SureSink, SureSource};
use grid_structure::Seeded;
use std::alloc::Global;
use std::io;

/// How a check of these bytes ends, where nothing is written.
fn checked(seeded: Seeded, bytes: Vec<u8>) -> io::Result<Option<Status>> {
    let alloc = seeded.alloc;
    let words = words_of(alloc, "check")?;
    let mut input = Input::new(alloc, SureSource::new(bytes, 4096));
    let mut sink = SureSink::new(Vec::new(alloc), 4096);
    let mut warning = Text::empty(alloc);
    let status = grid_once(
        seeded,
        words.as_slice(),
        &mut input,
        &mut sink,
        &mut warning,
    );
    Ok(if sink.bytes().is_empty() {
        Some(status)
    } else {
        None
    })
}

/// How many bytes a job has, whose every beginning but the whole is no JSON; None where one is checked otherwise.
pub(crate) fn beginnings(seeded: Seeded, job: &[u8]) -> io::Result<Option<u64>> {
    let alloc = seeded.alloc;
    let mut front = Vec::new(alloc);
    let mut count = 0u64;
    for byte in job.trim_ascii() {
        match checked(seeded, front.to_vec(alloc)?)? {
            Some(Status::BadJson) => {}
            _ => return Ok(None),
        }
        front.push(*byte)?;
        count = count.saturating_add(1);
    }
    Ok(Some(count))
}

/// How a check of so many spaces ends, where nothing is written.
pub(crate) fn spaces(seeded: Seeded, count: usize) -> io::Result<Option<Status>> {
    checked(seeded, vec![in seeded.alloc; b' '; count]?)
}

/// How a check of a job ends in which one worker has this many commands, where nothing is written.
pub(crate) fn commands(seeded: Seeded, count: u32) -> io::Result<Option<Status>> {
    let alloc = seeded.alloc;
    let mut text = String::from_str(alloc, r#"{"format":1,"network":{"id":"N"},"workers":[["#)?;
    for place in 0..count {
        if place > 0 {
            text.push_str(",")?;
        }
        text.push_str(r#"{"do":"use","variant":"V"}"#)?;
    }
    text.push_str("]]}")?;
    checked(seeded, text.into_bytes())
}

/// A switch of a job's text, by its number.
fn put_switch(text: &mut String, alloc: Global, number: u32) -> io::Result<()> {
    let switch = format!(in alloc; r#"{{"id":"W{number}","kind":"BREAKER","node1":0,"node2":1}}"#)?;
    text.push_str(switch.as_str())?;
    Ok(())
}

/// How a check of a job ends whose network has this many switches, 4,000 in each level, where nothing is written.
pub(crate) fn switches(seeded: Seeded, count: u32) -> io::Result<Option<Status>> {
    let alloc = seeded.alloc;
    let mut text = String::from_str(
        alloc,
        r#"{"format":1,"network":{"id":"N","substations":[{"id":"S","levels":["#,
    )?;
    for number in 0..count {
        if number % 4_000 == 0 {
            text.push_str(if number == 0 { "" } else { "]}," })?;
            let level = format!(in alloc; r#"{{"id":"L{number}","nominal_v":1,"switches":["#)?;
            text.push_str(level.as_str())?;
        } else {
            text.push_str(",")?;
        }
        put_switch(&mut text, alloc, number)?;
    }
    text.push_str("]}]}]}}")?;
    checked(seeded, text.into_bytes())
}
