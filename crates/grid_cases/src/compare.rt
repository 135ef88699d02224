// Where a text is another than it must be.
use std::alloc::Global;
use std::io;

/// A line between quotes, or that there is none.
fn quoted(alloc: Global, line: Option<&str>) -> io::Result<String> {
    match line {
        Some(line) => Ok(format!(in alloc; "`{line}`")?),
        None => Ok(String::from_str(alloc, "no line")?),
    }
}

/// The first line in which two texts differ, in words; no text where they are the same.
pub(crate) fn first_difference(alloc: Global, got: &str, wanted: &str) -> io::Result<String> {
    let mut got = got.split("\n");
    let mut wanted = wanted.split("\n");
    for number in 1..u64::MAX {
        let (here, there) = (got.next(), wanted.next());
        if here != there {
            let (here, there) = (quoted(alloc, here)?, quoted(alloc, there)?);
            return Ok(format!(in alloc; "line {number}: got {here}, wanted {there}")?);
        }
        if here.is_none() {
            break;
        }
    }
    Ok(String::new(alloc))
}
