// The pieces in which an output is handed out.
use crate::words::words_of;
use grid_cli::grid_once;
use grid_report::Text;
use grid_source::{Failed, Input, Sink, SureSource};
use grid_structure::Seeded;
use std::io;

/// Keeps the sizes of the pieces that it is handed.
#[derive(Drop)]
struct Sizes {
    sizes: Vec<usize>,
    faults: u64,
}

impl Sink for Sizes {
    ghost use Rattle.std.specs.Prelude.{None};

    ghost written = { λ _. None };

    ghost faults = { λ s. s.faults };

    fn write(&mut self, bytes: &[u8]) -> Result<usize, Failed> {
        match self.sizes.push(bytes.len()) {
            Ok(()) => Ok(bytes.len()),
            Err(_) => {
                self.faults = self.faults.saturating_add(1);
                Err(Failed)
            }
        }
    }
}

/// The sizes of the pieces in which a replay of a job hands out its report.
pub(crate) fn pieces_of(seeded: Seeded, job: Vec<u8>) -> io::Result<Vec<usize>> {
    let alloc = seeded.alloc;
    let words = words_of(alloc, "replay")?;
    let mut input = Input::new(alloc, SureSource::new(job, 4096));
    let mut sink = Sizes {
        sizes: Vec::new(alloc),
        faults: 0,
    };
    let mut warning = Text::empty(alloc);
    grid_once(
        seeded,
        words.as_slice(),
        &mut input,
        &mut sink,
        &mut warning,
    );
    Ok(sink.sizes)
}
