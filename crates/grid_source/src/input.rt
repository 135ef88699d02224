// A source with the bytes that were read of it.
ghost use Rattle.std.specs.Prelude.{◌≡◌, ◌≢◌, ◌≤◌, [], Err, length, OnOk, IfErr, IsErrOf};
ghost use Rattle.std.specs.Io.KnownBytes.{Consumes};
ghost use Rattle.grid_source.specs.Causes.{Rose};
ghost use Rattle.grid_source.specs.Whole.{ReadsToEnd, GivesUp, Taken};

use crate::Source;
use crate::whole::{MOST, ReadAllFault, read_to_end};
use std::alloc::Global;
use std::marker::Model;

/// A source with the bytes that were read of it. They are there once: what they mean is read from them where they
/// stand, and so is the place of a fault that is told afterwards.
#[derive(Drop)]
pub struct Input<S> {
    source: S,
    bytes: Vec<u8>,
}

impl<S> Model for Input<S> {
    ghost use Rattle.grid_source.specs.Whole.{Taken};

    ghost Value = { Taken S };

    ghost view = { λ input. record { source = input.source; bytes = input.bytes.items } };
}

impl<S> Input<S> {
    /// An input from this source, of which nothing was read. It takes no memory.
    pub fn new(alloc: Global, source: S) -> Input<S>
        ensures { result ≡ record { source = source; bytes = [] } }
    {
        Input {
            source,
            bytes: Vec::new(alloc),
        }
    }

    /// The bytes of the last reading: all of them after Ok, and those before the fault after Fault.
    pub fn bytes(&self) -> &[u8]
        ensures { result.now ≡ self.now.bytes }
    {
        self.bytes.as_slice()
    }
}

impl<S: Source> Input<S> {
    /// Reads to the end, in place of what was read before. Fault comes only where the source's count of faults rose,
    /// and after every other answer the count is as before. TooLong comes exactly where more than `MOST` bytes were
    /// read, which are at most `PIECE` more.
    pub fn read_all(&mut self) -> Result<(), ReadAllFault>
        ensures read { OnOk result (ReadsToEnd (S.left self.old.source) (S.left self.new.source)
            self.new.bytes) }
        ensures fits { length self.new.bytes ≤ MOST }
        ensures gives_up { IfErr result (λ fault. GivesUp MOST fault (S.left self.old.source)
            (S.left self.new.source)) }
        ensures front { IsErrOf result ReadAllFault.Fault → Consumes (S.left self.old.source)
            (S.left self.new.source) self.new.bytes }
        ensures later { S.faults self.old.source ≤ S.faults self.new.source }
        ensures fault { IsErrOf result ReadAllFault.Fault
            → Rose (S.faults self.old.source) (S.faults self.new.source) }
        ensures stays { result ≢ Err ReadAllFault.Fault
            → S.faults self.new.source ≡ S.faults self.old.source }
    {
        self.bytes.clear();
        read_to_end(&mut self.source, &mut self.bytes)
    }
}
