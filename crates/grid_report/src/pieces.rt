// Bytes that are handed to a sink in pieces of one size.
ghost use Rattle.std.specs.Prelude.{◌≡◌, ◌≢◌, ◌<◌, ◌≤◌, ℕ, List, [], length, take, OnOk, OnErr, Err};
ghost use Rattle.std.specs.List.{flat_map};
ghost use Rattle.std.specs.Io.KnownBytes.{Appends, append_known};
ghost use Rattle.grid_source.specs.Causes.{Rose};
ghost use Rattle.grid_source.specs.Whole.{IsBegun};

use crate::text::Text;
use grid_ids::Memory;
use grid_source::{PIECE, Sink, write_all};
use std::alloc::Global;
use std::marker::Model;

/// Bytes that wait for a whole piece.
#[derive(Drop)]
pub struct Pieces {
    buffer: Vec<u8>,
}

impl Model for Pieces {
    ghost Value = { List ℕ };

    ghost view = { λ p. p.buffer.items };

    ghost invariant = { λ p. length p.buffer.items < 4096 };
}

/// Why a text was not written whole. A front of it was.
#[derive(Clone, Copy, Debug, PartialEq, Eq)]
pub enum ReportFault {
    /// The sink failed.
    Stopped,
    /// Out of memory.
    Memory,
}

impl From<Memory> for ReportFault {
    ghost use Rattle.std.specs.Prelude.{◌≡◌};
    ghost use Rattle.grid_report.specs.declared.pieces.ReportFault.TheVariants as variants;

    ghost from_gives = { λ _ fault. fault ≡ variants.Memory };

    fn from(_memory: Memory) -> ReportFault {
        ReportFault::Memory
    }
}

impl Pieces {
    /// No byte waits. It takes no memory.
    pub fn empty(alloc: Global) -> Pieces
        ensures { result ≡ [] }
    {
        Pieces {
            buffer: Vec::new(alloc),
        }
    }

    /// Puts bytes behind those that wait, and hands each whole piece to the sink. None waits where the sink stopped;
    /// where memory runs out what was written and what waits is a front of what was to be.
    pub fn put<K: Sink>(&mut self, sink: &mut K, bytes: &[u8]) -> Result<(), ReportFault>
        ensures ok { OnOk result (Appends (append_known (K.written sink.old) self.old)
            (append_known (K.written sink.new) self.new) bytes.now) }
        ensures err { OnErr result (IsBegun (append_known (K.written sink.old) self.old) bytes.now
            (K.written sink.new)) }
        ensures later { K.faults sink.old ≤ K.faults sink.new }
        ensures spent { result ≡ Err ReportFault.Stopped → self.new ≡ [] }
        ensures waits { result ≡ Err ReportFault.Memory
            → IsBegun (append_known (K.written sink.old) self.old) bytes.now
            (append_known (K.written sink.new) self.new) }
        ensures cause { result ≡ Err ReportFault.Stopped
            → Rose (K.faults sink.old) (K.faults sink.new) }
        ensures stays { result ≢ Err ReportFault.Stopped → K.faults sink.new ≡ K.faults sink.old }
    {
        put_into(&mut self.buffer, sink, bytes)
    }

    /// Hands the bytes that wait to the sink. None waits then, also where it stopped.
    pub fn finish<K: Sink>(&mut self, sink: &mut K) -> Result<(), ReportFault>
        ensures cleared { self.new ≡ [] }
        ensures ok { OnOk result (Appends (K.written sink.old) (K.written sink.new) self.old) }
        ensures err { OnErr result ((done : ℕ)
            × Appends (K.written sink.old) (K.written sink.new) (take done self.old)) }
        ensures later { K.faults sink.old ≤ K.faults sink.new }
        ensures cause { OnErr result (Rose (K.faults sink.old) (K.faults sink.new)) }
        ensures stays { result ≢ Err ReportFault.Stopped → K.faults sink.new ≡ K.faults sink.old }
    {
        hand_over(&mut self.buffer, sink)
    }
}

/// Hands texts to the sink, behind the bytes that wait.
pub(crate) fn put_texts<K: Sink>(
    pieces: &mut Pieces,
    sink: &mut K,
    texts: &[Text],
) -> Result<(), ReportFault>
    ensures ok { OnOk result (Appends (append_known (K.written sink.old) pieces.old)
        (append_known (K.written sink.new) pieces.new) (flat_map (λ t. t) texts.now)) }
    ensures err { OnErr result (IsBegun (append_known (K.written sink.old) pieces.old)
        (flat_map (λ t. t) texts.now) (K.written sink.new)) }
    ensures later { K.faults sink.old ≤ K.faults sink.new }
    ensures cause { result ≡ Err ReportFault.Stopped
        → Rose (K.faults sink.old) (K.faults sink.new) }
    ensures stays { result ≢ Err ReportFault.Stopped → K.faults sink.new ≡ K.faults sink.old }
{
    for text in texts {
        pieces.put(sink, text.as_bytes())?;
    }
    Ok(())
}

/// The same over the bytes that wait.
fn put_into<K: Sink>(buffer: &mut Vec<u8>, sink: &mut K, bytes: &[u8]) -> Result<(), ReportFault>
    requires { length buffer.old.items < 4096 }
    ensures below { length buffer.new.items < 4096 }
    ensures ok { OnOk result (Appends (append_known (K.written sink.old) buffer.old.items)
        (append_known (K.written sink.new) buffer.new.items) bytes.now) }
    ensures err { OnErr result (IsBegun (append_known (K.written sink.old) buffer.old.items)
        bytes.now (K.written sink.new)) }
    ensures later { K.faults sink.old ≤ K.faults sink.new }
    ensures spent { result ≡ Err ReportFault.Stopped → buffer.new.items ≡ [] }
    ensures waits { result ≡ Err ReportFault.Memory
        → IsBegun (append_known (K.written sink.old) buffer.old.items) bytes.now
        (append_known (K.written sink.new) buffer.new.items) }
    ensures cause { result ≡ Err ReportFault.Stopped
        → Rose (K.faults sink.old) (K.faults sink.new) }
    ensures stays { result ≢ Err ReportFault.Stopped → K.faults sink.new ≡ K.faults sink.old }
{
    let mut rest = bytes;
    while !rest.is_empty() {
        let room = PIECE - buffer.len();
        let (front, after) = rest.split_at(room.min(rest.len()));
        match buffer.extend_from_slice(front) {
            Ok(()) => {}
            Err(_) => return Err(ReportFault::Memory),
        }
        if buffer.len() == PIECE {
            hand_over(buffer, sink)?;
        }
        rest = after;
    }
    Ok(())
}

/// Hands all bytes that wait to the sink. None waits then, also where it stopped.
fn hand_over<K: Sink>(buffer: &mut Vec<u8>, sink: &mut K) -> Result<(), ReportFault>
    ensures cleared { buffer.new.items ≡ [] }
    ensures ok { OnOk result (Appends (K.written sink.old) (K.written sink.new) buffer.old.items) }
    ensures err { OnErr result ((done : ℕ)
        × Appends (K.written sink.old) (K.written sink.new) (take done buffer.old.items)) }
    ensures later { K.faults sink.old ≤ K.faults sink.new }
    ensures cause { OnErr result (Rose (K.faults sink.old) (K.faults sink.new)) }
    ensures stays { result ≢ Err ReportFault.Stopped → K.faults sink.new ≡ K.faults sink.old }
{
    let handed = write_all(sink, buffer.as_slice());
    buffer.clear();
    match handed {
        Ok(()) => Ok(()),
        Err(_) => Err(ReportFault::Stopped),
    }
}
