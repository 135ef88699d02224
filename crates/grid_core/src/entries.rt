// Entries of the journal.
ghost use Rattle.std.specs.Prelude.{◌≡◌, ◌<◌, [], ◌∷◌, ◌++◌, length, OnOk, IfOk, IfSome, IsTrue};
ghost use Rattle.std.specs.Vec.{vec_len, vec_capacity};
ghost use Rattle.grid_core.specs.Journals.{entry_made};
ghost use Rattle.grid_core.specs.Machines.{WorksOn};

use crate::machine::{Machine, Made};
use crate::{Entry, Reply, Request};
use grid_ids::{Duplicate, Id, Memory};

/// What an entry of the journal has before its step.
#[derive(Drop)]
pub(crate) struct Begun {
    pub(crate) variant: Id,
    pub(crate) asked: Request,
}

/// The worker's working variant and its request, and room in the journal for an entry.
pub(crate) fn begin(
    machine: &Machine,
    journal: &mut Vec<Entry>,
    worker: u32,
    request: &Request,
) -> Result<Begun, Memory>
    requires { worker < length machine.now.working.items }
    ensures works { IfOk result (λ begun. WorksOn machine.now worker begun.variant) }
    ensures asked { IfOk result (λ begun. begun.asked ≡ request.now) }
    ensures same { journal.new.items ≡ journal.old.items }
    ensures room { OnOk result (vec_len journal.new < vec_capacity journal.new) }
{
    let variant = machine.working[worker as usize].copy()?;
    let asked = request.copy()?;
    journal.reserve(1)?;
    Ok(Begun { variant, asked })
}

/// How many of the last entries are looked at for what a new one could share with them. Plans and views that are asked
/// for again and again lie in memory once, and a step compares no more than these.
const NEAR: usize = 8;

// The last entries.
fn near(journal: &[Entry]) -> &[Entry] {
    &journal[journal.len().saturating_sub(NEAR)..]
}

/// A part of an entry whose copies share what is long in it.
pub(crate) trait Part: Duplicate + Drop {
    /// The part of an entry.
    fn of(entry: &Entry) -> &Self;

    /// Whether its copies share anything.
    fn is_shared(&self) -> bool;

    /// Whether it is known to be equal to another part. Of parts whose copies share nothing this is not asked.
    fn is_like(&self, other: &Self) -> bool
        ensures { IsTrue result → self.now ≡ other.now };
}

// The part, shared with one of the last entries where that has an equal one.
fn share<P: Part>(journal: &[Entry], part: P) -> P
    ensures { result ≡ part }
{
    if !part.is_shared() {
        return part;
    }
    match near_equal(journal, &part) {
        Some(equal) => equal,
        None => part,
    }
}

// The equal part of one of the last entries.
fn near_equal<P: Part>(journal: &[Entry], part: &P) -> Option<P>
    ensures { IfSome result (λ equal. equal ≡ part.now) }
{
    for entry in near(journal).iter().rev() {
        let near = P::of(entry);
        if near.is_like(part) {
            return near.copy().ok();
        }
    }
    None
}

/// Puts the entry of a step that was made last, without memory, and hands its reply out. What is long in the entry is
/// shared with one of the last entries where that has the same.
pub(crate) fn enter(journal: &mut Vec<Entry>, worker: u32, begun: Begun, made: Made) -> Reply
    requires { vec_len journal.old < vec_capacity journal.old }
    ensures reply { result ≡ made.reply }
    ensures entered { journal.new.items
        ≡ journal.old.items ++ entry_made worker begun.variant begun.asked made ∷ [] }
{
    let Begun { variant, asked } = begun;
    let (reply, kept, events) = made.into_parts();
    let kept = share(journal.as_slice(), kept);
    let events = share(journal.as_slice(), events);
    journal.push_reserved(Entry {
        worker,
        variant,
        request: asked,
        reply: kept,
        events,
    });
    reply
}
