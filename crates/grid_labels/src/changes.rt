// Two classes become one, and one becomes two.
ghost use Rattle.std.specs.Prelude.{◌≡◌, ◌+◌, ◌<◌, ◌≤◌, length, slice_index};
ghost use Rattle.grid_labels.specs.Classes.{AreNexts, AreLeast, AreMerged, AreParted, count_labelled};

use crate::classes::Classes;
use grid_queue::{Steps, WorkQueue};
use std::sync::ledger::Ledger;

/// Gives the nodes of a greater label a lesser one, at a write at most for each node that has one of the two. Both
/// classes are gone through in rising order, up to the last node of the greater label.
pub(crate) fn unite<W: Ledger>(
    classes: &mut Classes,
    lesser: u32,
    greater: u32,
    end: u32,
    writes: &mut Steps<W>,
)
    requires order { lesser < greater }
    requires below { greater < end }
    requires long { length classes.old.labels ≡ end }
    requires lesser { slice_index classes.old.labels lesser ≡ lesser }
    requires greater { slice_index classes.old.labels greater ≡ greater }
    requires least { AreLeast classes.old.labels }
    requires nexts { AreNexts classes.old }
    ensures labels { AreMerged lesser greater classes.old.labels classes.new.labels }
    ensures nexts { AreNexts classes.new }
    ensures cost { writes.new
        ≤ writes.old + count_labelled classes.old.labels lesser greater }
{
    let mut last = lesser;
    let mut one = classes.after(lesser, writes);
    let mut other = greater;
    while other < end {
        if one < other {
            last = one;
            one = classes.after(one, writes);
        } else {
            let next = classes.take_in(last, other, writes);
            last = other;
            other = next;
        }
    }
}

/// Parts the nodes of a label: where the label's own node was put on a walk, those that were not put, and else those
/// that were, have the least of them as label. It goes through the label's nodes in rising order, at a write for each
/// at most.
pub(crate) fn part<W: Ledger>(
    classes: &mut Classes,
    walked: &WorkQueue,
    label: u32,
    end: u32,
    writes: &mut Steps<W>,
)
    requires below { label < end }
    requires long { length classes.old.labels ≡ end }
    requires room { walked.now.room ≡ end }
    requires label { slice_index classes.old.labels label ≡ label }
    requires least { AreLeast classes.old.labels }
    requires nexts { AreNexts classes.old }
    ensures labels { AreParted walked.now label classes.old.labels classes.new.labels }
    ensures nexts { AreNexts classes.new }
    ensures cost { writes.new ≤ writes.old + count_labelled classes.old.labels label label }
{
    let stays = walked.has(label);
    let mut kept = label;
    let mut gone = None;
    let mut at = classes.after(label, writes);
    while at < end {
        if walked.has(at) == stays {
            kept = at;
            at = classes.after(at, writes);
        } else {
            let next = classes.take_out(kept, at, gone, end, writes);
            gone = Some(at);
            at = next;
        }
    }
}
