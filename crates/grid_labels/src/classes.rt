// Classes of nodes: those of one label, in rising order. Each node is linked to the next greater one that has its
// label, so that a closing goes through both classes in order and puts each node of the greater label where it belongs,
// and an opening goes through one class once: of those that leave, the first that it meets is the least.
ghost use Rattle.std.specs.Prelude.{◌≡◌, ◌+◌, ◌<◌, ◌≤◌, length, IfOk, slice_index, IfSome};
ghost use Rattle.grid_labels.specs.Classes.{linked, behind, cut, placed, AreNexts, AreLeast};

use grid_ids::Memory;
use grid_queue::Steps;
use std::alloc::Global;
use std::marker::Model;
use std::sync::ledger::Ledger;

/// The label of each node, and the next greater node that has it, or the number of nodes where there is none. To read
/// what follows a node is a write, and so is each move of a node to another class with the reading of what followed it.
#[derive(Drop)]
pub(crate) struct Classes {
    labels: Vec<u32>,
    nexts: Vec<u32>,
}

impl Model for Classes {
    ghost use Rattle.grid_labels.specs.Classes.{Linked, linked};

    ghost Value = { Linked };

    ghost view = { λ classes. linked classes.labels.items classes.nexts.items };
}

/// For each node the next one that has its label, where labels are nodes.
fn nexts_of(alloc: Global, labels: &[u32], nodes: u32) -> Result<Vec<u32>, Memory>
    requires long { length labels.now ≡ nodes }
    requires least { AreLeast labels.now }
    ensures { IfOk result (λ nexts. AreNexts (linked labels.now nexts.items)) }
{
    let mut firsts = vec![in alloc; nodes; nodes as usize]?;
    let mut nexts = vec![in alloc; nodes; nodes as usize]?;
    let mut left = nodes;
    while left > 0 {
        left -= 1;
        let label = labels[left as usize];
        nexts[left as usize] = firsts[label as usize];
        firsts[label as usize] = left;
    }
    Ok(nexts)
}

impl Classes {
    /// The classes of labels.
    pub(crate) fn of(alloc: Global, labels: Vec<u32>, nodes: u32) -> Result<Classes, Memory>
        requires long { length labels.items ≡ nodes }
        requires least { AreLeast labels.items }
        ensures labels { IfOk result (λ classes. classes.labels ≡ labels.items) }
        ensures nexts { IfOk result (λ classes. AreNexts classes) }
    {
        let nexts = nexts_of(alloc, &labels, nodes)?;
        Ok(Classes { labels, nexts })
    }

    /// The same classes again.
    pub(crate) fn copy(&self, alloc: Global) -> Result<Classes, Memory>
        ensures { IfOk result (λ classes. classes ≡ self.now) }
    {
        let labels = Vec::from_slice(alloc, &self.labels)?;
        let nexts = Vec::from_slice(alloc, &self.nexts)?;
        Ok(Classes { labels, nexts })
    }

    /// The label of each node.
    pub(crate) fn labels(&self) -> &[u32]
        ensures { result.now ≡ self.now.labels }
    {
        self.labels.as_slice()
    }

    /// The label of a node.
    pub(crate) fn label(&self, node: u32) -> u32
        requires { node < length self.now.labels }
        ensures { result ≡ slice_index self.now.labels node }
    {
        self.labels[node as usize]
    }

    /// What follows a node, at a write.
    pub(crate) fn after<W: Ledger>(&self, node: u32, writes: &mut Steps<W>) -> u32
        requires { node < length self.now.nexts }
        ensures next { result ≡ slice_index self.now.nexts node }
        ensures cost { writes.new ≡ writes.old + 1 }
    {
        writes.tick();
        self.nexts[node as usize]
    }

    // Gives a node the label of another one, behind which it comes.
    fn put_behind(&mut self, last: u32, node: u32)
        requires long { length self.old.nexts ≡ length self.old.labels }
        requires last { last < length self.old.labels }
        requires node { node < length self.old.labels }
        ensures { self.new ≡ behind self.old last node }
    {
        self.nexts[node as usize] = self.nexts[last as usize];
        self.nexts[last as usize] = node;
        self.labels[node as usize] = self.labels[last as usize];
    }

    /// Moves the first node of a class behind a node of another one, at a write, and tells what followed it.
    pub(crate) fn take_in<W: Ledger>(&mut self, last: u32, node: u32, writes: &mut Steps<W>) -> u32
        requires long { length self.old.nexts ≡ length self.old.labels }
        requires last { last < length self.old.labels }
        requires node { node < length self.old.labels }
        ensures next { result ≡ slice_index self.old.nexts node }
        ensures after { self.new ≡ behind self.old last node }
        ensures cost { writes.new ≡ writes.old + 1 }
    {
        let next = self.after(node, writes);
        self.put_behind(last, node);
        next
    }

    /// Moves a node from behind the one before it to behind a node of another class, or to a class of its own where
    /// there is none, at a write. Tells what followed it.
    pub(crate) fn take_out<W: Ledger>(
        &mut self,
        before: u32,
        node: u32,
        last: Option<u32>,
        end: u32,
        writes: &mut Steps<W>,
    ) -> u32
        requires long { length self.old.nexts ≡ length self.old.labels }
        requires before { before < length self.old.labels }
        requires node { node < length self.old.labels }
        requires last { IfSome last (λ l. l < length self.old.labels) }
        ensures next { result ≡ slice_index self.old.nexts node }
        ensures after { self.new ≡ placed (cut self.old before node) last node end }
        ensures cost { writes.new ≡ writes.old + 1 }
    {
        let next = self.after(node, writes);
        self.nexts[before as usize] = next;
        match last {
            Some(last) => self.put_behind(last, node),
            None => {
                self.labels[node as usize] = node;
                self.nexts[node as usize] = end;
            }
        }
        next
    }
}
