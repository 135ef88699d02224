// What listeners are told.
ghost use Rattle.std.proofs.Common.{rules};

use grid_ids::{Duplicate, Id, Same, Seq};

/// Something that happened, as the IIDM documentation's listeners are told it; the fields are this project's own.
#[derive(Clone, Debug, Drop)]
pub enum Event {
    /// A substation, a level, a switch or equipment was added.
    Created {
        id: Id,
    },
    /// A switch or equipment was removed.
    Removed {
        id: Id,
    },
    /// A switch was opened or closed in a variant.
    Updated {
        variant: Id,
        switch: Id,
        opened: bool,
    },
    /// A variant was made.
    VariantCreated {
        from: Id,
        to: Id,
    },
    /// A variant was overwritten.
    VariantOverwritten {
        from: Id,
        to: Id,
    },
    /// A variant was removed.
    VariantRemoved {
        name: Id,
    },
}

/// A list of events.
pub type Events = Seq<Event>;

impl Duplicate for Event {
    ghost clone_equals = { Prim.search rules };
}

impl Same for Event {
    fn same(&self, other: &Event) -> bool {
        match (self, other) {
            (Event::Created { id: a }, Event::Created { id }) => a.same(id),
            (Event::Removed { id: a }, Event::Removed { id }) => a.same(id),
            (
                Event::Updated {
                    variant: a,
                    switch: b,
                    opened: c,
                },
                Event::Updated {
                    variant,
                    switch,
                    opened,
                },
            ) => a.same(variant) && b.same(switch) && c == opened,
            (Event::VariantCreated { from: a, to: b }, Event::VariantCreated { from, to }) => {
                a.same(from) && b.same(to)
            }
            (
                Event::VariantOverwritten { from: a, to: b },
                Event::VariantOverwritten { from, to },
            ) => a.same(from) && b.same(to),
            (Event::VariantRemoved { name: a }, Event::VariantRemoved { name }) => a.same(name),
            _ => false,
        }
    }
}
