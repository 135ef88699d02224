// What a listener wants to hear.
ghost use Rattle.std.specs.Prelude.{◌≡◌};
ghost use Rattle.std.specs.Option.{option_copied};
ghost use Rattle.std.proofs.Common.{rules};
ghost use Rattle.grid_events.specs.Filters as filters;

use crate::Event;
use grid_ids::{Duplicate, Id, Seq};

/// The kinds of events that a listener wants, and the one variant that it wants them of, where one is given.
#[derive(Clone, Debug, Drop)]
pub struct Filter {
    pub created: bool,
    pub removed: bool,
    pub updated: bool,
    pub variant_created: bool,
    pub variant_overwritten: bool,
    pub variant_removed: bool,
    pub variant: Option<Id>,
}

/// A list of filters.
pub type Filters = Seq<Filter>;

impl Duplicate for Filter {
    ghost clone_equals = { Prim.search rules };
}

impl Filter {
    /// Whether the event is of a kind that is wanted and, where a variant is given, names that variant: as `variant` of
    /// an update, as `to` of a variant that was made or overwritten, as `name` of one that was removed. So `Created`
    /// and `Removed` match no filter with a variant. It takes no memory.
    #[tactic(auto, unfolding(crate::specs::Filters::matches))]
    pub fn matches(&self, event: &Event) -> bool
        ensures { result ≡ filters.matches self.now event.now }
    {
        self.wants(event) && self.is_of(event)
    }

    // Whether the kind of the event is wanted.
    #[tactic(auto, unfolding(crate::specs::Filters::wants))]
    fn wants(&self, event: &Event) -> bool
        ensures { result ≡ filters.wants self.now event.now }
    {
        match event {
            Event::Created { .. } => self.created,
            Event::Removed { .. } => self.removed,
            Event::Updated { .. } => self.updated,
            Event::VariantCreated { .. } => self.variant_created,
            Event::VariantOverwritten { .. } => self.variant_overwritten,
            Event::VariantRemoved { .. } => self.variant_removed,
        }
    }

    // Whether the event names the variant that is given.
    #[tactic(auto, unfolding(crate::specs::Filters::is_of, crate::specs::Filters::named_by))]
    fn is_of(&self, event: &Event) -> bool
        ensures { result ≡ filters.is_of self.now.variant (filters.named_by event.now) }
    {
        match (&self.variant, named_by(event)) {
            (None, _) => true,
            (Some(variant), Some(name)) => variant == name,
            (Some(_), None) => false,
        }
    }
}

// The variant that an event names.
#[tactic(auto, unfolding(crate::specs::Filters::named_by))]
fn named_by(event: &Event) -> Option<&Id>
    ensures { option_copied result ≡ filters.named_by event.now }
{
    match event {
        Event::Created { .. } | Event::Removed { .. } => None,
        Event::Updated { variant, .. } => Some(variant),
        Event::VariantCreated { to, .. } | Event::VariantOverwritten { to, .. } => Some(to),
        Event::VariantRemoved { name } => Some(name),
    }
}
