// What came of a job with configured buses.

use crate::{ConfiguredReply, ConfiguredView};
use grid_core::Journal;
use grid_ids::{Id, Seq};
use std::marker::Model;

/// The views of the levels of a network, by place.
pub type ConfiguredViews = Seq<ConfiguredView>;

/// A variant's name, and the view of each level in it.
#[derive(Debug, Drop)]
pub struct ConfiguredVariant {
    pub name: Id,
    pub views: ConfiguredViews,
}

/// The live variants, by byte order of their names.
pub type ConfiguredVariants = Seq<ConfiguredVariant>;

/// What requests were answered, in the order of their steps.
pub type ConfiguredReplies = Seq<ConfiguredReply>;

/// What came of a job with configured buses, seen as what a report tells of it: each step with its reply, the count of
/// workers, and the live variants with the views of their levels.
#[derive(Debug, Drop)]
pub struct ConfiguredOutcome {
    // The steps of the node/breaker form, in the order in which they were made.
    pub(crate) journal: Journal,
    // The replies of the same steps.
    pub(crate) replies: ConfiguredReplies,
    // How many workers there are. The report has the steps of those below this number.
    pub(crate) workers: u32,
    // The views that the steps leave.
    pub(crate) views: ConfiguredVariants,
}

impl Model for ConfiguredOutcome {
    ghost use Rattle.std.specs.Prelude.{◌≡◌, length};
    ghost use Rattle.grid_configured.specs.Texts.{Report};

    ghost Value = { Report };

    ghost use Rattle.grid_configured.specs.Outcomes.{reported};

    ghost view = { λ o. reported o.journal o.replies o.workers o.views };

    ghost invariant = { λ o. length o.replies ≡ length o.journal };
}
