// Transformers straight from the tokens.
ghost use Rattle.std.specs.Prelude.{IfSome};
ghost use Rattle.grid_json.specs.Slots.{WindingsOf};

use crate::buses::EndDraft;
use crate::format::Format;
use crate::kinds::WindingsKind;
use crate::network::{TransformerDraft, Windings};
use crate::slot::{EndsName, IdName, KindName, RatedName, Slot, three_in, two_in};
use crate::tokens::{Both, FromTokens, leaf, object_of};
use grid_ids::{Id, Seq};
use json::Reader;
use std::alloc::Global;

impl FromTokens for WindingsKind {
    fn from_tokens(
        alloc: Global,
        format: Format,
        reader: &mut Reader<'_>,
        _depth: usize,
    ) -> Option<WindingsKind> {
        leaf(alloc, format, reader)
    }
}

/// The windings of a kind, where these are as many.
fn windings_in(kind: WindingsKind, ends: Seq<EndDraft>, rated_u: Seq<i64>) -> Option<Windings>
    ensures { IfSome result (WindingsOf kind ends rated_u) }
{
    match kind {
        WindingsKind::Two => Some(Windings::Two {
            ends: two_in(ends)?,
            rated_u: two_in(rated_u)?,
        }),
        WindingsKind::Three => Some(Windings::Three {
            ends: three_in(ends)?,
            rated_u: three_in(rated_u)?,
        }),
    }
}

/// The slots of a transformer.
type TransformerSlots = Both<
    Both<Slot<KindName, WindingsKind>, Slot<IdName, Id>>,
    Both<Slot<EndsName, Seq<EndDraft>>, Slot<RatedName, Seq<i64>>>,
>;

impl FromTokens for TransformerDraft {
    #[tactic(auto, unfolding(crate::specs::Network::transformer_at))]
    fn from_tokens(
        alloc: Global,
        format: Format,
        reader: &mut Reader<'_>,
        depth: usize,
    ) -> Option<TransformerDraft> {
        let slots: TransformerSlots = object_of(alloc, format, reader, depth)?;
        let Both {
            first: named,
            second: windings,
        } = slots;
        let Both {
            first: kind,
            second: id,
        } = named;
        let Both {
            first: ends,
            second: rated_u,
        } = windings;
        Some(TransformerDraft {
            id: id.value?,
            windings: windings_in(kind.value?, ends.value?, rated_u.value?)?,
        })
    }
}
