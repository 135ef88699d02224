// The text of variants. The text of a level is made once for all variants in a row that show it alike.
ghost use Rattle.std.specs.Prelude.{◌≡◌, ◌≢◌, ◌≤◌, ◌++◌, length, map, IfOk, OnOk, OnErr, Err};
ghost use Rattle.std.specs.List.{flat_map};
ghost use Rattle.std.specs.Io.KnownBytes.{Appends, append_known};
ghost use Rattle.grid_source.specs.Causes.{Rose};
ghost use Rattle.grid_source.specs.Whole.{IsBegun};
ghost use Rattle.grid_report.specs.Lines.{level_text};
ghost use Rattle.grid_report.specs.Outcomes.{variant_line, variant_text};

use crate::bus::put_level;
use crate::outcome::VariantView;
use crate::pieces::{Pieces, ReportFault, put_texts};
use crate::plan::put_variant;
use crate::text::Text;
use grid_busview::BusView;
use grid_ids::{Memory, Same};
use grid_shared::Shared;
use grid_source::Sink;
use std::alloc::Global;

// The text of each level.
fn level_texts(alloc: Global, views: &[Shared<BusView>]) -> Result<Vec<Text>, Memory>
    ensures { IfOk result (λ texts. texts.items ≡ map level_text views.now) }
{
    let mut texts = Vec::new(alloc);
    for view in views {
        let mut text = Text::empty(alloc);
        put_level(&mut text, view.get())?;
        texts.push(text)?;
    }
    Ok(texts)
}

// Makes the text of a view from that of another: it stays where they are alike.
fn renew_text(text: &mut Text, earlier: &BusView, view: &BusView) -> Result<(), Memory>
    requires { text.old ≡ level_text earlier.now }
    ensures { OnOk result (text.new ≡ level_text view.now) }
{
    if view.same(earlier) {
        return Ok(());
    }
    text.clear();
    put_level(text, view)
}

// Makes the text of each level from that in the variant before.
fn renew_texts(
    texts: &mut [Text],
    earlier: &[Shared<BusView>],
    views: &[Shared<BusView>],
) -> Result<(), Memory>
    requires texts { texts.old ≡ map level_text earlier.now }
    requires long { length views.now ≡ length earlier.now }
    ensures { OnOk result (texts.new ≡ map level_text views.now) }
{
    for place in 0..views.len() {
        renew_text(&mut texts[place], earlier[place].get(), views[place].get())?;
    }
    Ok(())
}

// The text of each level of a variant, from those of the one before it.
fn next_texts(
    alloc: Global,
    earlier: &[Shared<BusView>],
    mut texts: Vec<Text>,
    views: &[Shared<BusView>],
) -> Result<Vec<Text>, Memory>
    requires { texts.items ≡ map level_text earlier.now }
    ensures { IfOk result (λ next. next.items ≡ map level_text views.now) }
{
    if views.len() != earlier.len() {
        return level_texts(alloc, views);
    }
    renew_texts(texts.as_mut_slice(), earlier, views)?;
    Ok(texts)
}

// Hands a variant's line and the texts of its levels to the sink, behind the bytes that wait.
fn put_with_levels<K: Sink>(
    pieces: &mut Pieces,
    sink: &mut K,
    line: &Text,
    levels: &[Text],
) -> Result<(), ReportFault>
    ensures ok { OnOk result (Appends (append_known (K.written sink.old) pieces.old)
        (append_known (K.written sink.new) pieces.new) (line.now ++ flat_map (λ t. t) levels.now)) }
    ensures err { OnErr result (IsBegun (append_known (K.written sink.old) pieces.old)
        (line.now ++ flat_map (λ t. t) levels.now) (K.written sink.new)) }
    ensures later { K.faults sink.old ≤ K.faults sink.new }
    ensures cause { result ≡ Err ReportFault.Stopped
        → Rose (K.faults sink.old) (K.faults sink.new) }
    ensures stays { result ≢ Err ReportFault.Stopped → K.faults sink.new ≡ K.faults sink.old }
{
    pieces.put(sink, line.as_bytes())?;
    put_texts(pieces, sink, levels)
}

/// Hands the text of each variant to the sink, behind the bytes that wait. The texts of one variant's levels are held.
pub(crate) fn put_variants<K: Sink>(
    alloc: Global,
    pieces: &mut Pieces,
    sink: &mut K,
    variants: &[VariantView],
) -> Result<(), ReportFault>
    ensures ok { OnOk result (Appends (append_known (K.written sink.old) pieces.old)
        (append_known (K.written sink.new) pieces.new) (flat_map variant_text variants.now)) }
    ensures err { OnErr result (IsBegun (append_known (K.written sink.old) pieces.old)
        (flat_map variant_text variants.now) (K.written sink.new)) }
    ensures later { K.faults sink.old ≤ K.faults sink.new }
    ensures cause { result ≡ Err ReportFault.Stopped
        → Rose (K.faults sink.old) (K.faults sink.new) }
    ensures stays { result ≢ Err ReportFault.Stopped → K.faults sink.new ≡ K.faults sink.old }
{
    let mut line = Text::empty(alloc);
    let mut texts = Vec::new(alloc);
    let mut earlier: &[Shared<BusView>] = &[];
    for variant in variants {
        let views = variant.views.slice();
        texts = next_texts(alloc, earlier, texts, views)?;
        earlier = views;
        line.clear();
        put_variant(&mut line, &variant.name)?;
        put_with_levels(pieces, sink, &line, texts.as_slice())?;
    }
    Ok(())
}
