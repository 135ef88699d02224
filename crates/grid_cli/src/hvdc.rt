// The form `hvdc`: the components of each live variant's buses, over the branches alone and over HVDC lines too. Each
// variant is read where it stands in the world, and no case of it is copied.
ghost use Rattle.std.specs.Prelude.{◌≡◌, ◌≢◌, ◌≤◌, Err, IfOk, OnOk, OnErr, sum_by};
ghost use Rattle.std.specs.List.{flat_map};
ghost use Rattle.std.specs.Io.KnownBytes.{Appends};
ghost use Rattle.grid_source.specs.Causes.{Rose};
ghost use Rattle.grid_source.specs.Whole.{IsBegun};
ghost use Rattle.grid_core.specs.History.{live};
ghost use Rattle.grid_print.specs.Job.{line_of};
ghost use Rattle.grid_report.specs.Puts.{Puts};
ghost use Rattle.grid_jsonl.specs.Outcomes.{lines};
ghost use Rattle.grid_cli.specs.Hvdc.{end_object, named_count, named_objects, named_text, numbers_in, numbers_objects};
ghost use Rattle.grid_cli.specs.Hvdc.{numbers_text, part_lines, part_text};

use crate::layout::write_parts;
use crate::running::run_in_order;
use crate::serving::JobForm;
use grid_core::{Entry, World};
use grid_forms::Layout;
use grid_hvdc::{HvdcJob, HvdcLine, count_buses, put_variant, put_variant_lines};
use grid_ids::{Id, Memory};
use grid_jsonl::{Lined, open_with, put_number, put_state, put_warning};
use grid_report::{ReportFault, Shown, Text};
use grid_source::Sink;
use grid_structure::Seeded;
use std::alloc::Global;

/// A part of what is written.
#[derive(Clone, Copy)]
enum Part<'a> {
    /// What is told of the steps, of which the text tells nothing.
    Steps(&'a [Entry]),
    /// The buses of the variant of a name in a world, with the components that these lines make.
    Variant(&'a World, &'a Id, &'a [HvdcLine]),
    /// The last line, by how many variants and buses there are.
    End(u64, u64),
}

impl Shown for Part<'_> {
    ghost use Rattle.grid_cli.specs.Hvdc.{part_text};

    ghost shown = { part_text };

    fn show(&self, out: &mut Text) -> Result<(), Memory> {
        match self {
            Part::Steps(_) => Ok(()),
            Part::Variant(world, name, lines) => put_named(out, world, name, lines),
            Part::End(_, _) => out.put("end\n"),
        }
    }
}

impl Lined for Part<'_> {
    ghost use Rattle.grid_cli.specs.Hvdc.{part_lines};

    ghost lined = { part_lines };

    fn put_lines(&self, out: &mut Text) -> Result<(), Memory> {
        match self {
            Part::Steps(journal) => put_state(out, journal),
            Part::Variant(world, name, lines) => put_named_lines(out, world, name, lines),
            Part::End(variants, buses) => put_end_line(out, *variants, *buses),
        }
    }
}

/// Puts the buses of the variant of a name last, where it is live.
#[tactic(auto, unfolding(crate::specs::Hvdc::named_text, crate::specs::Hvdc::state_text))]
fn put_named(out: &mut Text, world: &World, name: &Id, lines: &[HvdcLine]) -> Result<(), Memory>
    ensures { Puts out.old (named_text world.now lines.now name.now) out.new result }
{
    if !world.is_live(name) {
        return Ok(());
    }
    put_variant(
        out,
        world.allocator(),
        name,
        world.structure(),
        world.states_in(name),
        lines,
    )
}

/// Puts the lines of the variant of a name last, where it is live.
#[tactic(auto, unfolding(crate::specs::Hvdc::named_objects, crate::specs::Hvdc::state_objects))]
fn put_named_lines(
    out: &mut Text,
    world: &World,
    name: &Id,
    hvdc: &[HvdcLine],
) -> Result<(), Memory>
    ensures { Puts out.old (lines (named_objects world.now hvdc.now name.now)) out.new result }
{
    if !world.is_live(name) {
        return Ok(());
    }
    put_variant_lines(
        out,
        world.allocator(),
        name,
        world.structure(),
        world.states_in(name),
        hvdc,
    )
}

/// Puts the last line.
fn put_end_line(out: &mut Text, variants: u64, buses: u64) -> Result<(), Memory>
    ensures { Puts out.old (line_of (end_object variants buses)) out.new result }
{
    open_with(out, "kind", "end")?;
    put_number(out, "variants", variants)?;
    put_number(out, "buses", buses)?;
    out.put("}\n")
}

/// How many buses the variant of a name has, where it is live.
#[tactic(auto, unfolding(crate::specs::Hvdc::named_count))]
fn count_named(alloc: Global, world: &World, name: &Id) -> Result<u64, Memory>
    ensures { IfOk result (λ count. count ≡ named_count world.now name.now) }
{
    if !world.is_live(name) {
        return Ok(0);
    }
    count_buses(alloc, world.structure(), world.states_in(name))
}

/// How many buses all live variants have. They are counted for lines alone, whose last one tells it.
fn count_all(alloc: Global, layout: Layout, world: &World) -> Result<u64, Memory>
    ensures { IfOk result (λ count. layout ≡ Layout.Lines
        → count ≡ sum_by (named_count world.now) (live world.now.steps)) }
{
    if layout == Layout::Text {
        return Ok(0);
    }
    let mut count = 0u64;
    for place in 0..world.variant_count() {
        let buses = count_named(alloc, world, world.variant_name(place))?;
        let Some(sum) = count.checked_add(buses) else {
            return Err(Memory);
        };
        count = sum;
    }
    Ok(count)
}

/// The live variants by byte order of names, between what is told of the steps and the end.
#[tactic(auto, unfolding(crate::specs::Hvdc::numbers_text, crate::specs::Hvdc::numbers_objects))]
fn parts_of<'a>(
    alloc: Global,
    layout: Layout,
    world: &'a World,
    hvdc: &'a [HvdcLine],
) -> Result<Vec<Part<'a>>, Memory>
    ensures text { IfOk result (λ parts. flat_map part_text parts.items
        ≡ numbers_text world.now hvdc.now) }
    ensures lines { IfOk result (λ parts. layout ≡ Layout.Lines
        → flat_map part_lines parts.items ≡ lines (numbers_objects world.now hvdc.now)) }
{
    let buses = count_all(alloc, layout, world)?;
    let variants = world.variant_count();
    let mut parts = Vec::new(alloc);
    parts.push(Part::Steps(world.entries()))?;
    for place in 0..variants {
        parts.push(Part::Variant(world, world.variant_name(place), hvdc))?;
    }
    parts.push(Part::End(u64::from(variants), buses))?;
    Ok(parts)
}

/// Writes the components of each live variant's buses.
#[tactic(auto, using(grid_report::proofs::Begun::at_start))]
fn write_numbers<K: Sink>(
    alloc: Global,
    layout: Layout,
    world: &World,
    hvdc: &[HvdcLine],
    sink: &mut K,
) -> Result<(), ReportFault>
    ensures ok { OnOk result (Appends (K.written sink.old) (K.written sink.new)
        (numbers_in layout world.now hvdc.now)) }
    ensures err { OnErr result (IsBegun (K.written sink.old)
        (numbers_in layout world.now hvdc.now) (K.written sink.new)) }
    ensures cause { result ≡ Err ReportFault.Stopped
        → Rose (K.faults sink.old) (K.faults sink.new) }
    ensures stays { result ≢ Err ReportFault.Stopped → K.faults sink.new ≡ K.faults sink.old }
{
    let parts = parts_of(alloc, layout, world, hvdc)?;
    write_parts(alloc, layout, parts.as_slice(), sink)
}

/// The form `hvdc`.
#[derive(Clone, Copy)]
pub(crate) struct Hvdc {
    pub(crate) layout: Layout,
}

impl JobForm for Hvdc {
    ghost use Rattle.std.specs.Prelude.{◌≡◌};
    ghost use Rattle.grid_cli.specs.Hvdc.{hvdc_text};
    ghost use Rattle.grid_cli.specs.Orders.{replay_warning};

    type Job = HvdcJob;

    ghost IsText = { λ form hvdc text. text ≡ hvdc_text form.layout hvdc };

    ghost warning_of = { λ form hvdc. replay_warning hvdc.job };

    /// Runs the job in its order, and writes the components of each live variant's buses.
    fn write<K: Sink>(
        &self,
        seeded: Seeded,
        hvdc: HvdcJob,
        sink: &mut K,
        warning: &mut Text,
    ) -> Result<(), ReportFault> {
        let HvdcJob { job, lines } = hvdc;
        let world = run_in_order(seeded.alloc, job)?;
        put_warning(warning, world.entries())?;
        write_numbers(seeded.alloc, self.layout, &world, lines.slice(), sink)
    }
}
