// What is found of a list of contingencies, written piece by piece: a piece is screened, and its lines are written
// before the next one is looked at. So the memory is that of a piece, and of one line.
ghost use Rattle.std.specs.Prelude.{◌≡◌, ◌≢◌, ◌+◌, ◌<◌, ◌^◌, ◌++◌, [], ◌∷◌, Err, IfOk, OnOk, OnErr, length};
ghost use Rattle.std.specs.List.{flat_map};
ghost use Rattle.std.specs.Io.KnownBytes.{Appends};
ghost use Rattle.grid_source.specs.Causes.{Rose};
ghost use Rattle.grid_source.specs.Whole.{IsBegun};
ghost use Rattle.grid_print.specs.Job.{line_of};
ghost use Rattle.grid_report.specs.Puts.{Puts};
ghost use Rattle.grid_jsonl.specs.Trees.{more_text};
ghost use Rattle.grid_jsonl.specs.Outcomes.{lines};
ghost use Rattle.grid_screen.specs.Found.{AreFindings, finding_of};
ghost use Rattle.grid_cli.specs.Layouts.{in_layout};
ghost use Rattle.grid_cli.specs.Findings.{IsLook, absent_object, absent_text, case_state, end_object, end_text};
ghost use Rattle.grid_cli.specs.Findings.{list_objects, list_text, part_lines, part_text, tells, told_count, told_of};
ghost use Rattle.grid_cli.specs.Findings.{left_fields, listed_in};

use crate::layout::write_parts;
use grid_contingencies::{Contingency, Told};
use grid_core::{Case, Entry, Refusal};
use grid_forms::Layout;
use grid_ids::{Id, Memory};
use grid_json::Format;
use grid_jsonl::{Lined, open_with, put_id, put_number, put_state};
use grid_report::{ReportFault, Shown, Text, put_refusal};
use grid_screen::{
    Figures, Finding, ScreenedCase, Telling, is_loss, put_finding, put_finding_line, screen,
};
use grid_source::Sink;
use std::alloc::Global;
use std::thread::Threads;

/// How many contingencies are screened before their lines are written.
const PIECE: usize = 1_024;

/// The figures of a case, and how what is found on it is told.
#[derive(Clone, Copy)]
pub(crate) struct Look {
    pub(crate) before: Figures,
    pub(crate) layout: Layout,
    pub(crate) format: Format,
    pub(crate) only: Told,
}

/// A case as it is looked at.
#[derive(Clone, Copy)]
struct Sight<'a> {
    case: &'a Case,
    look: Look,
}

/// A case as several threads look at it.
#[derive(Drop)]
pub(crate) struct Screening<'a, R> {
    pub(crate) threads: &'a R,
    pub(crate) alloc: Global,
    pub(crate) case: &'a ScreenedCase<'a>,
    pub(crate) look: Look,
}

/// A part of what is written.
#[derive(Clone, Copy)]
pub(crate) enum Part<'a> {
    /// What is told of the steps, of which the text tells nothing.
    Steps(&'a [Entry]),
    /// That no live variant has the name.
    Absent(&'a Id),
    /// A contingency by its place among all and its name, with what is found of it.
    Found(Telling<'a>, u64, &'a Id, &'a Finding),
    /// The last line: of which findings the lines are told, how many are, and how many are left out.
    End(Told, u64, u64),
}

impl Shown for Part<'_> {
    ghost use Rattle.grid_cli.specs.Findings.{part_text};

    ghost shown = { part_text };

    fn show(&self, out: &mut Text) -> Result<(), Memory> {
        match self {
            Part::Steps(_) => Ok(()),
            Part::Absent(name) => put_absent(out, name),
            Part::Found(telling, _, name, finding) => put_finding(out, telling, name, finding),
            Part::End(only, _, left_out) => put_end(out, *only, *left_out),
        }
    }
}

impl Lined for Part<'_> {
    ghost use Rattle.grid_cli.specs.Findings.{part_lines};

    ghost lined = { part_lines };

    fn put_lines(&self, out: &mut Text) -> Result<(), Memory> {
        match self {
            Part::Steps(journal) => put_state(out, journal),
            Part::Absent(name) => put_absent_line(out, name),
            Part::Found(telling, place, name, finding) => {
                put_finding_line(out, telling, *place, name, finding)
            }
            Part::End(only, told, left_out) => put_end_line(out, *only, *told, *left_out),
        }
    }
}

/// Puts that no live variant has the name.
#[tactic(auto, unfolding(crate::specs::Findings::absent_text))]
fn put_absent(out: &mut Text, name: &Id) -> Result<(), Memory>
    ensures { Puts out.old (absent_text name.now) out.new result }
{
    out.put("variant ")?;
    out.put(name.text())?;
    out.put(": refused ")?;
    put_refusal(out, &Refusal::NoVariant)?;
    out.put("\n")
}

/// Puts the line of it.
fn put_absent_line(out: &mut Text, name: &Id) -> Result<(), Memory>
    ensures { Puts out.old (line_of (absent_object name.now)) out.new result }
{
    open_with(out, "kind", "no_variant")?;
    put_id(out, "variant", name)?;
    out.put("}\n")
}

/// Puts the last line of the text.
fn put_end(out: &mut Text, only: Told, left_out: u64) -> Result<(), Memory>
    ensures { Puts out.old (end_text only left_out) out.new result }
{
    match only {
        Told::All => out.put("end\n"),
        Told::Losses => {
            out.put("end: ")?;
            out.put_unsigned(left_out)?;
            out.put(" left out\n")
        }
    }
}

/// Puts how many are left out, where only losses are told.
fn put_left_out(out: &mut Text, only: Told, left_out: u64) -> Result<(), Memory>
    ensures { Puts out.old (more_text (left_fields only left_out)) out.new result }
{
    match only {
        Told::All => Ok(()),
        Told::Losses => put_number(out, "left_out", left_out),
    }
}

/// Puts the last line.
fn put_end_line(out: &mut Text, only: Told, told: u64, left_out: u64) -> Result<(), Memory>
    ensures { Puts out.old (line_of (end_object only told left_out)) out.new result }
{
    open_with(out, "kind", "end")?;
    put_number(out, "contingencies", told)?;
    put_left_out(out, only, left_out)?;
    out.put("}\n")
}

/// Whether a finding is told, where these were the figures before.
fn is_told(only: Told, before: &Figures, finding: &Finding) -> bool
    ensures { result ≡ tells only before.now finding.now }
{
    match only {
        Told::All => true,
        Told::Losses => is_loss(before, finding),
    }
}

/// Puts what is found of a contingency last, where it is told.
fn push_told<'a>(
    sight: &Sight<'a>,
    parts: &mut Vec<Part<'a>>,
    place: u64,
    contingency: &'a Contingency,
    finding: &'a Finding,
) -> Result<(), Memory>
    requires look { IsLook sight.now.case.now sight.now.look }
    requires found { finding.now ≡ finding_of (case_state sight.now.case.now) contingency.now }
    ensures text { OnOk result (flat_map part_text parts.new.items
        ≡ flat_map part_text parts.old.items ++ list_text sight.now.look.format sight.now.look.only
        (case_state sight.now.case.now) (contingency.now ∷ [])) }
    ensures lines { OnOk result (flat_map part_lines parts.new.items
        ≡ flat_map part_lines parts.old.items ++ lines (list_objects sight.now.look.format
        sight.now.look.only (case_state sight.now.case.now) place (contingency.now ∷ []))) }
    ensures count { OnOk result (length parts.new.items ≡ length parts.old.items
        + told_count sight.now.look.only (case_state sight.now.case.now) (contingency.now ∷ [])) }
{
    if !is_told(sight.look.only, &sight.look.before, finding) {
        return Ok(());
    }
    let telling = Telling {
        format: sight.look.format,
        structure: &sight.case.structure,
    };
    parts.push(Part::Found(telling, place, &contingency.name, finding))?;
    Ok(())
}

/// The contingencies of a piece that are told, with what is found of each. The piece begins at a place among all.
fn parts_of<'a>(
    alloc: Global,
    sight: &Sight<'a>,
    first: u64,
    piece: &'a [Contingency],
    findings: &'a [Finding],
) -> Result<Vec<Part<'a>>, Memory>
    requires look { IsLook sight.now.case.now sight.now.look }
    requires few { first + length piece.now < 2 ^ 64 }
    requires found { AreFindings sight.now.case.now piece.now findings.now }
    ensures text { IfOk result (λ parts. flat_map part_text parts.items
        ≡ list_text sight.now.look.format sight.now.look.only (case_state sight.now.case.now) piece.now) }
    ensures lines { IfOk result (λ parts. flat_map part_lines parts.items
        ≡ lines (list_objects sight.now.look.format sight.now.look.only (case_state sight.now.case.now)
        first piece.now)) }
    ensures count { IfOk result (λ parts. length parts.items
        ≡ told_count sight.now.look.only (case_state sight.now.case.now) piece.now) }
{
    let mut parts = Vec::new(alloc);
    let mut place = first;
    for (contingency, finding) in piece.iter().zip(findings) {
        push_told(sight, &mut parts, place, contingency, finding)?;
        place += 1;
    }
    Ok(parts)
}

/// Writes what is told of a piece, which begins at a place among all, and answers how many lines it has.
#[tactic(auto, using(grid_report::proofs::Begun::at_start))]
fn write_piece<R: Threads + Sync, K: Sink>(
    screening: &Screening<'_, R>,
    first: u64,
    piece: &[Contingency],
    sink: &mut K,
) -> Result<u64, ReportFault>
    requires look { IsLook screening.now.case.now screening.now.look }
    requires few { first + length piece.now < 2 ^ 64 }
    ensures ok { OnOk result (Appends (K.written sink.old) (K.written sink.new)
        (told_of screening.now.case.now screening.now.look first piece.now)) }
    ensures count { IfOk result (λ told. told
        ≡ told_count screening.now.look.only (case_state screening.now.case.now) piece.now) }
    ensures err { OnErr result (IsBegun (K.written sink.old)
        (told_of screening.now.case.now screening.now.look first piece.now) (K.written sink.new)) }
    ensures cause { result ≡ Err ReportFault.Stopped
        → Rose (K.faults sink.old) (K.faults sink.new) }
    ensures stays { result ≢ Err ReportFault.Stopped → K.faults sink.new ≡ K.faults sink.old }
{
    let Screening {
        threads,
        alloc,
        case,
        look,
    } = *screening;
    let findings = screen(threads, alloc, case, piece)?;
    let whole = case.case();
    let sight = Sight { case: whole, look };
    let parts = parts_of(alloc, &sight, first, piece, findings.slice())?;
    write_parts(alloc, look.layout, parts.as_slice(), sink)?;
    Ok(parts.len() as u64)
}

/// Writes what is told of a list of contingencies, and answers how many lines it has.
fn write_list<R: Threads + Sync, K: Sink>(
    screening: &Screening<'_, R>,
    list: &[Contingency],
    sink: &mut K,
) -> Result<u64, ReportFault>
    requires { IsLook screening.now.case.now screening.now.look }
    ensures ok { OnOk result (Appends (K.written sink.old) (K.written sink.new)
        (told_of screening.now.case.now screening.now.look 0 list.now)) }
    ensures count { IfOk result (λ told. told
        ≡ told_count screening.now.look.only (case_state screening.now.case.now) list.now) }
    ensures err { OnErr result (IsBegun (K.written sink.old)
        (told_of screening.now.case.now screening.now.look 0 list.now) (K.written sink.new)) }
    ensures cause { result ≡ Err ReportFault.Stopped
        → Rose (K.faults sink.old) (K.faults sink.new) }
    ensures stays { result ≢ Err ReportFault.Stopped → K.faults sink.new ≡ K.faults sink.old }
{
    let mut first = 0u64;
    let mut told = 0u64;
    for piece in list.chunks(PIECE) {
        told += write_piece(screening, first, piece, sink)?;
        first += piece.len() as u64;
    }
    Ok(told)
}

/// Writes one part.
pub(crate) fn write_part<K: Sink>(
    alloc: Global,
    layout: Layout,
    part: Part<'_>,
    sink: &mut K,
) -> Result<(), ReportFault>
    ensures ok { OnOk result (Appends (K.written sink.old) (K.written sink.new)
        (in_layout layout (part_text part.entry) (part_lines part.entry))) }
    ensures err { OnErr result (IsBegun (K.written sink.old)
        (in_layout layout (part_text part.entry) (part_lines part.entry)) (K.written sink.new)) }
    ensures cause { result ≡ Err ReportFault.Stopped
        → Rose (K.faults sink.old) (K.faults sink.new) }
    ensures stays { result ≢ Err ReportFault.Stopped → K.faults sink.new ≡ K.faults sink.old }
{
    write_parts(alloc, layout, &[part], sink)
}

/// Writes what is told of the steps and of a list of contingencies, and the last line.
pub(crate) fn write_findings<R: Threads + Sync, K: Sink>(
    screening: &Screening<'_, R>,
    journal: &[Entry],
    list: &[Contingency],
    sink: &mut K,
) -> Result<(), ReportFault>
    requires { IsLook screening.now.case.now screening.now.look }
    ensures ok { OnOk result (Appends (K.written sink.old) (K.written sink.new)
        (listed_in screening.now.look.layout screening.now.look.format screening.now.look.only
        (case_state screening.now.case.now) journal.now list.now)) }
    ensures err { OnErr result (IsBegun (K.written sink.old)
        (listed_in screening.now.look.layout screening.now.look.format screening.now.look.only
        (case_state screening.now.case.now) journal.now list.now) (K.written sink.new)) }
    ensures cause { result ≡ Err ReportFault.Stopped
        → Rose (K.faults sink.old) (K.faults sink.new) }
    ensures stays { result ≢ Err ReportFault.Stopped → K.faults sink.new ≡ K.faults sink.old }
{
    let look = screening.look;
    let alloc = screening.alloc;
    write_part(alloc, look.layout, Part::Steps(journal), sink)?;
    let told = write_list(screening, list, sink)?;
    let left_out = list.len() as u64 - told;
    write_part(
        alloc,
        look.layout,
        Part::End(look.only, told, left_out),
        sink,
    )
}
