// The members of an injection, found one by one in any order.
ghost use Rattle.std.specs.Prelude.{◌≡◌, ◌∷◌, [], None, IfSome, OnSome, codes, true};
ghost use Rattle.serde_json.specs.Data.{Members};
ghost use Rattle.grid_json.specs.declared.format.Format.{Format as FormatAt};
ghost use Rattle.grid_json.specs.Slots.{FigureSlotsHold, FiguresHold, FiguresOf};

use crate::format::Format;
use crate::kinds::InjectionKind;
use crate::network::InjectionDraft;
use crate::slots::PlaceSlots;
use crate::tokens::{Both, FromTokens, Offer, Slots, fill, is_named, object_of};
use grid_kinds::Injection;
use json::Reader;
use std::alloc::Global;

/// The kind of an injection.
#[derive(Drop)]
pub struct InjectionKindSlot {
    pub kind: Option<InjectionKind>,
}

impl Slots for InjectionKindSlot {
    ghost use Rattle.grid_json.specs.Slots.{InjectionKindHolds, injection_kind_names};
    ghost use Rattle.grid_json.specs.Kept.{injection_kind_kept};

    ghost names = { injection_kind_names };

    ghost apart = { true };

    ghost holds = { InjectionKindHolds };

    ghost kept = { injection_kind_kept };

    fn empty() -> InjectionKindSlot {
        InjectionKindSlot { kind: None }
    }

    fn take(
        &mut self,
        alloc: Global,
        format: Format,
        name: &str,
        reader: &mut Reader<'_>,
        depth: usize,
    ) -> Offer {
        if is_named(name, "kind") {
            fill(alloc, format, &mut self.kind, reader, depth)
        } else {
            Offer::Unknown
        }
    }
}

/// The powers of a load.
#[derive(Drop)]
pub struct PowerSlots {
    pub p0: Option<i64>,
    pub q0: Option<i64>,
}

impl Slots for PowerSlots {
    ghost use Rattle.grid_json.specs.Slots.{PowerHolds, power_names};
    ghost use Rattle.grid_json.specs.Kept.{power_kept};

    ghost names = { power_names };

    ghost apart = { true };

    ghost holds = { PowerHolds };

    ghost kept = { power_kept };

    fn empty() -> PowerSlots {
        PowerSlots { p0: None, q0: None }
    }

    fn take(
        &mut self,
        alloc: Global,
        format: Format,
        name: &str,
        reader: &mut Reader<'_>,
        depth: usize,
    ) -> Offer {
        if is_named(name, "p0") {
            fill(alloc, format, &mut self.p0, reader, depth)
        } else if is_named(name, "q0") {
            fill(alloc, format, &mut self.q0, reader, depth)
        } else {
            Offer::Unknown
        }
    }
}

/// What an injection aims at.
#[derive(Drop)]
pub struct TargetSlots {
    pub target_p: Option<i64>,
    pub target_v: Option<i64>,
    pub target_q: Option<i64>,
}

impl Slots for TargetSlots {
    ghost use Rattle.grid_json.specs.Slots.{TargetHolds, target_names};
    ghost use Rattle.grid_json.specs.Kept.{target_kept};

    ghost names = { target_names };

    ghost apart = { true };

    ghost holds = { TargetHolds };

    ghost kept = { target_kept };

    fn empty() -> TargetSlots {
        TargetSlots {
            target_p: None,
            target_v: None,
            target_q: None,
        }
    }

    fn take(
        &mut self,
        alloc: Global,
        format: Format,
        name: &str,
        reader: &mut Reader<'_>,
        depth: usize,
    ) -> Offer {
        if is_named(name, "target_p") {
            fill(alloc, format, &mut self.target_p, reader, depth)
        } else if is_named(name, "target_v") {
            fill(alloc, format, &mut self.target_v, reader, depth)
        } else if is_named(name, "target_q") {
            fill(alloc, format, &mut self.target_q, reader, depth)
        } else {
            Offer::Unknown
        }
    }
}

/// The least and the greatest power of an injection.
#[derive(Drop)]
pub struct LimitSlots {
    pub min_p: Option<i64>,
    pub max_p: Option<i64>,
}

impl Slots for LimitSlots {
    ghost use Rattle.grid_json.specs.Slots.{LimitHolds, limit_names};
    ghost use Rattle.grid_json.specs.Kept.{limit_kept};

    ghost names = { limit_names };

    ghost apart = { true };

    ghost holds = { LimitHolds };

    ghost kept = { limit_kept };

    fn empty() -> LimitSlots {
        LimitSlots {
            min_p: None,
            max_p: None,
        }
    }

    fn take(
        &mut self,
        alloc: Global,
        format: Format,
        name: &str,
        reader: &mut Reader<'_>,
        depth: usize,
    ) -> Offer {
        if is_named(name, "min_p") {
            fill(alloc, format, &mut self.min_p, reader, depth)
        } else if is_named(name, "max_p") {
            fill(alloc, format, &mut self.max_p, reader, depth)
        } else {
            Offer::Unknown
        }
    }
}

/// The sections of a shunt compensator.
#[derive(Drop)]
pub struct SectionSlots {
    pub section_count: Option<i64>,
    pub max_sections: Option<i64>,
}

impl Slots for SectionSlots {
    ghost use Rattle.grid_json.specs.Slots.{SectionHolds, section_names};
    ghost use Rattle.grid_json.specs.Kept.{section_kept};

    ghost names = { section_names };

    ghost apart = { true };

    ghost holds = { SectionHolds };

    ghost kept = { section_kept };

    fn empty() -> SectionSlots {
        SectionSlots {
            section_count: None,
            max_sections: None,
        }
    }

    fn take(
        &mut self,
        alloc: Global,
        format: Format,
        name: &str,
        reader: &mut Reader<'_>,
        depth: usize,
    ) -> Offer {
        if is_named(name, "section_count") {
            fill(alloc, format, &mut self.section_count, reader, depth)
        } else if is_named(name, "max_sections") {
            fill(alloc, format, &mut self.max_sections, reader, depth)
        } else {
            Offer::Unknown
        }
    }
}

/// The slots of the figures of an injection of any kind.
pub type FigureSlots = Both<PowerSlots, Both<TargetSlots, Both<LimitSlots, SectionSlots>>>;

/// The figures of an injection that were found.
#[derive(Clone, Copy, Drop)]
pub struct Figures {
    pub p0: Option<i64>,
    pub q0: Option<i64>,
    pub target_p: Option<i64>,
    pub target_v: Option<i64>,
    pub target_q: Option<i64>,
    pub min_p: Option<i64>,
    pub max_p: Option<i64>,
    pub section_count: Option<i64>,
    pub max_sections: Option<i64>,
}

/// The figures that the slots have.
pub fn figures_in(slots: FigureSlots) -> Figures
    ensures { (format : FormatAt) → (members : Members) → FigureSlotsHold format slots members
        → FiguresHold format result members }
{
    let Both {
        first: powers,
        second: rest,
    } = slots;
    let Both {
        first: targets,
        second: rest,
    } = rest;
    let Both {
        first: limits,
        second: sections,
    } = rest;
    Figures {
        p0: powers.p0,
        q0: powers.q0,
        target_p: targets.target_p,
        target_v: targets.target_v,
        target_q: targets.target_q,
        min_p: limits.min_p,
        max_p: limits.max_p,
        section_count: sections.section_count,
        max_sections: sections.max_sections,
    }
}

/// Goes on where a figure was not found.
#[inline]
fn absent(figure: Option<i64>) -> Option<()>
    ensures { OnSome result (figure ≡ None) }
{
    match figure {
        None => Some(()),
        Some(_) => None,
    }
}

/// The record of a load, where these are its figures.
fn load_in(found: &Figures) -> Option<Injection>
    ensures { IfSome result (FiguresOf InjectionKind.Load found.now) }
{
    absent(found.target_p)?;
    absent(found.target_v)?;
    absent(found.target_q)?;
    absent(found.min_p)?;
    absent(found.max_p)?;
    absent(found.section_count)?;
    absent(found.max_sections)?;
    Some(Injection::Load {
        p0: found.p0?,
        q0: found.q0?,
    })
}

/// The record of a generator, where these are its figures.
fn generator_in(found: &Figures) -> Option<Injection>
    ensures { IfSome result (FiguresOf InjectionKind.Generator found.now) }
{
    absent(found.p0)?;
    absent(found.q0)?;
    absent(found.target_q)?;
    absent(found.section_count)?;
    absent(found.max_sections)?;
    Some(Injection::Generator {
        target_p: found.target_p?,
        target_v: found.target_v?,
        min_p: found.min_p?,
        max_p: found.max_p?,
    })
}

/// The record of a battery, where these are its figures.
fn battery_in(found: &Figures) -> Option<Injection>
    ensures { IfSome result (FiguresOf InjectionKind.Battery found.now) }
{
    absent(found.p0)?;
    absent(found.q0)?;
    absent(found.target_v)?;
    absent(found.section_count)?;
    absent(found.max_sections)?;
    Some(Injection::Battery {
        target_p: found.target_p?,
        target_q: found.target_q?,
        min_p: found.min_p?,
        max_p: found.max_p?,
    })
}

/// The record of a shunt compensator, where these are its figures.
fn shunt_compensator_in(found: &Figures) -> Option<Injection>
    ensures { IfSome result (FiguresOf InjectionKind.ShuntCompensator found.now) }
{
    absent(found.p0)?;
    absent(found.q0)?;
    absent(found.target_p)?;
    absent(found.target_v)?;
    absent(found.target_q)?;
    absent(found.min_p)?;
    absent(found.max_p)?;
    Some(Injection::ShuntCompensator {
        section_count: found.section_count?,
        max_sections: found.max_sections?,
    })
}

/// The record of a static var compensator, where these are its figures.
fn static_var_compensator_in(found: &Figures) -> Option<Injection>
    ensures { IfSome result (FiguresOf InjectionKind.StaticVarCompensator found.now) }
{
    absent(found.p0)?;
    absent(found.q0)?;
    absent(found.target_p)?;
    absent(found.target_v)?;
    absent(found.min_p)?;
    absent(found.max_p)?;
    absent(found.section_count)?;
    absent(found.max_sections)?;
    Some(Injection::StaticVarCompensator {
        target_q: found.target_q?,
    })
}

/// The record of a converter station, where these are its figures.
fn converter_station_in(found: &Figures) -> Option<Injection>
    ensures { IfSome result (FiguresOf InjectionKind.ConverterStation found.now) }
{
    absent(found.p0)?;
    absent(found.q0)?;
    absent(found.target_p)?;
    absent(found.target_v)?;
    absent(found.min_p)?;
    absent(found.max_p)?;
    absent(found.section_count)?;
    absent(found.max_sections)?;
    Some(Injection::ConverterStation {
        target_q: found.target_q?,
    })
}

/// What is injected, where the figures that were found are those of the kind.
pub fn injection_in(kind: InjectionKind, found: &Figures) -> Option<Injection>
    ensures { IfSome result (FiguresOf kind found.now) }
{
    match kind {
        InjectionKind::Load => load_in(found),
        InjectionKind::Generator => generator_in(found),
        InjectionKind::Battery => battery_in(found),
        InjectionKind::ShuntCompensator => shunt_compensator_in(found),
        InjectionKind::StaticVarCompensator => static_var_compensator_in(found),
        InjectionKind::ConverterStation => converter_station_in(found),
    }
}

impl FromTokens for InjectionDraft {
    #[tactic(auto, unfolding(crate::specs::Network::injection_at))]
    fn from_tokens(
        alloc: Global,
        format: Format,
        reader: &mut Reader<'_>,
        depth: usize,
    ) -> Option<InjectionDraft> {
        let slots: Both<InjectionKindSlot, Both<PlaceSlots, FigureSlots>> = object_of(
            alloc, format, reader, depth,
        )?;
        let Both {
            first: kinds,
            second: rest,
        } = slots;
        let Both {
            first: place,
            second: figures,
        } = rest;
        let item = injection_in(kinds.kind?, &figures_in(figures))?;
        Some(InjectionDraft {
            id: place.id?,
            node: place.node?,
            item,
        })
    }
}
