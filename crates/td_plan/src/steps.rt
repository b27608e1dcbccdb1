//! The affected sources by steps or by levels, each with what it builds on if that is asked for.
ghost use Rattle.std.specs.Prelude.{◌≡◌, ◌<◌, ◌+◌, ◌++◌, ◌∷◌, ℕ, [], IfOk, OnOk, length};
ghost use Rattle.std.specs.Prelude.{string_bytes, if◌then◌else◌};
ghost use Rattle.td_waves.specs.Graph.{bases_of, lists};
ghost use Rattle.td_report.specs.Report.{level_words};
ghost use Rattle.td_plan.specs.inner.Ordering.{ArePartsOf};
ghost use Rattle.td_plan.specs.inner.Stepping.{AreFirsts, is_first_on};

use crate::affected::affected_of;
use crate::asks::{Asks, asks_of, graph_of};
use crate::bases::Bases;
use crate::movers::Mover;
use crate::ordering::{members_of, push_member};
use crate::parts::{Parts, parts_of};
use crate::turning::empty_lists;
use std::alloc::{AllocError, Global};
use std::thread::Threads;
use td_indices::Archive;
use td_query::Marks;
use td_text::put_number;
use td_waves::{Level, Waves};

/// The affected sources of a tracker over an archive, and what each asks the others for.
#[derive(Drop)]
pub struct Steps<'x, 't, 'a> {
    archive: &'x Archive<'t, 'a>,
    /// The affected sources, in the byte order of their names.
    movers: Vec<Mover<'a>>,
    /// What each of them asks for, by its number.
    asks: Vec<Asks>,
    parts: Parts,
}

/// Sources by their levels, by numbers.
#[derive(Drop)]
struct Grouped {
    /// Level 1 has number 0.
    levels: Vec<Vec<usize>>,
    cyclic: Vec<usize>,
}

// Adds the source with a number to the list of its step, if it is the first of its part.
fn push_first(firsts: &mut Vec<Vec<usize>>, parts: &Parts, number: usize) -> Result<(), AllocError>
    ensures lists { OnOk result (ArePartsOf (length parts.now.firsts.items) parts.now
        → number < length parts.now.firsts.items → (k : ℕ) → k < length firsts.old.items
        → bases_of (lists firsts.new.items) k ≡ (if is_first_on parts.now k number
        then bases_of (lists firsts.old.items) k ++ number ∷ []
        else bases_of (lists firsts.old.items) k)) }
    ensures len { length firsts.new.items ≡ length firsts.old.items }
{
    let Some(first) = parts.firsts.get(number) else {
        return Ok(());
    };
    if *first != number {
        return Ok(());
    }
    match parts.steps.get(number) {
        Some(step) => push_member(firsts, *step, number),
        None => Ok(()),
    }
}

// For each step the numbers of the first sources of its parts. (No step has number 0.)
fn firsts_by_step(alloc: Global, parts: &Parts) -> Result<Vec<Vec<usize>>, AllocError>
    ensures len { IfOk result
        (λ firsts. length firsts.items ≡ length parts.now.firsts.items + 1) }
    ensures firsts { IfOk result (λ firsts. ArePartsOf (length parts.now.firsts.items) parts.now
        → AreFirsts parts.now (lists firsts.items)) }
{
    let count = parts.firsts.len();
    let mut firsts = empty_lists(alloc, count + 1)?;
    for number in 0..count {
        push_first(&mut firsts, parts, number)?;
    }
    Ok(firsts)
}

// Appends the name of a level.
fn put_level_words(out: &mut String, level: Level) -> Result<(), AllocError>
    ensures { OnOk result (string_bytes out.new ≡ string_bytes out.old ++ level_words level) }
{
    match level {
        Level::At(number) => {
            out.push_str("level ")?;
            put_number(out, number as u64)
        }
        Level::Cyclic => out.push_str("cyclic"),
    }
}

impl Grouped {
    ghost use Rattle.std.specs.Prelude.{◌≡◌, ◌++◌, ◌∷◌, ◌+◌, ◌<◌, ℕ, [], OnOk, length};
    ghost use Rattle.std.specs.Prelude.{if◌then◌else◌};
    ghost use Rattle.td_waves.specs.Graph.{bases_of, lists};
    ghost use Rattle.td_waves.specs.declared.level.Level.TheVariants.{At, Cyclic};
    ghost use Rattle.td_report.specs.Report.{is_level};

    // Adds a source after the others of its level.
    fn push(&mut self, level: Option<Level>, number: usize) -> Result<(), AllocError>
        ensures levels { OnOk result ((n : ℕ) → n < length self.old.levels.items
            → bases_of (lists self.new.levels.items) n
            ≡ bases_of (lists self.old.levels.items) n
            ++ (if is_level (At (n + 1)) level then number ∷ [] else [])) }
        ensures cyclic { OnOk result (self.new.cyclic.items ≡ self.old.cyclic.items
            ++ (if is_level Cyclic level then number ∷ [] else [])) }
        ensures len { length self.new.levels.items ≡ length self.old.levels.items }
    {
        match level {
            None => Ok(()),
            Some(Level::At(level)) => match level.checked_sub(1) {
                Some(place) => push_member(&mut self.levels, place, number),
                None => Ok(()),
            },
            Some(Level::Cyclic) => {
                self.cyclic.push(number)?;
                Ok(())
            }
        }
    }
}

impl<'x, 't, 'a> Steps<'x, 't, 'a> {
    ghost use Rattle.std.specs.Prelude.{◌≡◌, ◌++◌, ◌∷◌, ◌<◌, ℕ, [], true, false, IfOk, OnOk};
    ghost use Rattle.std.specs.Prelude.{length, map, string_bytes};
    ghost use Rattle.std.specs.List.{All, flat_map, range_with_len};
    ghost use Rattle.td_text.specs.Lines.{text_of};
    ghost use Rattle.td_query.specs.Marks.{AreMarks};
    ghost use Rattle.td_query.specs.Tracking.{Tracking};
    ghost use Rattle.td_waves.specs.Graph.{lists};
    ghost use Rattle.td_waves.specs.WavesView.{depth_of, level_of};
    ghost use Rattle.td_report.specs.Report.{level_words};
    ghost use Rattle.td_plan.specs.Premises.{SourcesAreApart};
    ghost use Rattle.td_plan.specs.Steps.{IsSteps, IsStepsWhy, IsWavesWhy, part_in_line};
    ghost use Rattle.td_plan.specs.Steps.{part_with_reasons};
    ghost use Rattle.td_plan.specs.inner.Movers.{mover_name};
    ghost use Rattle.td_plan.specs.inner.Planned.{sources_at};
    ghost use Rattle.td_plan.specs.inner.Stepping.{AreGrouped, AreMembersOf, AreSources, IsStepsOf};
    ghost use Rattle.td_plan.specs.inner.Stepping.{kept_in, lines_of_step, lines_of_steps};
    ghost use Rattle.td_plan.specs.inner.Stepping.{lines_under, part_lines, parts_lines};

    /// The affected sources of a tracker, whose marks these are.
    pub fn of(
        rt: &(impl Threads + Sync),
        alloc: Global,
        archive: &'x Archive<'t, 'a>,
        marks: &Marks,
    ) -> Result<Steps<'x, 't, 'a>, AllocError>
        ensures of { IfOk result (λ steps. (t : Tracking) → AreMarks archive.now t marks.now
            → SourcesAreApart archive.now → IsStepsOf t steps) }
        ensures archive { IfOk result (λ steps. steps.archive.now ≡ archive.now) }
    {
        let movers = affected_of(rt, alloc, archive, marks)?;
        let asks = asks_of(rt, alloc, archive, &movers)?;
        let graph = graph_of(alloc, &asks)?;
        let parts = parts_of(alloc, &graph)?;
        Ok(Steps {
            archive,
            movers,
            asks,
            parts,
        })
    }

    // Who asks whom, without what was asked.
    fn bases(&self) -> Bases<'_, 't, 'a>
        ensures archive { result.archive.now ≡ self.now.archive.now }
        ensures movers { result.movers.now ≡ self.now.movers.items }
    {
        Bases {
            archive: self.archive,
            movers: &self.movers,
        }
    }

    // Appends a part on one line: its sources with a space between two.
    fn put_part(&self, out: &mut String, members: &[usize]) -> Result<(), AllocError>
        ensures { OnOk result (AreSources self.now members.now
            → string_bytes out.new ≡ string_bytes out.old
            ++ text_of (part_in_line (sources_at self.now.movers.items members.now))) }
    {
        let bases = self.bases();
        for number in 0..members.len() {
            if number > 0 {
                out.push_str(" ")?;
            }
            bases.put_name(out, members[number])?;
        }
        out.push_str("\n")?;
        Ok(())
    }

    // Appends the line of the source with a number, with what it builds on.
    fn put_why(&self, alloc: Global, out: &mut String, number: usize) -> Result<(), AllocError>
        ensures { OnOk result ((t : Tracking) → IsStepsOf t self.now
            → number < length self.now.movers.items → string_bytes out.new ≡ string_bytes out.old
            ++ text_of (part_with_reasons self.now.archive.now (kept_in self.now)
            (sources_at self.now.movers.items (number ∷ [])))) }
    {
        let Some(asks) = self.asks.get(number) else {
            return Ok(());
        };
        let bases = self.bases();
        bases.put_line(alloc, out, number, asks)
    }

    // Appends a line for each of some sources, with what it builds on.
    fn put_whys(&self, alloc: Global, out: &mut String, numbers: &[usize]) -> Result<(), AllocError>
        ensures { OnOk result ((t : Tracking) → IsStepsOf t self.now
            → AreSources self.now numbers.now → string_bytes out.new ≡ string_bytes out.old
            ++ text_of (part_with_reasons self.now.archive.now (kept_in self.now)
            (sources_at self.now.movers.items numbers.now))) }
    {
        for number in numbers {
            self.put_why(alloc, out, *number)?;
        }
        Ok(())
    }

    // Appends the lines of a part.
    fn put_lines(
        &self,
        alloc: Global,
        out: &mut String,
        members: &[usize],
        why: bool,
    ) -> Result<(), AllocError>
        ensures { OnOk result ((t : Tracking) → IsStepsOf t self.now
            → AreSources self.now members.now → string_bytes out.new ≡ string_bytes out.old
            ++ text_of (part_lines why self.now
            (sources_at self.now.movers.items members.now))) }
    {
        if why {
            self.put_whys(alloc, out, members)
        } else {
            self.put_part(out, members)
        }
    }

    // Appends the lines of the parts with these first sources.
    fn put_parts(
        &self,
        alloc: Global,
        out: &mut String,
        members: &[Vec<usize>],
        firsts: &[usize],
        why: bool,
    ) -> Result<(), AllocError>
        ensures { OnOk result ((t : Tracking) → IsStepsOf t self.now
            → AreMembersOf self.now (lists members.now)
            → All (λ n. n < length members.now) firsts.now
            → string_bytes out.new ≡ string_bytes out.old
            ++ text_of (parts_lines why self.now (lists members.now) firsts.now)) }
    {
        for first in firsts {
            if let Some(members) = members.get(*first) {
                self.put_lines(alloc, out, members, why)?;
            }
        }
        Ok(())
    }

    // Appends the lines of a step, if it has parts.
    fn put_step(
        &self,
        alloc: Global,
        out: &mut String,
        members: &[Vec<usize>],
        step: usize,
        firsts: &[usize],
        why: bool,
    ) -> Result<(), AllocError>
        ensures { OnOk result ((t : Tracking) → IsStepsOf t self.now
            → AreMembersOf self.now (lists members.now)
            → All (λ n. n < length members.now) firsts.now
            → string_bytes out.new ≡ string_bytes out.old
            ++ text_of (lines_of_step why self.now (lists members.now) step firsts.now)) }
    {
        if firsts.is_empty() {
            return Ok(());
        }
        out.push_str("step ")?;
        put_number(out, step as u64)?;
        out.push_str("\n")?;
        self.put_parts(alloc, out, members, firsts, why)?;
        Ok(())
    }

    // Appends the lines of all steps.
    fn put_steps(&self, alloc: Global, out: &mut String, why: bool) -> Result<(), AllocError>
        ensures { OnOk result ((t : Tracking) → IsStepsOf t self.now
            → string_bytes out.new ≡ string_bytes out.old
            ++ text_of (flat_map (lines_of_steps why self.now)
            (range_with_len 1 (length self.now.movers.items)))) }
    {
        let members = members_of(alloc, &self.parts)?;
        let firsts = firsts_by_step(alloc, &self.parts)?;
        for step in 1..firsts.len() {
            self.put_step(alloc, out, &members, step, &firsts[step], why)?;
        }
        Ok(())
    }

    /// The affected sources by steps: a line for each part, or one for each source with what it
    /// builds on if `why` is true.
    pub fn text(&self, alloc: Global, why: bool) -> Result<String, AllocError>
        ensures parts { IfOk result (λ text. (t : Tracking) → IsStepsOf t self.now
            → why ≡ false → IsSteps self.now.archive.now t (string_bytes text)) }
        ensures reasons { IfOk result (λ text. (t : Tracking) → IsStepsOf t self.now
            → why ≡ true → IsStepsWhy self.now.archive.now t (string_bytes text)) }
    {
        let mut out = String::new(alloc);
        self.put_steps(alloc, &mut out, why)?;
        Ok(out)
    }

    // The names of the sources, in byte order.
    fn names(&self, alloc: Global) -> Result<Vec<&'a str>, AllocError>
        ensures { IfOk result (λ names.
            map (λ name. name.now) names.items ≡ map mover_name self.now.movers.items) }
    {
        let mut names = Vec::with_capacity(alloc, self.movers.len())?;
        for mover in &self.movers {
            names.push(mover.source.name)?;
        }
        Ok(names)
    }

    // The sources by their levels.
    fn grouped(&self, alloc: Global, waves: &Waves<'a>) -> Result<Grouped, AllocError>
        ensures { IfOk result (λ grouped.
            AreGrouped (level_of waves.now) (depth_of waves.now) self.now grouped) }
    {
        let mut grouped = Grouped {
            levels: empty_lists(alloc, waves.depth())?,
            cyclic: Vec::new(alloc),
        };
        for number in 0..self.movers.len() {
            let level = waves.level(self.movers[number].source.name);
            grouped.push(level, number)?;
        }
        Ok(grouped)
    }

    // Appends the sources with some numbers under a head, if there are any.
    fn put_level(
        &self,
        alloc: Global,
        out: &mut String,
        level: Level,
        numbers: &[usize],
    ) -> Result<(), AllocError>
        ensures { OnOk result ((t : Tracking) → IsStepsOf t self.now
            → AreSources self.now numbers.now → string_bytes out.new ≡ string_bytes out.old
            ++ text_of (lines_under self.now (level_words level) numbers.now)) }
    {
        if numbers.is_empty() {
            return Ok(());
        }
        put_level_words(out, level)?;
        out.push_str("\n")?;
        self.put_whys(alloc, out, numbers)?;
        Ok(())
    }

    /// The affected sources by levels, each with what it builds on.
    pub fn by_levels(&self, rt: &(impl Threads + Sync), alloc: Global) -> Result<String, AllocError>
        ensures { IfOk result (λ text. (t : Tracking) → IsStepsOf t self.now
            → IsWavesWhy self.now.archive.now t (string_bytes text)) }
    {
        let names = self.names(alloc)?;
        let waves = Waves::of(rt, alloc, self.archive, &names)?;
        let grouped = self.grouped(alloc, &waves)?;
        let mut out = String::new(alloc);
        for number in 0..grouped.levels.len() {
            let level = Level::At(number + 1);
            self.put_level(alloc, &mut out, level, &grouped.levels[number])?;
        }
        self.put_level(alloc, &mut out, Level::Cyclic, &grouped.cyclic)?;
        Ok(out)
    }
}
