//! What a source builds on, and by which package.
ghost use Rattle.std.specs.Prelude.{◌≡◌, ◌++◌, Bool, IfOk, OnOk};
ghost use Rattle.std.specs.List.{list_any};
ghost use Rattle.td_plan.specs.declared.asks.Ask.{Ask as AskOf};
ghost use Rattle.td_plan.specs.inner.Asking.{IsByOwner};
ghost use Rattle.td_plan.specs.inner.Bases.{any_asked, mark_at as mark_at_of};

use crate::asks::{Ask, Asks, sort_by_owner};
use crate::movers::{Mover, earlier};
use crate::waits::{first_owner, group_end};
use std::alloc::{AllocError, Global};
use td_indices::Archive;

/// The affected sources of an archive, of which each asks the others for packages.
#[derive(Clone, Copy)]
pub struct Bases<'b, 't, 'a> {
    pub archive: &'b Archive<'t, 'a>,
    pub movers: &'b [Mover<'a>],
}

// Adds asks to others.
fn push_all(all: &mut Vec<Ask>, asks: &[Ask]) -> Result<(), AllocError>
    ensures { OnOk result (all.new.items ≡ all.old.items ++ asks.now) }
{
    for ask in asks {
        all.push(*ask)?;
    }
    Ok(())
}

// All that a source asks for, at whatever place, in the order of the owners.
fn asks_anywhere(alloc: Global, asks: &Asks) -> Result<Vec<Ask>, AllocError>
    ensures same { IfOk result (λ all. (test : AskOf → Bool)
        → list_any test all.items ≡ any_asked test asks.now.items) }
    ensures in_order { IfOk result (λ all. IsByOwner all.items) }
{
    let mut all = Vec::new(alloc);
    for list in asks {
        push_all(&mut all, list)?;
    }
    sort_by_owner(&mut all);
    Ok(all)
}

// What stands before a reason, for which the asks begin at a place.
fn mark_at(start: usize) -> &'static str
    ensures { result.now ≡ mark_at_of start }
{
    if start == 0 { ": " } else { ", " }
}

impl Bases<'_, '_, '_> {
    ghost use Rattle.std.specs.Prelude.{◌≡◌, ◌++◌, ◌∷◌, ◌<◌, ℕ, [], OnOk, Some, codes, length, map};
    ghost use Rattle.std.specs.Prelude.{slice_get, slice_index_or, string_bytes};
    ghost use Rattle.std.specs.Option.{option_map_or};
    ghost use Rattle.td_query.specs.Tracking.{Tracking};
    ghost use Rattle.td_plan.specs.declared.asks.Ask.{Ask};
    ghost use Rattle.td_plan.specs.declared.movers.Mover.{Mover};
    ghost use Rattle.td_plan.specs.Packages.{package_name};
    ghost use Rattle.td_plan.specs.Why.{why_line};
    ghost use Rattle.td_plan.specs.inner.Askers.{AreAsksOf};
    ghost use Rattle.td_plan.specs.inner.Bases.{AreAsksAnywhere, AreBases, after_name, asked_text};
    ghost use Rattle.td_plan.specs.inner.Bases.{first_asked as first_asked_of, reasons_among};
    ghost use Rattle.td_plan.specs.inner.Movers.{package_numbered};
    ghost use Rattle.td_plan.specs.inner.Planned.{name_at};
    ghost use Rattle.td_plan.specs.inner.Waiters.{kept_of};

    // The first package, in byte order, of some asks.
    fn first_asked(&self, asks: &[Ask]) -> Option<usize>
        ensures { package_numbered self.now.archive.now result
            ≡ first_asked_of self.now.archive.now asks.now }
    {
        let mut first = None;
        for ask in asks {
            first = earlier(self.archive, first, ask.binary);
        }
        first
    }

    /// Appends the name of the source with a number.
    pub fn put_name(&self, out: &mut String, number: usize) -> Result<(), AllocError>
        ensures { OnOk result
            (string_bytes out.new ≡ string_bytes out.old ++ name_at self.now.movers.now number) }
    {
        match self.movers.get(number) {
            Some(mover) => out.push_str(mover.source.name),
            None => Ok(()),
        }
    }

    // Appends the name of a package, if there is one.
    fn put_package(&self, out: &mut String, number: Option<usize>) -> Result<(), AllocError>
        ensures { OnOk result (string_bytes out.new ≡ string_bytes out.old
            ++ option_map_or package_name (package_numbered self.now.archive.now number) []) }
    {
        let Some(number) = number else {
            return Ok(());
        };
        match self.archive.binary(number) {
            Some(binary) => out.push_str(binary.name),
            None => Ok(()),
        }
    }

    // Appends the owner of some asks, and the first of its packages that they are for.
    fn put_reason(&self, out: &mut String, asks: &[Ask]) -> Result<(), AllocError>
        requires { 0 < length asks.now }
        ensures { OnOk result ((d : Ask) → string_bytes out.new ≡ string_bytes out.old
            ++ asked_text self.now.archive.now self.now.movers.now
            (slice_index_or asks.now 0 d).owner asks.now) }
    {
        self.put_name(out, first_owner(asks))?;
        out.push_str(" ")?;
        self.put_package(out, self.first_asked(asks))
    }

    // Appends what comes after the name of a source that asks for these, which are in the order of
    // the owners.
    fn put_reasons(&self, out: &mut String, asks: &[Ask]) -> Result<(), AllocError>
        ensures { OnOk result ((t : Tracking) (own : ℕ) (m : Mover) → AreBases t self.now
            → slice_get self.now.movers.now own ≡ Some m
            → AreAsksAnywhere self.now.archive.now self.now.movers.now own (kept_of m) asks.now
            → string_bytes out.new ≡ string_bytes out.old
            ++ after_name (reasons_among self.now.archive.now (kept_of m)
            self.now.movers.now)) }
    {
        let mut start = 0;
        while start < asks.len() {
            let end = group_end(asks, start);
            out.push_str(mark_at(start))?;
            self.put_reason(out, &asks[start..end])?;
            start = end;
        }
        Ok(())
    }

    /// Appends the line of the source with a number, which asks for these: what it builds on.
    pub fn put_line(
        &self,
        alloc: Global,
        out: &mut String,
        number: usize,
        asks: &Asks,
    ) -> Result<(), AllocError>
        ensures { OnOk result ((t : Tracking) (m : Mover) → AreBases t self.now
            → slice_get self.now.movers.now number ≡ Some m
            → AreAsksOf self.now.archive.now self.now.movers.now number m asks.now.items
            → string_bytes out.new ≡ string_bytes out.old
            ++ (why_line self.now.archive.now (map kept_of self.now.movers.now) (kept_of m)
            ++ 10 ∷ [])) }
    {
        self.put_name(out, number)?;
        let all = asks_anywhere(alloc, asks)?;
        self.put_reasons(out, &all)?;
        out.push_str("\n")?;
        Ok(())
    }
}
