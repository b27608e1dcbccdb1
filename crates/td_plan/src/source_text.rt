//! The lines of one source of a plan.
ghost use Rattle.std.specs.Prelude.{◌≡◌, ◌++◌, OnOk, string_bytes};
ghost use Rattle.td_text.specs.Lines.{text_of};
ghost use Rattle.td_rows.specs.Appending.{Grown};
ghost use Rattle.td_plan.specs.inner.Writing.{checks_of, no_waits_of};

use crate::asks::{Ask, Asks};
use crate::commands::{put_dw, put_nmu};
use crate::comments::{put_check, put_no_wait};
use crate::movers::Mover;
use crate::relations::{Told, told_of};
use crate::waits::{Wait, Waiter, Waits};
use crate::words::Words;
use std::alloc::{AllocError, Global};
use td_indices::Archive;

/// What the lines of a source are made of: all affected sources with the first sources of their
/// parts, and the source's number among them.
#[derive(Clone, Copy)]
pub struct SourceText<'b, 't, 'a> {
    pub archive: &'b Archive<'t, 'a>,
    pub words: &'b Words<'b>,
    pub movers: &'b [Mover<'a>],
    pub firsts: &'b [usize],
    pub asks: &'b Asks,
    pub number: usize,
}

// Appends the comments on the waits of a row for packages of an older version.
#[tactic(auto, using(td_rows::proofs::Appends::growing))]
fn put_checks(
    out: &mut String,
    source: &str,
    arch: &str,
    waits: &[Wait<'_>],
) -> Result<(), AllocError>
    ensures ok { OnOk result (string_bytes out.new ≡ string_bytes out.old
        ++ text_of (checks_of (record { source = source.now; arch = arch.now }) waits.now)) }
    ensures front { Grown (string_bytes out.old) (string_bytes out.new) }
{
    for wait in waits {
        if wait.is_older {
            put_check(out, source, arch, wait.name, wait.on)?;
        }
    }
    Ok(())
}

// Appends the comments on the sources for which a row can't be told to wait.
#[tactic(auto, using(td_rows::proofs::Appends::growing))]
fn put_waitless(
    out: &mut String,
    source: &str,
    arch: &str,
    waitless: &[&str],
) -> Result<(), AllocError>
    ensures ok { OnOk result (string_bytes out.new ≡ string_bytes out.old
        ++ text_of (no_waits_of (record { source = source.now; arch = arch.now }) waitless.now)) }
    ensures front { Grown (string_bytes out.old) (string_bytes out.new) }
{
    for on in waitless {
        put_no_wait(out, source, arch, *on)?;
    }
    Ok(())
}

impl<'a> SourceText<'_, '_, 'a> {
    ghost use Rattle.std.specs.Prelude.{◌≡◌, ◌++◌, ◌∷◌, ◌<◌, [], false, IfOk, OnOk, Some, filter};
    ghost use Rattle.std.specs.Prelude.{length, map, slice_get, string_bytes};
    ghost use Rattle.std.specs.List.{All, flat_map, range_with_len};
    ghost use Rattle.std.specs.Option.{option_map_or};
    ghost use Rattle.td_text.specs.Lines.{text_of};
    ghost use Rattle.td_rows.specs.Appending.{Grown};
    ghost use Rattle.td_indices.specs.Sources.{KeptSource};
    ghost use Rattle.td_plan.specs.Due.{due_places, number_of};
    ghost use Rattle.td_plan.specs.Lines.{nmu_line};
    ghost use Rattle.td_plan.specs.Placing.{Placing};
    ghost use Rattle.td_plan.specs.Plan.{all_waiting, arch_names, dw_lines, no_wait_lines};
    ghost use Rattle.td_plan.specs.Plan.{source_lines};
    ghost use Rattle.td_plan.specs.Premises.{Premises};
    ghost use Rattle.td_plan.specs.inner.Asking.{asks_at as asks_at_of};
    ghost use Rattle.td_plan.specs.inner.Inputs.{kept_source};
    ghost use Rattle.td_plan.specs.inner.Movers.{is_due_motion};
    ghost use Rattle.td_plan.specs.inner.Sources.{AreAllWaits, AreRowWaits, IsTold};
    ghost use Rattle.td_plan.specs.inner.Told.{seen_told};
    ghost use Rattle.td_plan.specs.inner.Writing.{checks_at, group_lines, no_waits_at, seen_words};

    // What the source asks for at a place.
    fn asks_at(&self, place: usize) -> &[Ask]
        ensures { result.now ≡ asks_at_of self.now.asks.now.items place }
    {
        match self.asks.get(place) {
            Some(asks) => asks.as_slice(),
            None => &[],
        }
    }

    // What the source waits for at a place; nothing if its row isn't due.
    fn waits_at(
        &self,
        alloc: Global,
        mover: &Mover<'a>,
        place: usize,
    ) -> Result<Waits<'a>, AllocError>
        requires { place < length self.now.archive.now.table }
        ensures { IfOk result (λ waits. (p : Premises) (x : Placing) (s : KeptSource)
            → IsTold p x s self.now → slice_get self.now.movers.now self.now.number ≡ Some mover.now
            → AreRowWaits p x s place waits) }
    {
        if !mover.is_due(place) {
            return Ok(Waits::none(alloc));
        }
        let waiter = Waiter {
            archive: self.archive,
            movers: self.movers,
            firsts: self.firsts,
            mover: self.number,
            place,
        };
        waiter.waits(alloc, self.asks_at(place))
    }

    // What the source waits for at each place.
    fn all_waits(&self, alloc: Global, mover: &Mover<'a>) -> Result<Vec<Waits<'a>>, AllocError>
        ensures len { IfOk result (λ all. length all.items ≡ length self.now.archive.now.table) }
        ensures waits { IfOk result (λ all. (p : Premises) (x : Placing) (s : KeptSource)
            → IsTold p x s self.now → slice_get self.now.movers.now self.now.number ≡ Some mover.now
            → AreAllWaits p x s all.items) }
    {
        let mut all = Vec::with_capacity(alloc, self.archive.arch_count())?;
        for place in 0..self.archive.arch_count() {
            all.push(self.waits_at(alloc, mover, place)?)?;
        }
        Ok(all)
    }

    // Appends the comments on the waits of some places for packages of an older version.
    #[tactic(auto, using(td_rows::proofs::Appends::growing))]
    fn put_all_checks(
        &self,
        out: &mut String,
        mover: &Mover<'a>,
        all: &[Waits<'a>],
        places: &[usize],
    ) -> Result<(), AllocError>
        requires all { length all.now ≡ length self.now.archive.now.table }
        requires places { All (λ place. place < length self.now.archive.now.table) places.now }
        ensures ok { OnOk result (string_bytes out.new ≡ string_bytes out.old
            ++ text_of (flat_map (checks_at self.now.archive.now.table
            mover.now.source.name.now all.now) places.now)) }
        ensures front { Grown (string_bytes out.old) (string_bytes out.new) }
    {
        for place in places {
            let arch = self.archive.archs().name(*place);
            put_checks(out, mover.source.name, arch, &all[*place].waits)?;
        }
        Ok(())
    }

    // Appends the line of one relation, and the comments after it.
    #[tactic(auto, using(td_rows::proofs::Appends::growing))]
    fn put_told(
        &self,
        out: &mut String,
        mover: &Mover<'a>,
        all: &[Waits<'a>],
        told: &Told,
    ) -> Result<(), AllocError>
        requires all { length all.now ≡ length self.now.archive.now.table }
        requires places { All (λ place. place < length self.now.archive.now.table)
            told.now.places.items }
        ensures ok { OnOk result (string_bytes out.new ≡ string_bytes out.old
            ++ text_of (group_lines (seen_words self.now.words.now) self.now.archive.now.table
            (kept_source mover.now.source) all.now (seen_told told.now))) }
        ensures front { Grown (string_bytes out.old) (string_bytes out.new) }
    {
        let relation = told.relation.as_str();
        let archs = self.archive.archs();
        put_dw(
            out,
            self.words,
            &mover.source,
            archs,
            &told.places,
            relation,
        )?;
        self.put_all_checks(out, mover, all, &told.places)
    }

    // Appends the lines of all relations.
    #[tactic(auto, using(td_rows::proofs::Appends::growing))]
    fn put_all_told(
        &self,
        out: &mut String,
        mover: &Mover<'a>,
        all: &[Waits<'a>],
        told: &[Told],
    ) -> Result<(), AllocError>
        requires all { length all.now ≡ length self.now.archive.now.table }
        requires places { All (λ one. All (λ place. place < length self.now.archive.now.table)
            one.places.items) told.now }
        ensures ok { OnOk result (string_bytes out.new ≡ string_bytes out.old
            ++ text_of (flat_map (group_lines (seen_words self.now.words.now)
            self.now.archive.now.table (kept_source mover.now.source) all.now)
            (map seen_told told.now))) }
        ensures front { Grown (string_bytes out.old) (string_bytes out.new) }
    {
        for one in told {
            self.put_told(out, mover, all, one)?;
        }
        Ok(())
    }

    // Appends the comments on the sources for which the source can't be told to wait.
    #[tactic(auto, using(td_rows::proofs::Appends::growing))]
    fn put_no_waits(
        &self,
        out: &mut String,
        mover: &Mover<'a>,
        all: &[Waits<'a>],
    ) -> Result<(), AllocError>
        requires { length all.now ≡ length self.now.archive.now.table }
        ensures ok { OnOk result (string_bytes out.new ≡ string_bytes out.old
            ++ text_of (flat_map (no_waits_at self.now.archive.now.table
            mover.now.source.name.now all.now) (range_with_len 0 (length all.now)))) }
        ensures front { Grown (string_bytes out.old) (string_bytes out.new) }
    {
        for place in 0..all.len() {
            let arch = self.archive.archs().name(place);
            put_waitless(out, mover.source.name, arch, &all[place].waitless)?;
        }
        Ok(())
    }

    // The places of the source's due rows.
    fn due_places(&self, alloc: Global, mover: &Mover<'a>) -> Result<Vec<usize>, AllocError>
        ensures within { IfOk result
            (λ places. All (λ place. place < length self.now.archive.now.table) places.items) }
        ensures due { IfOk result (λ places. places.items ≡ filter (λ place. option_map_or
            is_due_motion (slice_get mover.now.motions.at.items place) false)
            (range_with_len 0 (length self.now.archive.now.table))) }
    {
        let mut places = Vec::new(alloc);
        for place in 0..self.archive.arch_count() {
            if mover.is_due(place) {
                places.push(place)?;
            }
        }
        Ok(places)
    }

    // Appends the line that rebuilds the source's due rows.
    #[tactic(auto, using(td_rows::proofs::Appends::growing))]
    fn put_rebuild(
        &self,
        alloc: Global,
        out: &mut String,
        mover: &Mover<'a>,
    ) -> Result<(), AllocError>
        ensures ok { OnOk result ((p : Premises) (x : Placing) (s : KeptSource)
            → IsTold p x s self.now → slice_get self.now.movers.now self.now.number ≡ Some mover.now
            → string_bytes out.new ≡ string_bytes out.old
            ++ (nmu_line (seen_words self.now.words.now) s (number_of p s)
            (arch_names p (due_places p s)) ++ 10 ∷ [])) }
        ensures front { Grown (string_bytes out.old) (string_bytes out.new) }
    {
        let places = self.due_places(alloc, mover)?;
        let number = mover.motions.number;
        put_nmu(
            out,
            self.words,
            &mover.source,
            self.archive.archs(),
            &places,
            number,
        )
    }

    // Appends the lines by which the source waits, and the comments on sources for which it can't.
    #[tactic(auto, using(td_rows::proofs::Appends::growing))]
    fn put_waits(
        &self,
        alloc: Global,
        out: &mut String,
        mover: &Mover<'a>,
    ) -> Result<(), AllocError>
        ensures ok { OnOk result ((p : Premises) (x : Placing) (s : KeptSource)
            → IsTold p x s self.now → slice_get self.now.movers.now self.now.number ≡ Some mover.now
            → string_bytes out.new ≡ string_bytes out.old ++ text_of (
            dw_lines (seen_words self.now.words.now) p s [] (all_waiting x p s)
            ++ flat_map (no_wait_lines x p s) (due_places p s))) }
        ensures front { Grown (string_bytes out.old) (string_bytes out.new) }
    {
        let all = self.all_waits(alloc, mover)?;
        let told = told_of(alloc, &all)?;
        self.put_all_told(out, mover, &all, &told)?;
        self.put_no_waits(out, mover, &all)
    }

    /// Appends all lines of the source.
    #[tactic(auto, using(td_rows::proofs::Appends::growing))]
    pub fn put(&self, alloc: Global, out: &mut String) -> Result<(), AllocError>
        ensures ok { OnOk result ((p : Premises) (x : Placing) (s : KeptSource)
            → IsTold p x s self.now → string_bytes out.new ≡ string_bytes out.old
            ++ text_of (source_lines (seen_words self.now.words.now) x p s)) }
        ensures front { Grown (string_bytes out.old) (string_bytes out.new) }
    {
        let Some(mover) = self.movers.get(self.number) else {
            return Ok(());
        };
        self.put_rebuild(alloc, out, mover)?;
        self.put_waits(alloc, out, mover)
    }
}
