//! Claims of builders, and the ends of their builds.
ghost use Rattle.std.specs.Prelude.{◌≡◌, [], ◌∷◌, ◌++◌, ◌+◌, Some, None, true, false, IfErr, IfOk};
ghost use Rattle.std.specs.Prelude.{OnErr, OnOk, codes, decimal, length, option_map, slice_get};
ghost use Rattle.td_rows.specs.declared.row.Row.{Row as RowValue};
ghost use Rattle.std.specs.String.{string_bytes};
ghost use Rattle.td_rows.specs.Appending.{Grown};
ghost use Rattle.td_rows.specs.KeyText.{key_text};
ghost use Rattle.td_rows.specs.Notes.{notes};
ghost use Rattle.td_rows.specs.Table.{row_of};
ghost use Rattle.td_journal.specs.Entries.{standing};
ghost use Rattle.td_journal.specs.EntryFits.{IsBuilder};
ghost use Rattle.td_core.specs.History.{rows_of};
ghost use Rattle.td_script.specs.Replies.{Setting};
ghost use Rattle.td_lasting.specs.DeskAnswers.{built_version as version_of_build, builds_line};
ghost use Rattle.td_script.specs.Replying.{IsPut};
ghost use Rattle.td_lasting.specs.DeskAnswers.{claims, ends, finishes};
ghost use Rattle.td_lasting.specs.DeskAnswers.{is_readable as is_readable_end};
ghost use Rattle.td_lasting.specs.DeskAnswers.{message_of as message_in_entries};
ghost use Rattle.td_lasting.specs.Hands.{held_by};
ghost use Rattle.td_lasting.specs.inner.Answered.{IsAnswered, IsClaimStop, IsClaimable};
ghost use Rattle.td_lasting.specs.inner.Answered.{claim_refused};

use crate::chronicle::DeskFault;
use crate::desk::FileDesk;
use crate::relations::is_relation;
use std::alloc::{AllocError, Global};
use td_core::Books;
use td_journal::{Entry, EntryNo, Journal, Keys};
use td_ledger::Device;
use td_rows::{BuilderNo, Key, Kind, Outcome, Row, State, applies, put_key, put_notes};
use td_script::{put_state_refusal, put_taken, refuse};
use td_text::put_number;
use td_version::write_rebuild;

// The message of the latest standing rebuild of the key's row.
fn message_of<'j>(journal: &'j Journal, key: &Key) -> &'j str
    ensures { result.now ≡ message_in_entries (standing journal.now.entries) key.now }
{
    let entries = journal.as_slice();
    for back in 0..entries.len() {
        let marked = &entries[entries.len() - 1 - back];
        if let Kind::Nmu { message, .. } = &marked.entry.kind {
            if marked.stands() && marked.entry.keys.as_slice().binary_search(key).is_ok() {
                return message.as_str();
            }
        }
    }
    ""
}

// The version that a rebuild of the row has.
fn built_version(
    alloc: Global,
    books: &Books<'_>,
    key: &Key,
    row: &Row,
) -> Result<String, AllocError>
    ensures { (s : Setting) → s.stock ≡ books.now.stock → IfOk result (λ text.
        string_bytes text ≡ version_of_build s books.now.history key.now row.now) }
{
    let version = books.supply().version(key.source()).unwrap_or("");
    write_rebuild(alloc, version, row.number.get())
}

// Appends which entry it is and which row is built.
#[tactic(auto, using(td_rows::proofs::Appends::growing))]
fn put_built_key(out: &mut String, n: EntryNo, key: &Key) -> Result<(), AllocError>
    ensures ok { OnOk result (string_bytes out.new ≡ string_bytes out.old ++ (codes "entry "
        ++ (decimal n ++ (codes " builds " ++ (key_text key.now ++ 32 ∷ []))))) }
    ensures front { Grown (string_bytes out.old) (string_bytes out.new) }
{
    out.push_str("entry ")?;
    put_number(out, n)?;
    out.push_str(" builds ")?;
    put_key(out, key)?;
    out.push_str(" ")
}

// Appends under which version and number it is built, and why.
#[tactic(auto, using(td_rows::proofs::Appends::growing))]
fn put_build(
    out: &mut String,
    version: &str,
    number: u16,
    extra: &str,
    message: &str,
) -> Result<(), AllocError>
    ensures ok { OnOk result (string_bytes out.new ≡ string_bytes out.old ++ (version.now
        ++ 32 ∷ (decimal number ++ (notes (extra.now, message.now) ++ 10 ∷ [])))) }
    ensures front { Grown (string_bytes out.old) (string_bytes out.new) }
{
    out.push_str(version)?;
    out.push_str(" ")?;
    put_number(out, number as u64)?;
    put_notes(out, extra, message)?;
    out.push_str("\n")
}

// Tells the builder what it builds.
#[tactic(auto, using(td_rows::proofs::Appends::growing))]
fn put_builds(
    alloc: Global,
    books: &Books<'_>,
    n: EntryNo,
    key: &Key,
    row: &Row,
    out: &mut String,
) -> Result<(), AllocError>
    requires { n ≡ length books.now.history.journal + 1 }
    ensures ok { (s : Setting) → s.stock ≡ books.now.stock → OnOk result (string_bytes out.new
        ≡ string_bytes out.old ++ builds_line s books.now.history key.now row.now) }
    ensures front { Grown (string_bytes out.old) (string_bytes out.new) }
{
    let version = built_version(alloc, books, key, row)?;
    let message = message_of(books.journal(), key);
    put_built_key(out, n, key)?;
    put_build(
        out,
        version.as_str(),
        row.number.get(),
        row.extra.as_str(),
        message,
    )
}

/// Why a builder may not take a row.
#[derive(Clone, Copy)]
enum ClaimRefusal {
    NoSuchRow,
    NotFree,
    DoesNotApply(State),
}

// Appends why a builder may not take a row, and answers that the line is refused.
fn put_claim_refusal(out: &mut String, refusal: ClaimRefusal) -> Result<bool, AllocError>
    ensures ok { IfOk result
        (IsPut (claim_refused refusal) true (string_bytes out.old) (string_bytes out.new)) }
    ensures err { OnErr result (string_bytes out.new ≡ string_bytes out.old) }
{
    match refusal {
        ClaimRefusal::NoSuchRow => refuse(out, "NoSuchRow"),
        ClaimRefusal::NotFree => refuse(out, "NotFree"),
        ClaimRefusal::DoesNotApply(state) => {
            put_state_refusal(out, "DoesNotApply ", state).and(Ok(true))
        }
    }
}

impl<'a, D: Device> FileDesk<'a, D> {
    // The number of the row that a builder may take, or why it may not.
    fn claimable(&self, builder: BuilderNo, key: &Key) -> Result<usize, ClaimRefusal>
        requires builder { IsBuilder builder }
        requires running { self.now.stopped ≡ false }
        ensures ok { IfOk result (IsClaimable (rows_of self.now.history) builder key.now) }
        ensures err { IfErr result (IsClaimStop (rows_of self.now.history) builder key.now) }
    {
        let rows = self.chronicle.rows();
        let Some(number) = rows.number(key) else {
            return Err(ClaimRefusal::NoSuchRow);
        };
        let Some((_, row)) = rows.at(number) else {
            return Err(ClaimRefusal::NoSuchRow);
        };
        if self.hands.held(rows, builder).is_some() {
            return Err(ClaimRefusal::NotFree);
        }
        if applies(&Kind::Claim(builder), row) {
            Ok(number)
        } else {
            Err(ClaimRefusal::DoesNotApply(row.state))
        }
    }

    // Tells the builder that it builds the row with this number, which is the key's.
    fn tell_builds(&self, key: &Key, number: usize, out: &mut String) -> Result<(), AllocError>
        ensures ok { (s : Setting) (row : RowValue) → s.stock ≡ self.now.stock
            → slice_get (rows_of self.now.history) number ≡ Some (key.now, row) → OnOk result
            (string_bytes out.new
            ≡ string_bytes out.old ++ builds_line s self.now.history key.now row) }
        ensures front { Grown (string_bytes out.old) (string_bytes out.new) }
    {
        let Some((_, row)) = self.chronicle.rows().at(number) else {
            return Ok(());
        };
        put_builds(
            self.chronicle.alloc(),
            self.chronicle.books(),
            self.chronicle.next(),
            key,
            row,
            out,
        )
    }

    // The builder takes the row with this number, which is the key's.
    fn take(
        &mut self,
        builder: BuilderNo,
        key: &Key,
        number: usize,
        out: &mut String,
    ) -> Result<bool, DeskFault>
        requires builder { IsBuilder builder }
        requires running { self.old.stopped ≡ false }
        requires claimable { IsClaimable (rows_of self.old.history) builder key.now number }
        ensures { (s : Setting) → s.stock ≡ self.old.stock → IsAnswered
            (claims s self.old.history builder key.now
            (row_of (rows_of self.old.history) key.now)) None
            self.old self.new (string_bytes out.old) (string_bytes out.new) result }
    {
        // (`rows` says that the keys of the rows rise)
        let _rows = self.chronicle.rows();
        self.tell_builds(key, number, out)?;
        let keys = Keys::of_one(self.chronicle.alloc(), key)?;
        // (before the entry is made: a row that a builder has is in its hand at any time)
        self.hands.take(builder, number);
        self.chronicle.enter(Entry {
            kind: Kind::Claim(builder),
            keys,
        })?;
        Ok(false)
    }

    /// The builder takes the key's row.
    pub(crate) fn claim(
        &mut self,
        builder: BuilderNo,
        key: &Key,
        out: &mut String,
    ) -> Result<bool, DeskFault>
        requires builder { IsBuilder builder }
        requires running { self.old.stopped ≡ false }
        ensures { (s : Setting) → s.stock ≡ self.old.stock → IsAnswered
            (claims s self.old.history builder key.now
            (row_of (rows_of self.old.history) key.now)) None
            self.old self.new (string_bytes out.old) (string_bytes out.new) result }
    {
        // (here the file is at rest)
        let _alloc = self.chronicle.alloc();
        match self.claimable(builder, key) {
            Ok(number) => self.take(builder, key, number, out),
            Err(refusal) => Ok(put_claim_refusal(out, refusal)?),
        }
    }

    // The builder's build of the row of a key ends.
    fn end(
        &mut self,
        builder: BuilderNo,
        outcome: Outcome,
        keys: Keys,
        out: &mut String,
    ) -> Result<bool, DeskFault>
        requires builder { IsBuilder builder }
        requires running { self.old.stopped ≡ false }
        requires held { option_map (λ k. k ∷ []) (held_by (rows_of self.old.history) builder)
            ≡ Some keys }
        ensures { IsAnswered
            (ends self.old.history builder outcome (held_by (rows_of self.old.history) builder))
            None self.old self.new (string_bytes out.old) (string_bytes out.new) result }
    {
        // (`rows` says that the keys of the rows rise)
        let _rows = self.chronicle.rows();
        put_taken(out, self.chronicle.next(), keys.as_slice())?;
        self.chronicle.enter(Entry {
            kind: Kind::Outcome(builder, outcome),
            keys,
        })?;
        self.hands.release(builder);
        Ok(false)
    }

    // The key of the row that a builder has, as those of an entry.
    fn held(&self, builder: BuilderNo) -> Result<Option<Keys>, AllocError>
        requires builder { IsBuilder builder }
        requires running { self.now.stopped ≡ false }
        ensures { IfOk result (λ keys. option_map (λ k. k ∷ [])
            (held_by (rows_of self.now.history) builder) ≡ keys) }
    {
        match self.hands.held(self.chronicle.rows(), builder) {
            Some(key) => Ok(Some(Keys::of_one(self.chronicle.alloc(), key)?)),
            None => Ok(None),
        }
    }

    /// The builder's build ends.
    pub(crate) fn finish(
        &mut self,
        builder: BuilderNo,
        outcome: Outcome,
        out: &mut String,
    ) -> Result<bool, DeskFault>
        requires builder { IsBuilder builder }
        requires running { self.old.stopped ≡ false }
        ensures { IsAnswered (finishes self.old.history builder outcome) None
            self.old self.new (string_bytes out.old) (string_bytes out.new) result }
    {
        if !is_readable(self.chronicle.alloc(), &outcome)? {
            return Ok(refuse(out, "BadRelation")?);
        }
        match self.held(builder)? {
            Some(keys) => self.end(builder, outcome, keys, out),
            None => Ok(refuse(out, "NothingHeld")?),
        }
    }
}

// Whether what a build waits for is a relation.
fn is_readable(alloc: Global, outcome: &Outcome) -> Result<bool, AllocError>
    ensures { IfOk result (λ is. is ≡ is_readable_end outcome.now) }
{
    match outcome {
        Outcome::Waits(relation) => is_relation(alloc, relation.as_str()),
        _ => Ok(true),
    }
}
