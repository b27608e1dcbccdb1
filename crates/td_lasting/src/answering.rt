//! The answer to a line.
ghost use Rattle.std.specs.Prelude.{◌≡◌, ◌<◌, [], Some, None, true, false, IfOk, IsErrOf, OnErr};
ghost use Rattle.std.specs.Prelude.{map};
ghost use Rattle.std.specs.Prelude.{MatchOption, length};
ghost use Rattle.std.specs.String.{string_bytes};
ghost use Rattle.td_text.specs.Cut.{Without};
ghost use Rattle.td_rows.specs.Table.{AppliesOn, row_of};
ghost use Rattle.td_journal.specs.declared.version.Version.TheVariants.{Two};
ghost use Rattle.td_journal.specs.Entries.{standing_entry};
ghost use Rattle.td_journal.specs.EntryFits.{EntryFits};
ghost use Rattle.td_core.specs.History.{rows_of};
ghost use Rattle.td_core.specs.Offers.{freed, is_arrival, supply_now};
ghost use Rattle.td_wbread.specs.Command.{command_at};
ghost use Rattle.td_wbread.specs.Views.{parts_of};
ghost use Rattle.td_book.specs.Undoing.{undo_stop};
ghost use Rattle.td_script.specs.Reading.{said_at};
ghost use Rattle.td_script.specs.Replies.{answer, arrives, asks, commands, enters, refuses, sweeps};
ghost use Rattle.td_script.specs.Replies.{types, undoes};
ghost use Rattle.td_lasting.specs.DeskAnswers.{desk_answer, own_asks};
ghost use Rattle.td_lasting.specs.DeskView.{IsDone, IsReplied};
ghost use Rattle.td_lasting.specs.Events.{events_of, undo_asked, undo_named};
ghost use Rattle.td_lasting.specs.OwnReading.{heard_at};
ghost use Rattle.td_lasting.specs.OwnRequests.{OwnFits};
ghost use Rattle.td_lasting.specs.Sessions.{framed_answer, framed_events};
ghost use Rattle.td_lasting.specs.Tales.{is_claim};
ghost use Rattle.td_lasting.specs.Terms.{AreTerms, setting_of};
ghost use Rattle.td_lasting.specs.inner.Answered.{IsAnswered};
ghost use Rattle.td_lasting.specs.inner.Served.{HasNoNewline};

use crate::asking::{put_asked, put_ready, put_rows};
use crate::chronicle::DeskFault;
use crate::desk::FileDesk;
use crate::framing::Framed;
use crate::hearing::{Heard, hear};
use crate::looking::{LookedUp, look_up};
use crate::own_request::OwnRequest;
use crate::records::read_kind;
use crate::sending::put_standing;
use crate::terms::Terms;
use std::alloc::AllocError;
use td_book::{CommandRefusal, arrival_row, undo_refusal};
use td_journal::{Entry, EntryNo, Keys};
use td_ledger::Device;
use td_rows::{Key, Kind};
use td_script::{
    Request, Said, put_arrival_refusal, put_command_refusal, put_skips, put_sweep, put_taken,
    put_undo, read_line, refuse,
};
use td_wbread::{Command, CommandFault, read_command};

impl<'a, D: Device> FileDesk<'a, D> {
    // Undoes an entry.
    fn undo(&mut self, n: EntryNo, out: &mut String) -> Result<bool, DeskFault>
        requires running { self.old.stopped ≡ false }
        ensures { IsAnswered
            (undoes self.old.history n (undo_stop self.old.history.journal n)) (Some n)
            self.old self.new (string_bytes out.old) (string_bytes out.new) result }
    {
        // (`rows` says that the keys of the rows rise, and that the standing entries are lawful)
        let _rows = self.chronicle.rows();
        match undo_refusal(self.chronicle.journal(), n) {
            Some(refusal) => Ok(put_undo(out, n, Err(refusal))?),
            None => {
                put_undo(out, n, Ok(()))?;
                self.chronicle.undo(n)?;
                Ok(false)
            }
        }
    }

    // The key's build has arrived.
    fn arrive(&mut self, key: &Key, out: &mut String) -> Result<bool, DeskFault>
        requires running { self.old.stopped ≡ false }
        ensures { IsAnswered
            (arrives self.old.history key.now (row_of (rows_of self.old.history) key.now)) None
            self.old self.new (string_bytes out.old) (string_bytes out.new) result }
    {
        match arrival_row(self.chronicle.rows(), key) {
            Ok(row) => {
                let number = row.number;
                let keys = Keys::of_one(self.chronicle.alloc(), key)?;
                put_taken(out, self.chronicle.next(), keys.as_slice())?;
                self.chronicle.enter_arrival(key, number)?;
                Ok(false)
            }
            Err(refusal) => Ok(put_arrival_refusal(out, refusal)?),
        }
    }

    // An entry on these keys, of which there is one at least.
    fn enter_told(&mut self, kind: Kind, keys: Keys, out: &mut String) -> Result<bool, DeskFault>
        requires running { self.old.stopped ≡ false }
        requires applies { AppliesOn (rows_of self.old.history) kind keys }
        requires other { is_arrival kind ≡ false }
        requires claim { is_claim kind ≡ false }
        requires line { EntryFits Two (standing_entry (record { kind = kind; keys = keys })) }
        ensures { IsAnswered (enters self.old.history (record { kind = kind; keys = keys }) [])
            None self.old self.new (string_bytes out.old) (string_bytes out.new) result }
    {
        put_taken(out, self.chronicle.next(), keys.as_slice())?;
        self.chronicle.enter(Entry { kind, keys })?;
        Ok(false)
    }

    // The keys of the rows that wait for what is on offer now, as those of an entry, if there are
    // any.
    fn freed_keys(&self) -> Result<Option<Keys>, AllocError>
        ensures { IfOk result (λ keys.
            let these = freed (supply_now self.now.stock self.now.history)
            (rows_of self.now.history) in
            MatchOption keys (these ≡ []) (λ ks. (ks ≡ these) × (0 < length ks))) }
    {
        // (`rows` says that the keys of the rows rise)
        let _rows = self.chronicle.rows();
        let keys = self.chronicle.books().freed(self.chronicle.alloc())?;
        if keys.is_empty() {
            return Ok(None);
        }
        Ok(Some(Keys::new(keys)))
    }

    // Frees the rows that wait for what is on offer now.
    fn sweep(&mut self, out: &mut String) -> Result<bool, DeskFault>
        requires running { self.old.stopped ≡ false }
        ensures { IsAnswered (sweeps self.old.history
            (freed (supply_now self.old.stock self.old.history) (rows_of self.old.history))) None
            self.old self.new (string_bytes out.old) (string_bytes out.new) result }
    {
        // (`rows` says that the keys of the rows rise)
        let _rows = self.chronicle.rows();
        match self.freed_keys()? {
            Some(keys) => self.enter_told(Kind::Sweep, keys, out),
            None => Ok(put_sweep(out, self.chronicle.journal(), None)?),
        }
    }

    // Enters a command.
    fn command(&mut self, command: &Command<'_>, out: &mut String) -> Result<bool, DeskFault>
        requires running { self.old.stopped ≡ false }
        ensures { IsAnswered
            (commands self.old.stock self.old.history (parts_of command.now)) None
            self.old self.new (string_bytes out.old) (string_bytes out.new) result }
    {
        // (`rows` says that the keys of the rows rise)
        let _rows = self.chronicle.rows();
        let LookedUp { kind, keys, skips } = look_up(
            self.chronicle.alloc(),
            self.chronicle.books(),
            command,
        )?;
        if keys.is_empty() {
            return Ok(put_command_refusal(out, CommandRefusal::NothingApplies(skips))?);
        }
        read_kind(&kind);
        let keys = Keys::new(keys);
        put_taken(out, self.chronicle.next(), keys.as_slice())?;
        put_skips(out, skips.as_slice())?;
        self.chronicle.enter(Entry { kind, keys })?;
        Ok(false)
    }

    // Answers a line that is typed.
    fn type_in(
        &mut self,
        terms: &Terms<'_, '_, '_, '_, '_, '_, '_>,
        line: &str,
        out: &mut String,
    ) -> Result<bool, DeskFault>
        requires running { self.old.stopped ≡ false }
        ensures { IsAnswered (types self.old.stock self.old.history
            (command_at self.old.stock.table (map (λ s. s.now) terms.now.suites.now) line.now)) None
            self.old self.new (string_bytes out.old) (string_bytes out.new) result }
    {
        match read_command(
            self.chronicle.alloc(),
            line,
            self.chronicle.supply().archs(),
            terms.suites,
        ) {
            Ok(typed) => self.command(&typed, out),
            Err(CommandFault::Wrong(fault, _)) => Ok(refuse(out, fault.name())?),
            Err(CommandFault::NoMemory) => Err(DeskFault::NoMemory),
        }
    }

    // Answers what a script asks for.
    fn ask(
        &mut self,
        terms: &Terms<'_, '_, '_, '_, '_, '_, '_>,
        request: &Request,
        out: &mut String,
    ) -> Result<bool, DeskFault>
        requires running { self.old.stopped ≡ false }
        requires terms { AreTerms terms.now }
        ensures { IsAnswered
            (asks (setting_of self.old.stock terms.now) self.old.history request.now)
            (undo_named (Said.Asked request.now))
            self.old self.new (string_bytes out.old) (string_bytes out.new) result }
    {
        match request {
            Request::Undo(n) => self.undo(*n, out),
            Request::Arrive(key) => self.arrive(key, out),
            Request::Sweep => self.sweep(out),
            _ => Ok(put_asked(
                self.chronicle.alloc(),
                self.chronicle.books(),
                terms,
                request,
                out,
            )?),
        }
    }

    // Answers a line of a script.
    fn answer_script(
        &mut self,
        terms: &Terms<'_, '_, '_, '_, '_, '_, '_>,
        line: &str,
        out: &mut String,
    ) -> Result<bool, DeskFault>
        requires running { self.old.stopped ≡ false }
        requires terms { AreTerms terms.now }
        ensures { IsAnswered
            (answer (setting_of self.old.stock terms.now) self.old.history line.now)
            (undo_named (said_at line.now))
            self.old self.new (string_bytes out.old) (string_bytes out.new) result }
    {
        match read_line(self.chronicle.alloc(), line)? {
            Said::Skipped => Ok(false),
            Said::Asked(request) => self.ask(terms, &request, out),
            Said::Bad => Ok(refuse(out, "BadLine")?),
            Said::Typed => self.type_in(terms, line, out),
        }
    }

    // Answers one of the five lines that a script hasn't.
    fn answer_own(
        &mut self,
        terms: &Terms<'_, '_, '_, '_, '_, '_, '_>,
        request: OwnRequest,
        out: &mut String,
    ) -> Result<bool, DeskFault>
        requires running { self.old.stopped ≡ false }
        requires terms { AreTerms terms.now }
        requires fits { OwnFits request }
        ensures { IsAnswered
            (own_asks (setting_of self.old.stock terms.now) self.old.history request) None
            self.old self.new (string_bytes out.old) (string_bytes out.new) result }
    {
        // (here the file is at rest)
        let alloc = self.chronicle.alloc();
        match request {
            OwnRequest::Ready(None) => Ok(put_ready(alloc, self.chronicle.books(), None, out)?),
            OwnRequest::Ready(Some(arch)) => {
                Ok(put_ready(alloc, self.chronicle.books(), Some(arch.as_str()), out)?)
            }
            OwnRequest::Claim(builder, key) => self.claim(builder, &key, out),
            OwnRequest::Finish(builder, outcome) => self.finish(builder, outcome, out),
            OwnRequest::Rows => Ok(put_rows(alloc, self.chronicle.books(), out)?),
            OwnRequest::Lines => {
                Ok(put_standing(alloc, self.chronicle.books(), terms.suites, out)?)
            }
        }
    }

    // Answers a line; where it fails, a front of the answer may be appended.
    fn answer_heard(
        &mut self,
        terms: &Terms<'_, '_, '_, '_, '_, '_, '_>,
        line: &str,
        out: &mut String,
    ) -> Result<bool, DeskFault>
        requires running { self.old.stopped ≡ false }
        requires terms { AreTerms terms.now }
        requires line { Without 10 line.now }
        ensures { IsAnswered
            (desk_answer (setting_of self.old.stock terms.now) self.old.history line.now)
            (undo_asked (heard_at line.now) (said_at line.now))
            self.old self.new (string_bytes out.old) (string_bytes out.new) result }
    {
        match hear(self.chronicle.alloc(), line)? {
            Heard::Own(request) => self.answer_own(terms, request, out),
            Heard::Bad => Ok(refuse(out, "BadLine")?),
            Heard::Scripted => self.answer_script(terms, line, out),
        }
    }

    /// Answers a line, in which no newline stands: appends its answer, and answers whether it is
    /// refused. What it tells is on the disk. Where it fails nothing is appended.
    pub fn answer(
        &mut self,
        terms: &Terms<'_, '_, '_, '_, '_, '_, '_>,
        line: &str,
        out: &mut String,
    ) -> Result<bool, DeskFault>
        requires line { Without 10 line.now }
        requires terms { AreTerms terms.now }
        ensures replied { IfOk result (IsReplied
            (desk_answer (setting_of self.old.stock terms.now) self.old.history line.now)
            self.new (string_bytes out.old) (string_bytes out.new)) }
        ensures done { IsDone
            (events_of (setting_of self.old.stock terms.now) self.old.history line.now)
            self.old self.new result }
        ensures stopped { self.old.stopped ≡ true → IsErrOf result DeskFault.Stopped }
        ensures err { OnErr result (string_bytes out.new ≡ string_bytes out.old) }
    {
        if self.chronicle.has_stopped() {
            return Err(DeskFault::Stopped);
        }
        let start = out.len();
        let answered = self.answer_heard(terms, line, out);
        if answered.is_err() {
            out.truncate(start);
        }
        answered
    }

    // Refuses a line of an input for its form.
    fn refuse_framed(&mut self, name: &str, out: &mut String) -> Result<bool, DeskFault>
        requires running { self.old.stopped ≡ false }
        ensures replied { IfOk result (IsReplied (refuses self.old.history name.now [])
            self.new (string_bytes out.old) (string_bytes out.new)) }
        ensures done { IsDone [] self.old self.new result }
        ensures err { OnErr result (string_bytes out.new ≡ string_bytes out.old) }
    {
        // (here the file is at rest)
        let _alloc = self.chronicle.alloc();
        Ok(refuse(out, name)?)
    }

    /// Answers a line of an input, as `answer` does, and refuses one that can't be taken.
    pub(crate) fn answer_framed(
        &mut self,
        terms: &Terms<'_, '_, '_, '_, '_, '_, '_>,
        framed: &Framed,
        out: &mut String,
    ) -> Result<bool, DeskFault>
        requires line { HasNoNewline framed.now }
        requires terms { AreTerms terms.now }
        requires running { self.old.stopped ≡ false }
        ensures replied { IfOk result (IsReplied
            (framed_answer (setting_of self.old.stock terms.now) self.old.history framed.now)
            self.new (string_bytes out.old) (string_bytes out.new)) }
        ensures done { IsDone
            (framed_events (setting_of self.old.stock terms.now) self.old.history framed.now)
            self.old self.new result }
        ensures err { OnErr result (string_bytes out.new ≡ string_bytes out.old) }
    {
        match framed {
            Framed::Whole(line) => self.answer(terms, line.as_str(), out),
            Framed::Unended => self.refuse_framed("Unended", out),
            Framed::TooLong => self.refuse_framed("TooLong", out),
            Framed::NotText => self.refuse_framed("NotText", out),
        }
    }
}
