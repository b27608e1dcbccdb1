//! The tests of each step, in their order.
ghost use Rattle.std.specs.Prelude.{◌≡◌, ◌==◌, None, Some, position, if◌then◌else◌, IfOk, IfErr};
ghost use Rattle.td_rows.specs.Kinds.{cells};
ghost use Rattle.td_core.specs.History.{rows_of};
ghost use Rattle.td_core.specs.Worlds.{phase_of, hand_of};
ghost use Rattle.td_core.specs.Refusals.{is_queued_at, is_unpinned as is_unpinned_in};
ghost use Rattle.td_core.specs.Refusals.{is_noted_by as is_noted_in, is_done_by as is_done_in};
ghost use Rattle.td_core.specs.Refusals.{finish_refusal as finish_refusal_of};
ghost use Rattle.td_core.specs.Steps.{refusal};
ghost use Rattle.td_core.specs.declared.step.Step.{Step};

use crate::key_list::KeyList;
use crate::searching::{are_keys, first_missing, first_unfit, is_pinned};
use crate::step::{Hand, Phase, Refusal};
use crate::world::World;
use td_journal::{EntryNo, Keys, is_command};
use td_rows::{BuilderNo, Key, Kind, cells_of};

impl World<'_> {
    fn is_queued(&self, key: &Key) -> bool
        ensures { result ≡ is_queued_at (rows_of self.now.history) key.now }
    {
        match self.kept.rows().get(key) {
            Some(row) => row.state.needs_build(),
            None => false,
        }
    }

    fn is_unpinned(&self, key: &Key) -> bool
        ensures { result ≡ is_unpinned_in self.now key.now }
    {
        match self.phase(key) {
            Some(phase) => !is_pinned(phase),
            None => false,
        }
    }

    // The place of the first key whose row is offered or held.
    fn unpinned_at(&self, keys: &[Key]) -> Option<usize>
        ensures { result ≡ position (is_unpinned_in self.now) keys.now }
    {
        keys.iter().position(|key| self.is_unpinned(key))
    }

    /// The place of the first key whose row must be pinned for the kind and isn't.
    pub(crate) fn first_unpinned(&self, kind: &Kind, keys: &[Key]) -> Option<usize>
        ensures { result ≡ (if (cells kind.now).state
            then position (is_unpinned_in self.now) keys.now else None) }
    {
        if cells_of(kind).state {
            self.unpinned_at(keys)
        } else {
            None
        }
    }

    pub(crate) fn offer_refusal(&self, key: &Key) -> Option<Refusal>
        ensures { result ≡ refusal self.now (Step.Offer key.now) }
    {
        match self.phase(key) {
            None => Some(Refusal::NoSuchRow(None)),
            Some(Phase::Closed) => {
                if self.is_queued(key) {
                    None
                } else {
                    Some(Refusal::NotQueued)
                }
            }
            Some(_) => Some(Refusal::NotClosed),
        }
    }

    pub(crate) fn withdraw_refusal(&self, key: &Key) -> Option<Refusal>
        ensures { result ≡ refusal self.now (Step.Withdraw key.now) }
    {
        match self.phase(key) {
            None => Some(Refusal::NoSuchRow(None)),
            Some(Phase::Open) => None,
            Some(_) => Some(Refusal::NotOpen),
        }
    }

    pub(crate) fn claim_refusal(&self, builder: BuilderNo, key: &Key) -> Option<Refusal>
        ensures { result ≡ refusal self.now (Step.Claim builder key.now) }
    {
        match (self.hand(builder), self.phase(key)) {
            (_, None) => Some(Refusal::NoSuchRow(None)),
            (None, Some(_)) => Some(Refusal::NoSuchBuilder),
            (Some(Hand::Free), Some(Phase::Open)) => None,
            (Some(Hand::Free), Some(_)) => Some(Refusal::NotOpen),
            (Some(_), Some(_)) => Some(Refusal::NotFree),
        }
    }

    /// The keys of a command, as those of its entry, or why it is refused: the key that the refusal
    /// names is moved out of the list.
    pub(crate) fn admit(&self, kind: &Kind, keys: KeyList) -> Result<Keys, Refusal>
        ensures keys { IfOk result (λ admitted. admitted ≡ keys) }
        ensures ok { IfOk result (λ admitted. refusal self.now (Step.Commit kind.now keys) ≡ None) }
        ensures err { IfErr result (λ refused.
            refusal self.now (Step.Commit kind.now keys) ≡ Some refused) }
    {
        if !is_command(kind) {
            return Err(Refusal::NotACommand);
        }
        if !are_keys(keys.as_slice()) {
            return Err(Refusal::NoKeys);
        }
        if let Some(at) = first_missing(self.rows(), keys.as_slice()) {
            return Err(Refusal::NoSuchRow(Some(keys.into_key(at))));
        }
        if let Some(at) = first_unfit(self.rows(), kind, keys.as_slice()) {
            return Err(Refusal::DoesNotApply(keys.into_key(at)));
        }
        if let Some(at) = self.first_unpinned(kind, keys.as_slice()) {
            return Err(Refusal::NotPinned(Some(keys.into_key(at))));
        }
        Ok(keys.into_keys())
    }

    pub(crate) fn undo_refusal(&self, n: EntryNo) -> Option<Refusal>
        ensures { result ≡ refusal self.now (Step.Undo n) }
    {
        let Some(marked) = self.journal().entry(n) else {
            return Some(Refusal::NoSuchEntry);
        };
        let entry = &marked.entry;
        if !is_command(&entry.kind) {
            return Some(Refusal::NotACommand);
        }
        if !marked.stands() {
            return Some(Refusal::AlreadyUndone);
        }
        if let Some(blocker) = self.journal().blocker(n) {
            return Some(Refusal::Blocked(blocker));
        }
        if self
            .first_unpinned(&entry.kind, entry.keys.as_slice())
            .is_some()
        {
            return Some(Refusal::NotPinned(None));
        }
        None
    }

    fn is_noted_by(&self, builder: BuilderNo, key: &Key) -> bool
        ensures { result ≡ is_noted_in builder (phase_of self.now key.now) }
    {
        match self.phase(key) {
            Some(Phase::Noted(by)) => builder == *by,
            _ => false,
        }
    }

    fn is_done_by(&self, builder: BuilderNo, key: &Key) -> bool
        ensures { result ≡ is_done_in builder (phase_of self.now key.now) }
    {
        match self.phase(key) {
            Some(Phase::Done(by, _)) => builder == *by,
            _ => false,
        }
    }

    pub(crate) fn finish_refusal(&self, builder: BuilderNo) -> Option<Refusal>
        ensures { result ≡ finish_refusal_of self.now builder (hand_of self.now builder) }
    {
        match self.hand(builder) {
            None => Some(Refusal::NoSuchBuilder),
            Some(Hand::Holding(key)) => {
                if self.is_noted_by(builder, key) {
                    None
                } else {
                    Some(Refusal::NotNoted)
                }
            }
            Some(_) => Some(Refusal::NothingHeld),
        }
    }

    pub(crate) fn release_refusal(&self, builder: BuilderNo) -> Option<Refusal>
        ensures { result ≡ refusal self.now (Step.Release builder) }
    {
        match self.hand(builder) {
            None => Some(Refusal::NoSuchBuilder),
            Some(Hand::Finished(key, _)) => {
                if self.is_done_by(builder, key) {
                    Some(Refusal::NotSettled)
                } else {
                    None
                }
            }
            Some(_) => Some(Refusal::NotFinished),
        }
    }
}
