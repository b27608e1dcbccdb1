//! The steps of the desk and of the builders, each with its answer.
ghost use Rattle.std.specs.Prelude.{◌≡◌, ◌≢◌, ◌<◌, ◌-◌, true, false, length, set, slice_get, IfOk};
ghost use Rattle.std.specs.Prelude.{IfSome, IfNone, IsOk, OnOk, OnErr};
ghost use Rattle.td_change.specs.Saved.{number_of};
ghost use Rattle.td_core.specs.Steps.{answer_to, after, takes_memory};
ghost use Rattle.td_core.specs.Worlds.{held_in};

use crate::books::Books;
use crate::key_list::KeyList;
use crate::step::{Answer, Hand, Phase, Refusal, Step};
use crate::world::World;
use std::alloc::AllocError;
use std::mem;
use td_journal::{Entry, EntryNo, Keys};
use td_rows::{BuilderNo, Key, Kind, Outcome};

// Gives the key's row the phase.
fn put_phase(kept: &Books<'_>, phases: &mut Vec<Phase>, key: &Key, phase: Phase)
    requires sized { length phases.old.items ≡ length kept.now.history.opening }
    ensures { phases.new.items
        ≡ set phases.old.items (number_of kept.now.history.opening key.now) phase }
{
    if let Some(number) = kept.rows().number(key) {
        phases[number] = phase;
    }
}

// Gives the builder that in hand.
fn put_hand(hands: &mut Vec<Hand>, builder: BuilderNo, hand: Hand)
    requires within { (0 < builder) × (builder - 1 < length hands.old.items) }
    ensures { hands.new.items ≡ set hands.old.items (builder - 1) hand }
{
    hands[(builder - 1) as usize] = hand;
}

// The key that the builder holds, moved out of its hand, which is free then. A hand that holds none
// stays as it was.
fn take_held(hands: &mut Vec<Hand>, builder: BuilderNo) -> Option<Key>
    requires within { (0 < builder) × (builder - 1 < length hands.old.items) }
    ensures key { result ≡ held_in (slice_get hands.old.items (builder - 1)) }
    ensures free { IfSome result
        (λ key. hands.new.items ≡ set hands.old.items (builder - 1) Hand.Free) }
    ensures stays { IfNone result (hands.new.items ≡ hands.old.items) }
{
    let hand = &mut hands[(builder - 1) as usize];
    match mem::replace(hand, Hand::Free) {
        Hand::Holding(key) => Some(key),
        other => {
            *hand = other;
            None
        }
    }
}

impl World<'_> {
    pub(crate) fn offer(&mut self, key: &Key) -> Answer
        ensures answer { result ≡ answer_to self.old (Step.Offer key.now) }
        ensures after { self.new ≡ after self.old (Step.Offer key.now) }
    {
        if let Some(refusal) = self.offer_refusal(key) {
            return Answer::Refused(refusal);
        }
        put_phase(&self.kept, &mut self.phases, key, Phase::Open);
        Answer::Done
    }

    pub(crate) fn withdraw(&mut self, key: &Key) -> Answer
        ensures answer { result ≡ answer_to self.old (Step.Withdraw key.now) }
        ensures after { self.new ≡ after self.old (Step.Withdraw key.now) }
    {
        if let Some(refusal) = self.withdraw_refusal(key) {
            return Answer::Refused(refusal);
        }
        put_phase(&self.kept, &mut self.phases, key, Phase::Closed);
        Answer::Done
    }

    pub(crate) fn claim(&mut self, builder: BuilderNo, key: Key) -> Answer
        ensures answer { result ≡ answer_to self.old (Step.Claim builder key) }
        ensures after { self.new ≡ after self.old (Step.Claim builder key) }
    {
        if let Some(refusal) = self.claim_refusal(builder, &key) {
            return Answer::Refused(refusal);
        }
        put_phase(&self.kept, &mut self.phases, &key, Phase::Held(builder));
        put_hand(&mut self.hands, builder, Hand::Holding(key));
        Answer::Done
    }

    pub(crate) fn note(&mut self, key: &Key) -> Result<Answer, AllocError>
        ensures answer { IfOk result (λ answer. answer ≡ answer_to self.old (Step.Note key.now)) }
        ensures ok { OnOk result (self.new ≡ after self.old (Step.Note key.now)) }
        ensures err { OnErr result (self.new ≡ self.old) }
    {
        let builder = match self.phase(key) {
            None => return Ok(Answer::Refused(Refusal::NoSuchRow(None))),
            Some(Phase::Held(builder)) => *builder,
            Some(_) => return Ok(Answer::Refused(Refusal::NotHeld)),
        };
        let keys = Keys::of_one(self.alloc, key)?;
        let kind = Kind::Claim(builder);
        let n = self.kept.append(Entry { kind, keys })?;
        put_phase(&self.kept, &mut self.phases, key, Phase::Noted(builder));
        Ok(Answer::Entry(n))
    }

    pub(crate) fn commit(&mut self, kind: Kind, keys: KeyList) -> Result<Answer, AllocError>
        ensures answer { IfOk result
            (λ answer. answer ≡ answer_to self.old (Step.Commit kind keys)) }
        ensures ok { OnOk result (self.new ≡ after self.old (Step.Commit kind keys)) }
        ensures err { OnErr result (self.new ≡ self.old) }
    {
        match self.admit(&kind, keys) {
            Ok(keys) => Ok(Answer::Entry(self.kept.append(Entry { kind, keys })?)),
            Err(refusal) => Ok(Answer::Refused(refusal)),
        }
    }

    pub(crate) fn undo(&mut self, n: EntryNo) -> Answer
        ensures answer { result ≡ answer_to self.old (Step.Undo n) }
        ensures after { self.new ≡ after self.old (Step.Undo n) }
    {
        if let Some(refusal) = self.undo_refusal(n) {
            return Answer::Refused(refusal);
        }
        self.kept.undo(n);
        Answer::Undone(n)
    }

    pub(crate) fn finish(
        &mut self,
        builder: BuilderNo,
        outcome: Outcome,
    ) -> Result<Answer, AllocError>
        ensures answer { IfOk result
            (λ answer. answer ≡ answer_to self.old (Step.Finish builder outcome)) }
        ensures ok { OnOk result (self.new ≡ after self.old (Step.Finish builder outcome)) }
        ensures err { OnErr result (self.new ≡ self.old) }
    {
        if let Some(refusal) = self.finish_refusal(builder) {
            return Ok(Answer::Refused(refusal));
        }
        let told = outcome.copy()?;
        if let Some(key) = take_held(&mut self.hands, builder) {
            put_phase(
                &self.kept,
                &mut self.phases,
                &key,
                Phase::Done(builder, told),
            );
            put_hand(&mut self.hands, builder, Hand::Finished(key, outcome));
        }
        Ok(Answer::Done)
    }

    pub(crate) fn settle(&mut self, key: &Key) -> Result<Answer, AllocError>
        ensures answer { IfOk result (λ answer. answer ≡ answer_to self.old (Step.Settle key.now)) }
        ensures ok { OnOk result (self.new ≡ after self.old (Step.Settle key.now)) }
        ensures err { OnErr result (self.new ≡ self.old) }
    {
        let kind = match self.phase(key) {
            None => return Ok(Answer::Refused(Refusal::NoSuchRow(None))),
            Some(Phase::Done(builder, outcome)) => Kind::Outcome(*builder, outcome.copy()?),
            Some(_) => return Ok(Answer::Refused(Refusal::NotDone)),
        };
        let keys = Keys::of_one(self.alloc, key)?;
        let n = self.kept.append(Entry { kind, keys })?;
        put_phase(&self.kept, &mut self.phases, key, Phase::Closed);
        Ok(Answer::Entry(n))
    }

    pub(crate) fn release(&mut self, builder: BuilderNo) -> Answer
        ensures answer { result ≡ answer_to self.old (Step.Release builder) }
        ensures after { self.new ≡ after self.old (Step.Release builder) }
    {
        if let Some(refusal) = self.release_refusal(builder) {
            return Answer::Refused(refusal);
        }
        put_hand(&mut self.hands, builder, Hand::Free);
        Answer::Done
    }
}

impl World<'_> {
    /// Takes a step. Only a step that journals an entry or copies an outcome may want memory, and
    /// then nothing changed.
    pub fn try_step(&mut self, step: Step) -> Result<Answer, AllocError>
        ensures answer { IfOk result (λ answer. answer ≡ answer_to self.old step) }
        ensures ok { OnOk result (self.new ≡ after self.old step) }
        ensures err { OnErr result (self.new ≡ self.old) }
        ensures plain { takes_memory step ≡ false → IsOk result }
    {
        match step {
            Step::Offer(key) => Ok(self.offer(&key)),
            Step::Withdraw(key) => Ok(self.withdraw(&key)),
            Step::Claim(builder, key) => Ok(self.claim(builder, key)),
            Step::Note(key) => self.note(&key),
            Step::Commit(kind, keys) => self.commit(kind, keys),
            Step::Undo(n) => Ok(self.undo(n)),
            Step::Finish(builder, outcome) => self.finish(builder, outcome),
            Step::Settle(key) => self.settle(&key),
            Step::Release(builder) => Ok(self.release(builder)),
            Step::Arrive(key) => self.arrive(key),
            Step::Sweep => self.sweep(),
        }
    }

    /// Takes a step; if memory runs out, it answers a refusal.
    pub fn step(&mut self, step: Step) -> Answer
        ensures taken { result ≢ Answer.Refused Refusal.NoMemory
            → (result ≡ answer_to self.old step) × (self.new ≡ after self.old step) }
        ensures memory { result ≡ Answer.Refused Refusal.NoMemory
            → (self.new ≡ self.old) × (takes_memory step ≡ true) }
    {
        match self.try_step(step) {
            Ok(answer) => answer,
            Err(_) => Answer::Refused(Refusal::NoMemory),
        }
    }
}
