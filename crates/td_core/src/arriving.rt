//! The step of an arrival.
ghost use Rattle.std.specs.Prelude.{◌≡◌, IfOk, OnOk, OnErr};
ghost use Rattle.td_core.specs.Steps.{answer_to, after};
ghost use Rattle.td_core.specs.declared.step.Step.{Step};

use crate::step::{Answer, Refusal};
use crate::world::World;
use std::alloc::AllocError;
use td_rows::{Key, Kind, applies};

impl World<'_> {
    pub(crate) fn arrive(&mut self, key: Key) -> Result<Answer, AllocError>
        ensures answer { IfOk result (λ answer. answer ≡ answer_to self.old (Step.Arrive key)) }
        ensures ok { OnOk result (self.new ≡ after self.old (Step.Arrive key)) }
        ensures err { OnErr result (self.new ≡ self.old) }
    {
        let Some(row) = self.kept.rows().get(&key) else {
            return Ok(Answer::Refused(Refusal::NoSuchRow(None)));
        };
        if !applies(&Kind::Arrive, row) {
            return Ok(Answer::Refused(Refusal::DoesNotApply(key)));
        }
        let number = row.number;
        Ok(Answer::Entry(self.kept.arrive(&key, number)?))
    }
}
