//! Which rows the offers free, and the step that frees them.
ghost use Rattle.std.specs.Prelude.{◌≡◌, [], ◌∷◌, ◌++◌, if◌then◌else◌, IfOk, OnOk, OnErr};
ghost use Rattle.td_core.specs.Offers.{is_freed as is_freed_by, freed as freed_by};
ghost use Rattle.td_core.specs.Steps.{answer_to, after};
ghost use Rattle.td_core.specs.declared.step.Step.{Step};

use crate::step::Answer;
use crate::world::World;
use std::alloc::{AllocError, Global};
use td_journal::{Entry, Keys};
use td_rows::{Key, Kind, Row, Rows, applies};
use td_supply::Supply;

// Whether the offers free the row: it waits for what they meet, and its rebuild for nothing more.
fn is_freed(supply: &Supply<'_>, key: &Key, row: &Row) -> Result<bool, AllocError>
    ensures { IfOk result (λ is. is ≡ is_freed_by supply.now (key.now, row.now)) }
{
    if !applies(&Kind::Sweep, row) || !supply.meets(row.dep_wait.as_str(), key.arch())? {
        return Ok(false);
    }
    if row.extra.is_empty() {
        return Ok(true);
    }
    supply.meets(row.extra.as_str(), key.arch())
}

// Adds the key after the others if the offers free the row.
fn push_freed(
    keys: &mut Vec<Key>,
    supply: &Supply<'_>,
    key: &Key,
    row: &Row,
) -> Result<(), AllocError>
    ensures { OnOk result (keys.new.items ≡ keys.old.items
        ++ (if is_freed_by supply.now (key.now, row.now) then key.now ∷ [] else [])) }
{
    if is_freed(supply, key, row)? {
        keys.push(key.copy()?)?;
    }
    Ok(())
}

/// The keys of the rows that the offers free, in their order.
pub(crate) fn freed(alloc: Global, supply: &Supply<'_>, rows: &Rows) -> Result<Vec<Key>, AllocError>
    ensures { IfOk result (λ keys. keys.items ≡ freed_by supply.now rows.now) }
{
    let mut keys = Vec::new(alloc);
    for number in 0..rows.len() {
        if let Some((key, row)) = rows.at(number) {
            push_freed(&mut keys, supply, key, row)?;
        }
    }
    Ok(keys)
}

impl World<'_> {
    pub(crate) fn sweep(&mut self) -> Result<Answer, AllocError>
        ensures answer { IfOk result (λ answer. answer ≡ answer_to self.old Step.Sweep) }
        ensures ok { OnOk result (self.new ≡ after self.old Step.Sweep) }
        ensures err { OnErr result (self.new ≡ self.old) }
    {
        let keys = self.kept.freed(self.alloc)?;
        if keys.is_empty() {
            return Ok(Answer::Nothing);
        }
        let keys = Keys::new(keys);
        let kind = Kind::Sweep;
        Ok(Answer::Entry(self.kept.append(Entry { kind, keys })?))
    }
}
