//! The rows of a state file, put over those with which a desk opens.
ghost use Rattle.std.specs.Prelude.{◌≡◌, Err, IfOk, IfErr};
ghost use Rattle.td_text.specs.Lines.{lines_of};
ghost use Rattle.td_core.specs.Phases.{NoneBuilt};
ghost use Rattle.td_rows.specs.StateFile.{IsStateFile};
ghost use Rattle.td_inputs.specs.Opened.{OrMemory, of_form};
ghost use Rattle.td_inputs.specs.inner.StateOver.{CanReplace, IsPutOver, IsRefusedIn, IsReplacedIn};

use crate::form_fault::FormFault;
use crate::lacking::first_lacking;
use crate::open_fault::{OpenFault, fault_of};
use std::alloc::Global;
use td_rows::{Rows, StateFault, read_state};

// The rows with those that were read of the text instead of the ones with their keys.
fn put_over(mut rows: Rows, text: &str, read: Result<Rows, StateFault>) -> Result<Rows, OpenFault>
    requires { IfOk read (IsStateFile (lines_of text.now)) }
    ensures put { IfOk read (λ given. IsPutOver rows text.now given result) }
    ensures refused { IfErr read (λ fault. result ≡ Err (of_form (FormFault.State fault))) }
{
    match read {
        Ok(given) => match rows.overlay(given) {
            Ok(()) => Ok(rows),
            Err(_) => {
                let number = first_lacking(&rows, text);
                Err(OpenFault::Refused(FormFault::NoSuchRow(number)))
            }
        },
        Err(fault) => Err(fault_of(FormFault::State(fault))),
    }
}

/// The rows with those of a state file instead of the ones with their keys.
pub fn put_state_over(alloc: Global, rows: Rows, text: &str) -> Result<Rows, OpenFault>
    requires { NoneBuilt rows }
    ensures rows { IfOk result (IsReplacedIn rows text.now) }
    ensures idle { IfOk result NoneBuilt }
    ensures refused { IfErr result (OrMemory (IsRefusedIn rows text.now)) }
    ensures only { IfErr result (λ fault. CanReplace rows text.now → fault ≡ OpenFault.NoMemory) }
{
    let read = read_state(alloc, text);
    put_over(rows, text, read)
}
