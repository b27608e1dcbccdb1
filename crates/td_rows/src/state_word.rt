//! The word of a state, read and written.
ghost use Rattle.std.specs.Prelude.{◌≡◌, ◌++◌, OnOk, OnErr, codes, decimal};
ghost use Rattle.std.specs.String.{string_bytes};
ghost use Rattle.td_rows.specs.Appending.{Grown};
ghost use Rattle.td_rows.specs.StateWord.{state_word, state_at};

use crate::state::{BuilderNo, State};
use std::alloc::AllocError;
use td_text::{number, put_number, strip};

/// The state that a word is.
#[tactic(auto, unfolding(crate::specs::StateWord::state_at))]
pub fn read_state_word(text: &str) -> Option<State>
    ensures { result ≡ state_at text.now }
{
    match text {
        "Needs-Build" => Some(State::NeedsBuild),
        "Built" => Some(State::Built),
        "Uploaded" => Some(State::Uploaded),
        "Installed" => Some(State::Installed),
        "Dep-Wait" => Some(State::DepWait),
        "BD-Uninstallable" => Some(State::BdUninstallable),
        "Build-Attempted" => Some(State::BuildAttempted),
        "Failed" => Some(State::Failed),
        "Not-For-Us" => Some(State::NotForUs),
        _ => {
            let digits = strip(text, "Building=")?;
            let builder = number(digits, u64::MAX)?;
            Some(State::Building(builder))
        }
    }
}

#[tactic(auto, using(crate::proofs::Appends::growing))]
fn put_building(out: &mut String, builder: BuilderNo) -> Result<(), AllocError>
    ensures ok { OnOk result (string_bytes out.new
        ≡ string_bytes out.old ++ (codes "Building=" ++ decimal builder)) }
    ensures front { Grown (string_bytes out.old) (string_bytes out.new) }
{
    out.push_str("Building=")?;
    put_number(out, builder)
}

#[tactic(auto, using(crate::proofs::Appends::growing))]
fn put_word(out: &mut String, state: State) -> Result<(), AllocError>
    ensures ok { OnOk result (string_bytes out.new ≡ string_bytes out.old ++ state_word state) }
    ensures front { Grown (string_bytes out.old) (string_bytes out.new) }
{
    match state {
        State::Building(builder) => put_building(out, builder),
        State::NeedsBuild => out.push_str("Needs-Build"),
        State::Built => out.push_str("Built"),
        State::Uploaded => out.push_str("Uploaded"),
        State::Installed => out.push_str("Installed"),
        State::DepWait => out.push_str("Dep-Wait"),
        State::BdUninstallable => out.push_str("BD-Uninstallable"),
        State::BuildAttempted => out.push_str("Build-Attempted"),
        State::Failed => out.push_str("Failed"),
        State::NotForUs => out.push_str("Not-For-Us"),
    }
}

/// Appends the state's word; where memory runs out nothing.
pub fn put_state_word(out: &mut String, state: State) -> Result<(), AllocError>
    ensures ok { OnOk result (string_bytes out.new ≡ string_bytes out.old ++ state_word state) }
    ensures err { OnErr result (string_bytes out.new ≡ string_bytes out.old) }
{
    let start = out.len();
    let done = put_word(out, state);
    if done.is_err() {
        out.truncate(start);
    }
    done
}
