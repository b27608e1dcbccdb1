//! The word that begins the line of a step.
ghost use Rattle.std.specs.Prelude.{◌≡◌};
ghost use Rattle.td_simulate.specs.StepReading.{verb_at};

/// The word that begins the line of a step that is no command.
#[derive(Clone, Copy)]
pub enum Verb {
    Offer,
    Withdraw,
    Claim,
    Note,
    Undo,
    Finish,
    Settle,
    Release,
    Arrive,
}

/// The verb that a word is.
#[tactic(auto, unfolding(crate::specs::StepReading::verb_at))]
pub fn read_verb(word: &str) -> Option<Verb>
    ensures { result ≡ verb_at word.now }
{
    match word {
        "offer" => Some(Verb::Offer),
        "withdraw" => Some(Verb::Withdraw),
        "claim" => Some(Verb::Claim),
        "note" => Some(Verb::Note),
        "undo" => Some(Verb::Undo),
        "finish" => Some(Verb::Finish),
        "settle" => Some(Verb::Settle),
        "release" => Some(Verb::Release),
        "arrive" => Some(Verb::Arrive),
        _ => None,
    }
}
