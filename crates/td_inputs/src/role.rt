//! What a text is read as, and the label of that.
ghost use Rattle.std.specs.Prelude.{◌≡◌};
ghost use Rattle.td_inputs.specs.Faults.{label_of};

/// What a text is read as.
#[derive(Clone, Copy, Debug, PartialEq, Eq, Drop)]
pub enum Role {
    /// Standard input.
    Input,
    /// The table of architectures.
    Archs,
    /// The Packages index.
    Packages,
    /// The Sources index.
    Sources,
    /// The rows that are used instead of others.
    State,
    /// The tracker.
    Tracker,
    /// How the builds of a crew end.
    Outcomes,
    /// The journal that is gone on with.
    Journal,
}

impl Role {
    /// What is printed before a text's fault.
    pub fn label(self) -> &'static str
        ensures { result.now ≡ label_of self }
    {
        match self {
            Role::Input => "input: ",
            Role::Archs => "archs: ",
            Role::Packages => "packages: ",
            Role::Sources => "sources: ",
            Role::State => "state: ",
            Role::Tracker => "tracker: ",
            Role::Outcomes => "outcomes: ",
            Role::Journal => "journal: ",
        }
    }
}
