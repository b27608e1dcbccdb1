//! The texts that a run is over, lent by its inputs.
ghost use Rattle.std.specs.Prelude.{◌<◌, ◌^◌, length};

use crate::inputs::Inputs;
use td_inputs::given_text;

/// The texts of the files, and the suite that a command may name.
#[derive(Clone, Copy)]
pub struct Files<'i> {
    pub archs: &'i str,
    pub packages: &'i str,
    pub sources: &'i str,
    pub state: Option<&'i str>,
    pub tracker: Option<&'i str>,
    pub journal: Option<&'i str>,
    pub suite: &'i str,
    ghost within: { length archs.now < 2 ^ 63 },
}

impl<'i> Files<'i> {
    ghost use Rattle.std.specs.Prelude.{◌≡◌};
    ghost use Rattle.td_script.specs.Openings.{texts_lent, texts_of};
    ghost use Rattle.td_inputs.specs.Inputs.{without_journal};

    /// The texts of the inputs.
    pub fn of(inputs: &'i Inputs) -> Files<'i>
        ensures { texts_lent result ≡ texts_of inputs.now }
    {
        Files {
            archs: inputs.archs.as_str(),
            packages: inputs.packages.as_str(),
            sources: inputs.sources.as_str(),
            state: given_text(&inputs.state),
            tracker: given_text(&inputs.tracker),
            journal: given_text(&inputs.journal),
            suite: inputs.suite.as_str(),
        }
    }

    /// These texts without the journal.
    pub fn without_journal(mut self) -> Files<'i>
        ensures { texts_lent result ≡ without_journal (texts_lent self.entry) }
    {
        self.journal = None;
        self
    }
}
