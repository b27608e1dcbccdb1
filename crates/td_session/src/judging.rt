//! Why texts are refused.
ghost use Rattle.std.specs.Prelude.{◌≡◌, ⊤};
ghost use Rattle.td_inputs.specs.Inputs.{AreReadable};
ghost use Rattle.td_inputs.specs.Opened.{texts_of as texts_opened};
ghost use Rattle.td_script.specs.OpeningInside.{opening_texts};
ghost use Rattle.td_session.specs.Grounds.{texts_of};
ghost use Rattle.td_session.specs.inner.Judging.{IsPatternOr, IsRefusalOf, of_judged};

use crate::fault::SessionFault;
use crate::texts::SessionTexts;
use std::alloc::Global;
use std::thread::Threads;
use td_indices::IndexText;
use td_inputs::{InputTexts, OpenFault, Opened, given_text, open_texts};

// The texts as they are opened one after the other.
fn lent<'i>(rt: &(impl Threads + Sync), alloc: Global, texts: &'i SessionTexts) -> InputTexts<'i>
    ensures { texts_opened result ≡ opening_texts (texts_of texts.now) }
{
    let packages = IndexText::read(rt, alloc, texts.packages.as_str());
    let sources = IndexText::read(rt, alloc, texts.sources.as_str());
    InputTexts {
        archs: texts.archs.as_str(),
        packages,
        sources,
        state: given_text(&texts.state),
        tracker: given_text(&texts.tracker),
    }
}

// Why a session ends that has no ground, by what the opening of its texts came to.
fn fault_of(opened: Result<(), OpenFault>) -> SessionFault
    ensures { result ≡ of_judged opened }
{
    match opened {
        Ok(()) | Err(OpenFault::NoMemory) => SessionFault::NoMemory,
        Err(OpenFault::Refused(fault)) => SessionFault::Input(fault),
    }
}

/// Why a session has no ground: the first fault of its texts, or else memory ran out. The texts are
/// read once more, one after the other.
pub(crate) fn why_no_ground(
    rt: &(impl Threads + Sync),
    alloc: Global,
    texts: &SessionTexts,
) -> SessionFault
    ensures refused { IsRefusalOf (texts_of texts.now) result }
    ensures only { AreReadable (texts_of texts.now) → IsPatternOr (texts_of texts.now) result }
{
    let read = lent(rt, alloc, texts);
    let opened = open_texts(
        rt,
        alloc,
        read,
        |_opened: Opened|
            ensures { ⊤ }
        {},
    );
    fault_of(opened)
}
