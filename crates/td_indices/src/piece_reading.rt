//! The stanzas of a text, of a long one in pieces that are read side by side.
ghost use Rattle.std.specs.Prelude.{ℕ, ◌++◌, List, IfOk, IfErr, IfSome};
ghost use denote.Param.Send.{IsSync};
ghost use Rattle.td_text.specs.Lines.{lines_of};
ghost use Rattle.td_stanza.specs.StanzaFaults.{IsFaultOf};
ghost use Rattle.td_stanza.specs.StanzaGrammar.{AreStanzas};
ghost use Rattle.td_indices.specs.inner.Pieces.{IsCutApart};

use crate::cutting::{HALVINGS, front_of, halved};
use crate::stanza_pieces::StanzaPieces;
use std::alloc::Global;
use std::thread;
use std::thread::Threads;
use td_stanza::{StanzaFault, stanzas};

/// The stanzas of a text as one piece, or its first fault as a control file.
fn read_whole<'a>(alloc: Global, text: &'a str) -> Result<StanzaPieces<'a>, StanzaFault>
    ensures found { IfOk result (λ list. AreStanzas list (lines_of text.now)) }
    ensures fault { IfErr result (IsFaultOf (lines_of text.now)) }
{
    match stanzas(alloc, text) {
        Ok(list) => match StanzaPieces::whole(alloc, list) {
            Ok(pieces) => Ok(pieces),
            Err(_) => Err(StanzaFault::NoMemory),
        },
        Err(fault) => Err(fault),
    }
}

/// The stanzas of two pieces, as those of the text that they were cut from.
#[tactic(auto, using(crate::proofs::Cuts::cut_stanzas))]
fn joined<'a>(
    front: Option<StanzaPieces<'a>>,
    rest: Option<StanzaPieces<'a>>,
) -> Option<StanzaPieces<'a>>
    ensures { (text before behind : List ℕ) → IsCutApart text before behind
        → IfSome front.entry (λ list. AreStanzas list (lines_of before))
        → IfSome rest.entry (λ list. AreStanzas list (lines_of behind))
        → IfSome result (λ list. AreStanzas list (lines_of text)) }
{
    let Some(front) = front else {
        return None;
    };
    let Some(rest) = rest else {
        return None;
    };
    StanzaPieces::joined(front, rest)
}

/// The stanzas of a text, if it has some, in pieces of a text that is long enough.
#[cycle(pieces)]
fn read_pieces<'a, R: Threads + Sync>(
    rt: &R,
    alloc: Global,
    text: &'a str,
    halvings: usize,
) -> Option<StanzaPieces<'a>>
    ensures { IfSome result (λ list. AreStanzas list (lines_of text.now)) }
{
    if halvings == 0 {
        return read_whole(alloc, text).ok();
    }
    match halved(text) {
        Some((before, behind)) => read_two(rt, alloc, before, behind, halvings - 1),
        None => read_whole(alloc, text).ok(),
    }
}

/// The stanzas of a text that is cut in two, if it has some, each part of it in pieces.
#[cycle(pieces)]
fn read_two<'a, R: Threads + Sync>(
    rt: &R,
    alloc: Global,
    before: &'a str,
    behind: &'a str,
    halvings: usize,
) -> Option<StanzaPieces<'a>>
    ensures { (text : List ℕ) → IsCutApart text before.now behind.now
        → IfSome result (λ list. AreStanzas list (lines_of text)) }
{
    let of_front = move || -> Option<StanzaPieces>
        requires { IsSync R.row }
        ensures { IfSome result (λ list. AreStanzas list (lines_of before.entry.now)) }
    { read_pieces(rt, alloc, before, halvings) };
    let of_rest = move || -> Option<StanzaPieces>
        requires { IsSync R.row }
        ensures { IfSome result (λ list. AreStanzas list (lines_of behind.entry.now)) }
    { read_pieces(rt, alloc, behind, halvings) };
    let (front, rest) = thread::join(rt, of_front, of_rest);
    joined(front, rest)
}

/// The stanzas of a text that came as its front and its rest, if it is cut before an empty line,
/// and has some.
pub fn read_halves<'a>(
    rt: &(impl Threads + Sync),
    alloc: Global,
    front: &'a str,
    rest: &'a str,
) -> Option<StanzaPieces<'a>>
    ensures { IfSome result (λ list. AreStanzas list (lines_of (front.now ++ rest.now))) }
{
    let before = front_of(front, rest)?;
    read_two(rt, alloc, before, rest, HALVINGS - 1)
}

/// The stanzas of a text, of a long one in pieces, or its first fault as a control file. A text
/// that has a fault, or that memory doesn't suffice for, is read again as a whole, so that its
/// lines are counted from its first.
pub fn read_stanzas<'a, R: Threads + Sync>(
    rt: &R,
    alloc: Global,
    text: &'a str,
) -> Result<StanzaPieces<'a>, StanzaFault>
    ensures found { IfOk result (λ list. AreStanzas list (lines_of text.now)) }
    ensures fault { IfErr result (IsFaultOf (lines_of text.now)) }
{
    match read_pieces(rt, alloc, text, HALVINGS) {
        Some(list) => Ok(list),
        None => read_whole(alloc, text),
    }
}
