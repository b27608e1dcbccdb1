//! A part of a graph that no way leads out of, taken by searches of the graph both ways.
ghost use Rattle.std.specs.Prelude.{◌≡◌, ◌<◌, ℕ, IfOk, MatchOption, OnOk, false, length};
ghost use Rattle.std.specs.List.{All, Contains};
ghost use Rattle.td_waves.specs.Graph.{lists};
ghost use Rattle.td_plan.specs.inner.Lists.{AreClear, AreOnePart, AreSetTo, IsSet, IsStray};
ghost use Rattle.td_plan.specs.inner.Searching.{AreNodes, AreTurned, IsGraph};

use crate::search::reach;
use std::alloc::{AllocError, Global};

// Gives the flags of nodes a value.
fn set_flags(flags: &mut Vec<bool>, nodes: &[usize], value: bool)
    requires { AreNodes (length flags.old.items) nodes.now }
    ensures set { AreSetTo nodes.now false value flags.old.items flags.new.items }
    ensures len { length flags.new.items ≡ length flags.old.items }
{
    for node in nodes {
        flags[*node] = value;
    }
}

// The first of some nodes whose flag is set.
fn first_set(flags: &[bool], nodes: &[usize]) -> Option<usize>
    requires { AreNodes (length flags.now) nodes.now }
    ensures { MatchOption result (All (λ n. ¬ IsSet flags.now n) nodes.now)
        (λ node. Contains nodes.now node × IsSet flags.now node) }
{
    for node in nodes {
        if flags[*node] {
            return Some(*node);
        }
    }
    None
}

// One of some nodes to which no way leads from a root over these, found by a flag for each node of
// the graph; all flags are clear before and after.
fn stray(
    alloc: Global,
    graph: &[Vec<usize>],
    root: usize,
    nodes: &[usize],
    inside: &mut Vec<bool>,
) -> Result<Option<usize>, AllocError>
    requires within { IsGraph (length graph.now) graph.now }
    requires root { Contains nodes.now root }
    requires nodes { AreNodes (length graph.now) nodes.now }
    requires clear { AreClear (length graph.now) inside.old.items }
    ensures clear { OnOk result (AreClear (length graph.now) inside.new.items) }
    ensures stray { IfOk result (IsStray (lists graph.now) root nodes.now) }
{
    set_flags(inside, nodes, true);
    let _led = reach(alloc, graph, root, inside)?;
    let found = first_set(inside.as_slice(), nodes);
    set_flags(inside, nodes, false);
    Ok(found)
}

/// The nodes of a part, of the nodes that are left: that of the root, if it is all that a way leads
/// to, else one on which that builds.
pub fn take_part(
    alloc: Global,
    graph: &[Vec<usize>],
    users: &[Vec<usize>],
    root: usize,
    left: &mut Vec<bool>,
    inside: &mut Vec<bool>,
) -> Result<Vec<usize>, AllocError>
    requires ways { AreTurned graph.now users.now }
    requires len { length left.old.items ≡ length graph.now }
    requires root { IsSet left.old.items root }
    requires clear { AreClear (length graph.now) inside.old.items }
    ensures len { length left.new.items ≡ length left.old.items }
    ensures clear { OnOk result (AreClear (length graph.now) inside.new.items) }
    ensures part { IfOk result (λ nodes.
        AreOnePart (lists graph.now) left.old.items nodes.items left.new.items) }
{
    let mut root = root;
    let mut nodes = reach(alloc, graph, root, left)?;
    while let Some(other) = stray(alloc, users, root, &nodes, inside)? {
        set_flags(left, &nodes, true);
        root = other;
        nodes = reach(alloc, graph, root, left)?;
    }
    Ok(nodes)
}
