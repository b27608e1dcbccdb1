//! The parts of a graph, whose nodes build on one another, and their steps: Kosaraju's algorithm,
//! without recursion.
ghost use Rattle.std.specs.Prelude.{◌≡◌, ◌<◌, ◌≤◌, ℕ, IfOk, OnOk, length, slice_index};
ghost use Rattle.std.specs.List.{All, Contains};
ghost use Rattle.td_waves.specs.Graph.{BuildsOn, IsNode, lists};
ghost use Rattle.td_plan.specs.Parts.{ArePlaced, IsLeastOf};
ghost use Rattle.td_plan.specs.inner.Lists.{AreClear, AreSetTo, IsSet, count_set};
ghost use Rattle.td_plan.specs.inner.Searching.{AreNodes, AreTurned, AreUnderway, IsGraph};
ghost use Rattle.td_plan.specs.inner.Searching.{IsGreatestBelow, IsGreatestOf};

use crate::search::leaving_order;
use crate::strays::take_part;
use crate::turning::users_of;
use std::alloc::{AllocError, Global};

/// The parts of a graph with their steps.
#[derive(Drop)]
pub struct Parts {
    /// For each node the least node of its part.
    pub firsts: Vec<usize>,
    /// For each node the step of its part, from 1.
    pub steps: Vec<usize>,
}

// The least of some nodes.
fn least(nodes: &[usize]) -> usize
    requires { 0 < length nodes.now }
    ensures within { Contains nodes.now result }
    ensures least { All (λ n. result ≤ n) nodes.now }
{
    let mut least = nodes[0];
    for node in nodes {
        if *node < least {
            least = *node;
        }
    }
    least
}

// The greatest step of some nodes; a node without a step has 0.
fn greatest_of(nodes: &[usize], steps: &[usize]) -> usize
    requires { AreNodes (length steps.now) nodes.now }
    ensures { IsGreatestOf steps.now nodes.now result }
{
    let mut greatest = 0;
    for node in nodes {
        if steps[*node] > greatest {
            greatest = steps[*node];
        }
    }
    greatest
}

// The greatest step of the nodes on which the nodes of a part build.
fn greatest_below(graph: &[Vec<usize>], steps: &[usize], members: &[usize]) -> usize
    requires graph { IsGraph (length steps.now) graph.now }
    requires members { AreNodes (length graph.now) members.now }
    ensures { IsGreatestBelow (lists graph.now) steps.now members.now result }
{
    let mut greatest = 0;
    for member in members {
        let step = greatest_of(&graph[*member], steps);
        if step > greatest {
            greatest = step;
        }
    }
    greatest
}

// Gives nodes a number.
fn set_numbers(numbers: &mut Vec<usize>, nodes: &[usize], value: usize)
    requires { AreNodes (length numbers.old.items) nodes.now }
    ensures set { AreSetTo nodes.now 0 value numbers.old.items numbers.new.items }
    ensures len { length numbers.new.items ≡ length numbers.old.items }
{
    for node in nodes {
        numbers[*node] = value;
    }
}

// Takes a part of the nodes that are left: that of a root, or one on which it builds.
fn take_one(
    alloc: Global,
    graph: &[Vec<usize>],
    users: &[Vec<usize>],
    root: usize,
    left: &mut Vec<bool>,
    inside: &mut Vec<bool>,
    parts: &mut Parts,
) -> Result<(), AllocError>
    requires ways { AreTurned graph.now users.now }
    requires root { IsSet left.old.items root }
    requires clear { AreClear (length graph.now) inside.old.items }
    requires underway { AreUnderway (lists graph.now) left.old.items
        parts.old.firsts.items parts.old.steps.items }
    ensures clear { OnOk result (AreClear (length graph.now) inside.new.items) }
    ensures underway { OnOk result (AreUnderway (lists graph.now) left.new.items
        parts.new.firsts.items parts.new.steps.items) }
    ensures fewer { OnOk result (count_set left.new.items < count_set left.old.items) }
    ensures was { OnOk result
        ((n : ℕ) → IsSet left.new.items n → IsSet left.old.items n) }
{
    let nodes = take_part(alloc, graph, users, root, left, inside)?;
    let below = greatest_below(graph, &parts.steps, &nodes);
    set_numbers(&mut parts.firsts, &nodes, least(&nodes));
    set_numbers(&mut parts.steps, &nodes, below + 1);
    Ok(())
}

// Takes the part of a root, and before it the parts on which it builds.
fn take_all(
    alloc: Global,
    graph: &[Vec<usize>],
    users: &[Vec<usize>],
    root: usize,
    left: &mut Vec<bool>,
    inside: &mut Vec<bool>,
    parts: &mut Parts,
) -> Result<(), AllocError>
    requires ways { AreTurned graph.now users.now }
    requires root { root < length graph.now }
    requires clear { AreClear (length graph.now) inside.old.items }
    requires underway { AreUnderway (lists graph.now) left.old.items
        parts.old.firsts.items parts.old.steps.items }
    ensures clear { OnOk result (AreClear (length graph.now) inside.new.items) }
    ensures underway { OnOk result (AreUnderway (lists graph.now) left.new.items
        parts.new.firsts.items parts.new.steps.items) }
    ensures taken { OnOk result (¬ IsSet left.new.items root) }
    ensures was { OnOk result
        ((n : ℕ) → IsSet left.new.items n → IsSet left.old.items n) }
{
    while left[root] {
        take_one(alloc, graph, users, root, left, inside, parts)?;
    }
    Ok(())
}

/// The parts of a graph, which has for each node the list of those that it builds on. Two nodes are
/// of one part if each builds on the other, directly or round about.
///
/// That the parts are right doesn't rest on the order in which their roots are tried: a root whose
/// part isn't all that a way leads to waits until that is taken. In the order in which a search of
/// the graph turned around leaves the nodes, none has to (Kosaraju's algorithm), so that each edge
/// is gone along a few times in all.
pub fn parts_of(alloc: Global, graph: &[Vec<usize>]) -> Result<Parts, AllocError>
    requires { IsGraph (length graph.now) graph.now }
    ensures firsts_len { IfOk result (λ parts. length parts.firsts.items ≡ length graph.now) }
    ensures steps_len { IfOk result (λ parts. length parts.steps.items ≡ length graph.now) }
    ensures placed { IfOk result (λ parts. ArePlaced (IsNode (lists graph.now))
        (BuildsOn (lists graph.now)) (λ node. slice_index parts.firsts.items node)
        (λ node. slice_index parts.steps.items node)) }
    ensures low { IfOk result (λ parts. (node : ℕ)
        → slice_index parts.steps.items node ≤ length graph.now) }
    ensures firsts { IfOk result (λ parts. (node : ℕ) → IsNode (lists graph.now) node
        → IsLeastOf (IsNode (lists graph.now)) (BuildsOn (lists graph.now))
        (slice_index parts.firsts.items node) node) }
{
    let users = users_of(alloc, graph)?;
    let mut order = leaving_order(alloc, &users)?;
    let mut left = vec![in alloc; true; graph.len()]?;
    let mut inside = vec![in alloc; false; graph.len()]?;
    let mut parts = Parts {
        firsts: vec![in alloc; 0; graph.len()]?,
        steps: vec![in alloc; 0; graph.len()]?,
    };
    while let Some(root) = order.pop() {
        take_all(
            alloc,
            graph,
            &users,
            root,
            &mut left,
            &mut inside,
            &mut parts,
        )?;
    }
    for node in 0..graph.len() {
        take_all(
            alloc,
            graph,
            &users,
            node,
            &mut left,
            &mut inside,
            &mut parts,
        )?;
    }
    Ok(parts)
}
