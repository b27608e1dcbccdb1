//! Two searches of a graph, without recursion: the order in which a search leaves the nodes, and
//! the nodes that a way leads to.

ghost use Rattle.std.specs.Prelude.{◌≡◌, ◌<◌, ℕ, IfOk, OnOk, length};
ghost use Rattle.std.specs.List.{All, Contains};
ghost use Rattle.td_waves.specs.Graph.{lists};
ghost use Rattle.td_plan.specs.inner.Lists.{AreReached, AreTakenOf, IsSet};
ghost use Rattle.td_plan.specs.inner.Searching.{IsGraph};

use std::alloc::{AllocError, Global};

/// A node that a search is at, and how many of its edges it has gone along.
#[derive(Clone, Copy)]
struct Visit {
    node: usize,
    gone: usize,
}

// Goes from a root to all nodes that weren't seen and that a way leads to, and adds each to the
// order once all its edges were gone along. It takes at most `turns` turns.
fn leave_from(
    alloc: Global,
    graph: &[Vec<usize>],
    root: usize,
    turns: usize,
    seen: &mut Vec<bool>,
    order: &mut Vec<usize>,
) -> Result<(), AllocError>
    requires within { All (λ bases. All (λ b. b < length graph.now) bases.items) graph.now }
    requires root { root < length graph.now }
    requires len { length seen.old.items ≡ length graph.now }
    requires order { All (λ n. n < length graph.now) order.old.items }
    ensures len { length seen.new.items ≡ length seen.old.items }
    ensures order { All (λ n. n < length graph.now) order.new.items }
{
    let mut stack = Vec::new(alloc);
    seen[root] = true;
    stack.push(Visit {
        node: root,
        gone: 0,
    })?;
    for _turn in 0..turns {
        let Some(visit) = stack.pop() else {
            return Ok(());
        };
        let bases: &[usize] = &graph[visit.node];
        if visit.gone < bases.len() {
            let next = bases[visit.gone];
            stack.push(Visit {
                node: visit.node,
                gone: visit.gone + 1,
            })?;
            if !seen[next] {
                seen[next] = true;
                stack.push(Visit {
                    node: next,
                    gone: 0,
                })?;
            }
        } else {
            order.push(visit.node)?;
        }
    }
    Ok(())
}

// How often nodes and their edges are looked at in a search of a graph.
fn turns_of(graph: &[Vec<usize>]) -> usize {
    let mut turns: usize = graph.len();
    for bases in graph {
        turns = turns.saturating_add(bases.len());
    }
    turns
}

/// The nodes in the order in which a search that goes deep first leaves them.
pub fn leaving_order(alloc: Global, graph: &[Vec<usize>]) -> Result<Vec<usize>, AllocError>
    requires within { All (λ bases. All (λ b. b < length graph.now) bases.items) graph.now }
    ensures nodes { IfOk result (λ order. All (λ n. n < length graph.now) order.items) }
{
    let turns = turns_of(graph);
    let mut seen = vec![in alloc; false; graph.len()]?;
    let mut order = Vec::with_capacity(alloc, graph.len())?;
    for root in 0..graph.len() {
        if !seen[root] {
            leave_from(alloc, graph, root, turns, &mut seen, &mut order)?;
        }
    }
    Ok(order)
}

// Adds those of some nodes whose flag is set, and clears it.
fn push_set(
    nodes: &mut Vec<usize>,
    among: &[usize],
    flags: &mut Vec<bool>,
) -> Result<(), AllocError>
    requires within { All (λ n. n < length flags.old.items) among.now }
    requires apart { (n : ℕ) → IsSet flags.old.items n → ¬ Contains nodes.old.items n }
    ensures len { length flags.new.items ≡ length flags.old.items }
    ensures taken { OnOk result (AreTakenOf among.now nodes.old.items flags.old.items
        nodes.new.items flags.new.items) }
{
    for node in among {
        if flags[*node] {
            flags[*node] = false;
            nodes.push(*node)?;
        }
    }
    Ok(())
}

/// The nodes to which a way leads from a root over nodes whose flag is set, as the root's is. Their
/// flags are cleared.
pub fn reach(
    alloc: Global,
    graph: &[Vec<usize>],
    root: usize,
    flags: &mut Vec<bool>,
) -> Result<Vec<usize>, AllocError>
    requires within { IsGraph (length graph.now) graph.now }
    requires root { IsSet flags.old.items root }
    requires len { length flags.old.items ≡ length graph.now }
    ensures len { length flags.new.items ≡ length flags.old.items }
    ensures reached { IfOk result (λ nodes.
        AreReached (lists graph.now) root flags.old.items nodes.items flags.new.items) }
{
    let mut nodes = Vec::new(alloc);
    flags[root] = false;
    nodes.push(root)?;
    let mut done = 0;
    while done < nodes.len() {
        let node = nodes[done];
        push_set(&mut nodes, &graph[node], flags)?;
        done += 1;
    }
    Ok(nodes)
}
