//! A level for each node, one level after the other.
ghost use Rattle.std.specs.Prelude.{◌≡◌, ℕ, ◌+◌, ◌-◌, ◌<◌, ◌≤◌, ◌==◌, ◌^◌, ◌∷◌, [], ◌++◌, IfOk};
ghost use Rattle.std.specs.Prelude.{OnOk, length, map, slice_index, slice_index_or, slice_set};
ghost use Rattle.std.specs.Prelude.{if◌then◌else◌};
ghost use Rattle.std.specs.List.{All};
ghost use Rattle.td_waves.specs.Graph.{BuildsOn, IsNode, bases_of, freed, lists, raised, uses};
ghost use Rattle.td_waves.specs.Levels.{IsDepth, StandsAt};
ghost use Rattle.td_waves.specs.Levelling.{HasNumber, level_of};

use crate::graph::users_of;
use crate::level::Level;
use std::alloc::{AllocError, Global};

/// A level for each node.
#[derive(Drop)]
pub struct Levelling {
    // 0 for what is in no level.
    numbers: Vec<usize>,
    depth: usize,
}

impl Levelling {
    /// The level of a node.
    pub fn level(&self, node: usize) -> Option<Level>
        ensures { result ≡ level_of self.now node }
    {
        match self.numbers.get(node) {
            None => None,
            Some(0) => Some(Level::Cyclic),
            Some(number) => Some(Level::At(*number)),
        }
    }

    /// How many levels there are.
    pub fn depth(&self) -> usize
        ensures { result ≡ self.now.depth }
    {
        self.depth
    }
}

// The greatest of numbers; 0 where there are none.
fn greatest(numbers: &[usize]) -> usize
    ensures within { (i : ℕ) → slice_index_or numbers.now i 0 ≤ result }
    ensures reached { 0 < result → HasNumber numbers.now result }
{
    let mut greatest = 0;
    for number in numbers {
        if *number > greatest {
            greatest = *number;
        }
    }
    greatest
}

// How many nodes each node builds on.
fn bases_left(alloc: Global, graph: &[Vec<usize>]) -> Result<Vec<usize>, AllocError>
    ensures { IfOk result (λ left. left.items ≡ map length (lists graph.now)) }
{
    let mut left = Vec::with_capacity(alloc, graph.len())?;
    for bases in graph {
        left.push(bases.len())?;
    }
    Ok(left)
}

// The nodes with nothing left.
fn ready_nodes(alloc: Global, left: &[usize]) -> Result<Vec<usize>, AllocError>
    ensures { IfOk result (λ ready. (s : ℕ)
        → uses s ready.items ≡ (if slice_index_or left.now s 1 == 0 then 1 else 0)) }
{
    let mut ready = Vec::new(alloc);
    for (node, count) in left.iter().enumerate() {
        if *count == 0 {
            ready.push(node)?;
        }
    }
    Ok(ready)
}

// One that a node builds on is placed at a level.
fn free(
    user: usize,
    level: usize,
    left: &mut Vec<usize>,
    heights: &mut Vec<usize>,
    ready: &mut Vec<usize>,
) -> Result<(), AllocError>
    requires some { 0 < slice_index left.old.items user }
    requires tall { length heights.old.items ≡ length left.old.items }
    requires level { level + 1 < 2 ^ 64 }
    ensures left { left.new.items
        ≡ slice_set left.old.items user (slice_index left.old.items user - 1) }
    ensures heights { heights.new.items
        ≡ slice_set heights.old.items user (raised level (slice_index heights.old.items user)) }
    ensures ready { OnOk result
        (ready.new.items ≡ (if slice_index left.old.items user - 1 == 0 then ready.old.items
        ++ user ∷ [] else ready.old.items)) }
{
    left[user] -= 1;
    if heights[user] <= level {
        heights[user] = level + 1;
    }
    if left[user] == 0 {
        ready.push(user)?;
    }
    Ok(())
}

// One on which these build is placed at a level.
fn release(
    users: &[usize],
    level: usize,
    left: &mut Vec<usize>,
    heights: &mut Vec<usize>,
    ready: &mut Vec<usize>,
) -> Result<(), AllocError>
    requires counted { (s : ℕ) → uses s users.now ≤ slice_index left.old.items s }
    requires tall { length heights.old.items ≡ length left.old.items }
    requires level { level + 1 < 2 ^ 64 }
    ensures left { OnOk result ((s : ℕ)
        → slice_index left.new.items s + uses s users.now ≡ slice_index left.old.items s) }
    ensures heights { OnOk result
        ((s : ℕ) → slice_index heights.new.items s
        ≡ (if uses s users.now == 0 then slice_index heights.old.items s else raised level
        (slice_index heights.old.items s))) }
    ensures ready { OnOk result ((s : ℕ) → uses s ready.new.items ≡ uses s ready.old.items
        + freed (slice_index left.old.items s) (slice_index left.new.items s)) }
    ensures left_len { length left.new.items ≡ length left.old.items }
    ensures heights_len { length heights.new.items ≡ length heights.old.items }
{
    for user in users {
        free(*user, level, left, heights, ready)?;
    }
    Ok(())
}

/// The level of each node of a graph, which has for each node the list of those that it builds on.
pub fn levels(alloc: Global, graph: &[Vec<usize>]) -> Result<Levelling, AllocError>
    requires { All (λ bases. All (λ b. b < length graph.now) bases.items) graph.now }
    ensures levels { IfOk result (λ levelling. (node : ℕ) → StandsAt (IsNode (lists graph.now))
        (BuildsOn (lists graph.now)) node (level_of levelling node)) }
    ensures depth { IfOk result (λ levelling. IsDepth (level_of levelling) levelling.depth) }
{
    let users = users_of(alloc, graph)?;
    let mut left = bases_left(alloc, graph)?;
    let mut ready = ready_nodes(alloc, &left)?;
    let mut heights = vec![in alloc; 1; graph.len()]?;
    let mut numbers = vec![in alloc; 0; graph.len()]?;
    while let Some(node) = ready.pop() {
        let level = heights[node];
        numbers[node] = level;
        release(&users[node], level, &mut left, &mut heights, &mut ready)?;
    }
    let depth = greatest(&numbers);
    Ok(Levelling { numbers, depth })
}
