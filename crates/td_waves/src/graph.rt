//! A graph turned around: who builds on a node.
ghost use Rattle.std.specs.Prelude.{◌≡◌, ℕ, [], ◌+◌, ◌<◌, ◌==◌, IfOk, OnOk, length, if◌then◌else◌};
ghost use Rattle.std.specs.List.{All};
ghost use Rattle.td_waves.specs.Graph.{bases_of, lists, uses};

use std::alloc::{AllocError, Global};

// Adds a node to the lists of those that it builds on.
fn enter(users: &mut Vec<Vec<usize>>, node: usize, bases: &[usize]) -> Result<(), AllocError>
    requires { All (λ b. b < length users.old.items) bases.now }
    ensures uses { OnOk result ((x t : ℕ) → uses x (bases_of (lists users.new.items) t) ≡ uses x
        (bases_of (lists users.old.items) t) + (if node == x then uses t bases.now else 0)) }
    ensures len { length users.new.items ≡ length users.old.items }
{
    for base in bases {
        users[*base].push(node)?;
    }
    Ok(())
}

// This many empty lists.
fn empty_lists(alloc: Global, count: usize) -> Result<Vec<Vec<usize>>, AllocError>
    ensures empty { IfOk result (λ users. (t : ℕ) → bases_of (lists users.items) t ≡ []) }
    ensures len { IfOk result (λ users. length users.items ≡ count) }
{
    let mut users = Vec::with_capacity(alloc, count)?;
    for _list in 0..count {
        users.push(Vec::new(alloc))?;
    }
    Ok(users)
}

/// For each node, those that build on it.
pub fn users_of(alloc: Global, graph: &[Vec<usize>]) -> Result<Vec<Vec<usize>>, AllocError>
    requires { All (λ bases. All (λ b. b < length graph.now) bases.items) graph.now }
    ensures uses { IfOk result (λ users. (x t : ℕ)
        → uses x (bases_of (lists users.items) t) ≡ uses t (bases_of (lists graph.now) x)) }
    ensures len { IfOk result (λ users. length users.items ≡ length graph.now) }
{
    let mut users = empty_lists(alloc, graph.len())?;
    for node in 0..graph.len() {
        enter(&mut users, node, &graph[node])?;
    }
    Ok(users)
}
