// Lists of numbers, one after another.
ghost use Rattle.std.specs.Prelude.{◌≡◌, ◌<◌, ◌≤◌, [], ◌∷◌, ◌++◌, length, slice_index_or, slice_range, OnOk, OnErr};
ghost use Rattle.net_graph.specs.Rows.{start_at};

use std::alloc::{AllocError, Global};
use std::marker::Model;

/// For each node the list of its ends. Contracts see a list of lists; the numbers of all lists stand in one piece of memory.
#[derive(Drop)]
pub struct Graph {
    stops: Vec<usize>,
    ends: Vec<usize>,
}

impl Model for Graph {
    ghost use Rattle.std.specs.Prelude.{ℕ, List, length};
    ghost use Rattle.net_graph.specs.Rows.{Rise, rows};

    ghost Value = { List (List ℕ) };

    ghost view = { λ g. rows 0 g.stops.items g.ends.items };

    ghost invariant = { λ g. Rise 0 g.stops.items (length g.ends.items) };
}

impl Graph {
    /// A graph without nodes.
    pub fn new(alloc: Global) -> Graph
        ensures { result ≡ [] }
    {
        Graph {
            stops: Vec::new(alloc),
            ends: Vec::new(alloc),
        }
    }

    /// How many nodes there are.
    pub fn len(&self) -> usize
        ensures { result ≡ length self.now }
    {
        self.stops.len()
    }

    /// Appends a node with these ends. They may be nodes that are appended later.
    pub fn push_row(&mut self, row: &[usize]) -> Result<(), AllocError>
        ensures ok { OnOk result (self.new ≡ self.old ++ row.now ∷ []) }
        ensures err { OnErr result (self.new ≡ self.old) }
    {
        self.stops.reserve(1)?;
        self.ends.extend_from_slice(row)?;
        self.stops.push(self.ends.len())?;
        Ok(())
    }

    /// The ends of a node.
    pub fn row(&self, node: usize) -> &[usize]
        requires { node < length self.now }
        ensures { result.now ≡ slice_index_or self.now node [] }
    {
        part(&self.ends, start(&self.stops, node), self.stops[node])
    }
}

// Where the ends of a node begin.
fn start(stops: &[usize], node: usize) -> usize
    requires { node < length stops.now }
    ensures { result ≡ start_at 0 stops.now node }
{
    if node == 0 { 0 } else { stops[node - 1] }
}

fn part(ends: &[usize], from: usize, to: usize) -> &[usize]
    requires rise { from ≤ to }
    requires within { to ≤ length ends.now }
    ensures { result.now ≡ slice_range ends.now from to }
{
    &ends[from..to]
}
