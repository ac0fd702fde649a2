// An order of the nodes in which each one comes after those that are marked in its row, as far as that can be had. It is only a
// hint: no more is promised than that nodes stand in it, so whoever goes by it looks whether a node is left.
ghost use Rattle.std.specs.Prelude.{◌≡◌, None, ◌+◌, ◌*◌, ◌≤◌};
ghost use Rattle.std.specs.Iterator.{at_most};
ghost use Rattle.marks.specs.Squares.{Room};
ghost use Rattle.marks.specs.Orders.{node_at, placed, NodesPlaced, Walking, Walks, nodes_left, NodeGiven};

use crate::Square;
use crate::path::Path;

// The nodes by their places. An array, since there is no heap.
#[derive(Clone, Copy, Debug, PartialEq, Eq)]
pub struct Order {
    nodes: [Option<u16>; Path::NODES],
}

impl Order {
    // More than a search takes: it enters a node once and leaves it once. Turns are counted, since nothing is known of a path but its length.
    const TURNS: usize = 4096;

    // No node stands in it.
    pub fn new() -> Order
        ensures { (place : _) → node_at result place ≡ None }
    {
        Order {
            nodes: [None; Path::NODES],
        }
    }

    // The node at a place.
    pub fn at(&self, place: usize) -> Option<usize>
        ensures { result ≡ node_at self.now place }
    {
        if place < Path::NODES {
            return self.nodes[place].map(usize::from);
        }
        None
    }

    // The nodes that stand in it and belong to a square of so many names, one after the other, from either end. That all of these come is
    // not promised, as nobody promises that all nodes stand in an order.
    pub fn nodes<'a>(&'a self, names: usize) -> Nodes<'a>
        requires { names ≤ 65535 }
        ensures { Walking names result }
    {
        Nodes {
            order: self,
            names,
            place: 0,
            end: names + 1,
        }
    }

    // Puts a node at a place. Out of range nothing happens.
    pub fn put(&mut self, place: usize, node: usize)
        ensures { self.new ≡ placed self.old place node }
    {
        if place < Path::NODES && node < Path::NODES {
            // no `From` leads from usize to u16, and `try_from` has an arm that is never taken
            self.nodes[place] = Some(node as u16);
        }
    }

    // Writes the order, by a search into the depth. `before` says which node is to come directly before one.
    pub fn sort<F: Fn(usize) -> Option<usize>>(&mut self, work: &[u8], square: Square, before: F)
        requires room { Room square work.now }
        requires names_bound { square.names ≤ 1023 }
        requires callable { F.IsAlwaysCallable before }
        ensures { NodesPlaced square.names self.old self.new }
    {
        let mut path = Path::new();
        let mut count = 0;
        for root in 0..=square.names {
            if !path.has_met(root) {
                path.enter(root);
                count = self.finish(work, square, &before, &mut path, count);
            }
        }
    }

    // Puts down the nodes of the path, the last one first, each once no node is left that is to come before it. The next free place.
    // The path is written while `work`, `square` and `before` are read, so it is no part of them; a struct of these three, generic in the
    // closure, would serve this function and `go_on` alone.
    fn finish<F: Fn(usize) -> Option<usize>>(
        &mut self,
        work: &[u8],
        square: Square,
        before: &F,
        path: &mut Path,
        from: usize,
    ) -> usize
        requires room { Room square work.now }
        requires names_bound { (square.names ≤ 1023) × (from ≤ 4096 * 1024) }
        requires callable { F.IsAlwaysCallable before.now }
        ensures nodes { NodesPlaced square.names self.old self.new }
        ensures count { result ≤ from + 4096 }
    {
        let mut count = from;
        for _ in 0..Order::TURNS {
            let Some(x) = path.end() else {
                return count;
            };
            if square.names < x {
                return count;
            }
            if !go_on(work, square, before, path, x) {
                self.put(count, x);
                count += 1;
                path.leave();
            }
        }
        count
    }
}

// What is left of an order: the nodes from `place` on and before `end`, of a square of so many names.
#[derive(Drop)]
pub struct Nodes<'a> {
    order: &'a Order,
    names: usize,
    place: usize,
    end: usize,
}

// By counted places from both ends. A chain of the library's (`iter().take().flatten().filter()`) has a closure in its type, which `nodes` could
// not name, and what returns `impl Iterator` gets no proof.
impl<'a> Iterator for Nodes<'a> {
    type Item = usize;

    ghost can_next = { Walks };

    ghost next_gives = { NodeGiven };

    ghost remaining = { λ s. at_most (nodes_left s) };

    fn next(&mut self) -> Option<usize> {
        while self.place < self.end {
            let node = self.order.at(self.place);
            self.place += 1;
            match node {
                Some(x) if x <= self.names => return Some(x),
                _ => {}
            }
        }
        None
    }
}

impl<'a> DoubleEndedIterator for Nodes<'a> {
    ghost can_next_back = { Walks };

    ghost next_back_gives = { NodeGiven };

    fn next_back(&mut self) -> Option<usize> {
        while self.place < self.end {
            self.end -= 1;
            match self.order.at(self.end) {
                Some(last) if last <= self.names => return Some(last),
                _ => {}
            }
        }
        None
    }
}

// Goes on from node x to one that is to come before it: first to the one that `before` says, then to those of its row. Whether there
// is one that was not met yet.
fn go_on<F: Fn(usize) -> Option<usize>>(
    work: &[u8],
    square: Square,
    before: &F,
    path: &mut Path,
    x: usize,
) -> bool
    requires room { Room square work.now }
    requires x_le_names { (x ≤ square.names) × (square.names ≤ 1023) }
    requires callable { F.IsAlwaysCallable before.now }
{
    match before(x) {
        Some(node) if node <= square.names && !path.has_met(node) => {
            path.enter(node);
            true
        }
        _ => path.enter_marked(work, square, x),
    }
}
