// The path of a search into the depth, from its root to the node where it is. The search meets each node once.
ghost use Rattle.std.specs.Prelude.{◌≡◌, ◌≤◌};
ghost use Rattle.marks.specs.Squares.{Room};

use crate::line::Line;
use crate::{Square, line};

// A node of the path, and the column of its row from which on the search has not looked.
#[derive(Clone, Copy, Debug, PartialEq, Eq)]
pub struct Step {
    pub node: u16,
    pub column: u16,
}

// The steps are an array with its length beside it, since there is no heap.
#[derive(Drop)]
pub struct Path {
    steps: [Step; Path::NODES],
    length: usize,
    met: [u8; Line::LENGTH],
    ghost in_range: { length ≤ 1024 },
}

impl Path {
    pub const NODES: usize = 1024;

    pub fn new() -> Path {
        Path {
            steps: [Step { node: 0, column: 0 }; Path::NODES],
            length: 0,
            met: [0; Line::LENGTH],
        }
    }

    // Whether the search has met a node.
    pub fn has_met(&self, node: usize) -> bool
        requires { node ≤ 1023 }
    {
        line::has(&self.met, node)
    }

    // Goes on to a node, which is met then.
    pub fn enter(&mut self, node: usize)
        requires { node ≤ 1023 }
    {
        line::add(&mut self.met, node);
        if self.length < Path::NODES {
            // no `From` leads from usize to u16, and `try_from` has an arm that is never taken
            self.steps[self.length] = Step {
                node: node as u16,
                column: 0,
            };
            self.length += 1;
        }
    }

    // The node where the search is.
    pub fn end(&self) -> Option<usize> {
        if self.length == 0 {
            return None;
        }
        Some(usize::from(self.steps[self.length - 1].node))
    }

    // Goes back.
    pub fn leave(&mut self) {
        if 0 < self.length {
            self.length -= 1;
        }
    }

    // Goes on to a node of the row of node x, where the search is, that it has not met. Whether there is one.
    pub fn enter_marked(&mut self, work: &[u8], square: Square, x: usize) -> bool
        requires room { Room square work.now }
        requires x_le_names { (x ≤ square.names) × (square.names ≤ 1023) }
    {
        if self.length == 0 {
            return false;
        }
        let last = self.length - 1;
        let column = usize::from(self.steps[last].column);
        match square.next_outside(work, x, &self.met, column) {
            Some(node) => {
                // no `From` leads from usize to u16, and `try_from` has an arm that is never taken
                self.steps[last].column = node as u16;
                self.enter(node);
                true
            }
            None => false,
        }
    }
}
