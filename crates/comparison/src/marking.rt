// The marks of a comparison over one signature, in prepared memory.
ghost use Rattle.std.specs.Prelude.{◌≡◌, ◌*◌, ◌≤◌, length};
ghost use Rattle.signature.specs.Bytes.{signature_fault};
ghost use Rattle.marks.specs.Squares.{most_cells};
ghost use Rattle.forward.specs.Forward.{Forwarded};
ghost use Rattle.backward.specs.Backward.{Backwarded};
ghost use Rattle.comparison.specs.Compared.{forward_layout, backward_layout, IsLent, Handable, PutBy, Given, Ready, BackwardReady, AllMarked, ZeroedBetween};

use crate::Releases;
use backward::mark_lost_below;
use forward::mark_lost_above;
use layout::edges::{Position, find_edges};
use release::roles::RoleSet;
use signature::LentSignature;

impl<'a> Releases<'a> {
    // The signature as it was lent, with the numbers of names and roles of the releases.
    pub fn lend<'b>(&self, signature: &'b [u8]) -> LentSignature<'b>
        requires { signature_fault self.now.names self.now.roles signature.now ≡ 0 }
        ensures { IsLent signature.now self.now result }
    {
        LentSignature {
            bytes: signature,
            names: self.names,
            roles: self.roles,
        }
    }

    // What marks are put by, with the layout of forward marks: with which roles of the signature each name has an edge is found, and lent for
    // that. Forward marks are put by the roles above its own, backward marks by those below.
    pub fn given(
        self,
        signature: &'a [u8],
        position: Position,
        edges: &'a mut [RoleSet],
    ) -> layout::Given<'a>
        requires ranged { Handable signature.now self }
        requires names_in_bounds { self.names ≤ length edges.old }
        ensures { PutBy position signature.now self.entry (forward_layout self.entry) result }
    {
        find_edges(
            &self.lend(signature),
            &self.first,
            &self.second,
            position,
            edges,
        );
        layout::Given {
            chosen_names: &signature[..self.names],
            edges,
            first: self.first,
            second: self.second,
            layout: self.forward_layout(),
        }
    }

    // Fills the third square: the forward marks. Never inlined, nor is the next function: what each of them keeps need not stand on the stack
    // together.
    #[inline(never)]
    fn mark_above(&self, signature: &[u8], edges: &mut [RoleSet], work: &mut [u8])
        requires given { Given signature.now self.now work.old }
        requires ready { Ready self.now work.old }
        requires names_in_bounds { self.now.names ≤ length edges.old }
        ensures { Forwarded signature.now self.now.first.file.now self.now.second.file.now (forward_layout self.now) work.old work.new }
    {
        let given = self.given(signature, Position::Above, edges);
        mark_lost_above(&given, work);
    }

    // Fills the last square: the backward marks.
    #[inline(never)]
    fn mark_below(&self, signature: &[u8], edges: &mut [RoleSet], work: &mut [u8])
        requires given { Given signature.now self.now work.old }
        requires ready { BackwardReady self.now work.old }
        requires names_in_bounds { self.now.names ≤ length edges.old }
        ensures { Backwarded signature.now self.now.first.file.now self.now.second.file.now (backward_layout self.now) work.old work.new }
    {
        let mut given = self.given(signature, Position::Below, edges);
        given.layout = self.backward_layout();
        mark_lost_below(&given, work);
    }

    // Fills both, with the same array for the edges.
    pub fn mark(&self, signature: &[u8], edges: &mut [RoleSet], work: &mut [u8])
        requires given { Given signature.now self.now work.old }
        requires ready { Ready self.now work.old }
        requires names_in_bounds { self.now.names ≤ length edges.old }
        ensures { AllMarked signature.now self.now work.old work.new }
    {
        self.mark_above(signature, edges, work);
        self.mark_below(signature, edges, work);
    }
}

// Sets the last two squares to 0, and what was noted behind their rows.
pub fn unmark(work: &mut [u8], size: usize)
    requires { (size ≤ most_cells) × (4 * size ≤ length work.old) }
    ensures { ZeroedBetween (2 * size) (4 * size) work.old work.new }
{
    work[2 * size..4 * size].fill(0);
}
