// The comparison of two accepted releases over a signature, given their terminologies: the result byte of each name.
#![tactic(auto)]

ghost use Rattle.std.specs.Prelude.{◌≤◌};
ghost use Rattle.release.specs.Files.{most_names, most_roles};

use crate::marking::unmark;
use crate::result::write_bytes;
use layout::Layout;
use release::Release;
use release::roles::RoleSet;
use release::terminology::Terminology;

mod marking;
mod preparation;
mod result;

// The terminologies of two releases with the same numbers of names and roles. The signature, the result bytes and the work memory stand in
// separate parameters, as C lends them.
#[derive(Clone, Copy, Debug, PartialEq, Eq)]
pub struct Releases<'a> {
    pub first: Terminology<'a>,
    pub second: Terminology<'a>,
    pub names: usize,
    pub roles: usize,
    pub ghost few: { names ≤ most_names },
    pub ghost few_roles: { roles ≤ most_roles },
}

impl<'a> Releases<'a> {
    ghost use Rattle.std.specs.Prelude.{◌≡◌, ◌≤◌, length};
    ghost use Rattle.comparison.specs.Compared.{forward_layout, backward_layout, Given, Ready, Marking, Compared, ComparedAgain};

    // Where forward marks are read and written. The work memory has four squares, one after the other: the inclusions of the first release,
    // those of the second, forward marks and backward marks.
    pub fn forward_layout(&self) -> Layout
        ensures { result ≡ forward_layout self.now }
    {
        let size = marks::size(self.names);
        Layout {
            names: self.names,
            roles: self.roles,
            first: 0,
            second: size,
            marks: 2 * size,
        }
    }

    // Where backward marks are read and written: the layout of forward marks, but for one place.
    fn backward_layout(&self) -> Layout
        ensures { result ≡ backward_layout self.now }
    {
        let mut layout = self.forward_layout();
        layout.marks = 3 * marks::size(self.names);
        layout
    }

    // Marks, and writes the byte of each name into the first bytes of `result_bytes`. What `edges` holds before does not matter.
    fn write_marked(
        &self,
        signature: &[u8],
        result_bytes: &mut [u8],
        edges: &mut [RoleSet],
        work: &mut [u8],
    )
        requires given { Given signature.now self.now work.old }
        requires ready { Ready self.now work.old }
        requires names_in_bounds { self.now.names ≤ length result_bytes.old }
        requires edges_in_bounds { self.now.names ≤ length edges.old }
        ensures { Marking signature.now self.now result_bytes.old result_bytes.new work.old work.new }
    {
        self.mark(signature, edges, work);
        let forward = self.forward_layout();
        let backward = self.backward_layout();
        write_bytes(signature, work, result_bytes, forward, backward);
    }

    // Writes the byte of each name into the first bytes of `result_bytes`. The work memory is 0 again as far as it is used.
    pub fn compare_tables(&self, signature: &[u8], result_bytes: &mut [u8], work: &mut [u8])
        requires given { Given signature.now self.now work.old }
        requires names_in_bounds { self.now.names ≤ length result_bytes.old }
        ensures { Compared signature.now self.now result_bytes.old result_bytes.new work.old work.new }
    {
        self.prepare(work);
        // A local array, since there is no heap.
        let mut edges = [RoleSet::NONE; Release::NAMES];
        self.write_marked(signature, result_bytes, &mut edges, work);
        marks::clear(work, marks::work_length(self.names));
    }

    // The same in memory that is prepared for the two releases, and is left as it was: for the next signature. `edges` is
    // written over, and lent so that it is made once for all signatures.
    pub fn compare_prepared(
        &self,
        signature: &[u8],
        result_bytes: &mut [u8],
        edges: &mut [RoleSet],
        work: &mut [u8],
    )
        requires given { Given signature.now self.now work.old }
        requires ready { Ready self.now work.old }
        requires names_in_bounds { self.now.names ≤ length result_bytes.old }
        requires edges_in_bounds { self.now.names ≤ length edges.old }
        ensures { ComparedAgain signature.now self.now result_bytes.old result_bytes.new work.old work.new }
    {
        self.write_marked(signature, result_bytes, edges, work);
        unmark(work, marks::size(self.names));
    }
}
