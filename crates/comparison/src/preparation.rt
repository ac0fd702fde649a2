// The inclusions of two releases, which a comparison over any signature begins with.
ghost use Rattle.std.specs.Prelude.{◌*◌, ◌≤◌, length};
ghost use Rattle.marks.specs.Memory.{size};
ghost use Rattle.comparison.specs.Compared.{SecondTurned, BothGiven, BothIncluded, Prepared};

use crate::Releases;
use classification::classify;
use classification::hints::list_below;
use marks::hints;

impl<'a> Releases<'a> {
    // Fills the first two of four squares, one after the other: the inclusions of the first release, and those of the second. What lies
    // below each node by the first is noted as a hint for the forward marks.
    fn fill_inclusions(&self, work: &mut [u8])
        requires { BothGiven self.now work.old }
        ensures { BothIncluded self.now work.old work.new }
    {
        let layout = self.forward_layout();
        let first = layout.first_square();
        let second = layout.second_square();
        marks::clear(work, marks::work_length(self.names));
        classify(&self.first, work, first);
        classify(&self.second, work, second);
        list_below(first, work);
    }

    // Puts the inclusions of the second release behind its square, rows and columns exchanged, for the forward marks. Without names there is
    // no room for that, and no need.
    fn turn_second(&self, work: &mut [u8])
        requires { 4 * size self.now.names ≤ length work.old }
        ensures { SecondTurned self.now work.old work.new }
    {
        if 0 < self.names {
            let layout = self.forward_layout();
            let second = layout.second_square();
            let below = second.behind(hints::SEEN);
            below.clear_rows(work);
            second.turn(work, below);
        }
    }

    // Both: the first two squares are filled, and nothing stands in the other two.
    pub fn prepare(&self, work: &mut [u8])
        requires { BothGiven self.now work.old }
        ensures { Prepared self.now work.old work.new }
    {
        self.fill_inclusions(work);
        self.turn_second(work);
    }
}
