// An axiom read at a place of the source and written at a place of the output, with names of another width.
ghost use Rattle.std.specs.Prelude.{◌≡◌, ◌≤◌, ◌+◌, ◌*◌, length};
ghost use Rattle.release.specs.Files.{numbers, filler_node, right_at, axiom_at};
ghost use Rattle.release.specs.Versions.{width};
ghost use Rattle.rewriting.specs.Bytes.{names_bytes, filler_number, tail_bytes, axiom_bytes};
ghost use Rattle.rewriting.specs.Stands.{TailStands, AxiomStands};
ghost use Rattle.output.specs.Places.{Put};

use crate::Rewriting;
use crate::numbers::put_number;
use output::put_byte;
use release::Kind;

impl<'a> Rewriting<'a> {
    // The number that a filler has in the wanted version: ⊤ has another one there.
    fn filler_number(&self, filler: usize) -> usize
        ensures { result ≡ filler_number (width self.now.wanted) (filler_node (width self.now.source.version) filler) }
    {
        if filler == self.source.version.top() {
            return self.wanted.top();
        }
        filler
    }

    // Names one after the other. Both places are kept by hand: `chunks_exact` would give the names' bytes, and a number is read at a place of the file.
    fn put_names(&self, from: usize, count: usize, output: &mut [u8], at: usize) -> usize
        requires { from + width self.now.source.version * count ≤ length self.now.source.file.now }
        ensures { Put output.old at
            (names_bytes (width self.now.wanted) (numbers (width self.now.source.version) count self.now.source.file.now from)) output.new result }
    {
        let mut place = from;
        let mut next = at;
        for _name in 0..count {
            let name = self.source.version.number(self.source.file, place);
            next = put_number(output, next, self.wanted, name);
            place += self.source.version.width();
        }
        next
    }

    // What stands after the kind byte: a byte, and then the conjuncts or the filler. The kind is a byte, which `put_axiom` puts down as it read it.
    fn put_tail(&self, tail: usize, kind: u8, output: &mut [u8], at: usize) -> usize
        requires { TailStands (width self.now.source.version) kind self.now.source.file.now tail }
        ensures { Put output.old at
            (tail_bytes (width self.now.wanted) (right_at (width self.now.source.version) kind self.now.source.file.now tail)) output.new result }
    {
        let first = self.source.file[tail];
        let next = put_byte(output, at, first);
        if Kind::try_from(kind).is_ok_and(Kind::is_conjunction) {
            return self.put_names(tail + 1, usize::from(first), output, next);
        }
        let filler = self.source.version.number(self.source.file, tail + 1);
        let number = self.filler_number(filler);
        put_number(output, next, self.wanted, number)
    }

    pub(crate) fn put_axiom(&self, from: usize, output: &mut [u8], at: usize) -> usize
        requires { AxiomStands (width self.now.source.version) self.now.source.file.now from }
        ensures { Put output.old at
            (axiom_bytes (width self.now.wanted) (axiom_at (width self.now.source.version) self.now.source.file.now from)) output.new result }
    {
        let after = from + self.source.version.width();
        let left = self.source.version.number(self.source.file, from);
        let kind = self.source.file[after];
        let first = put_number(output, at, self.wanted, left);
        let second = put_byte(output, first, kind);
        self.put_tail(after + 1, kind, output, second)
    }
}
