// The conjuncts of a conjunction, one after the other.
ghost use Rattle.release.specs.Parts.{CanGive, PartGiven, parts_left};

use crate::number::Version;

// What is left of a name's conjuncts: those from `next` on, of `count` that stand in the file from `first` on.
#[derive(Drop, Debug, PartialEq, Eq)]
pub struct Parts<'a> {
    pub(crate) file: &'a [u8],
    pub(crate) version: Version,
    pub(crate) first: usize,
    pub(crate) count: usize,
    pub(crate) next: usize,
}

impl<'a> Iterator for Parts<'a> {
    type Item = usize;

    ghost can_next = { CanGive };

    ghost next_gives = { PartGiven };

    ghost remaining = { parts_left };

    fn next(&mut self) -> Option<usize> {
        if self.count <= self.next {
            return None;
        }
        let at = self.first + self.version.width() * self.next;
        self.next += 1;
        Some(self.version.number(self.file, at))
    }
}
