// The versions of the file, and the numbers that stand in it by its version.
ghost use Rattle.std.specs.Prelude.{◌≡◌, ◌+◌, ◌≤◌, ◌<◌, length};
ghost use Rattle.release.specs.Files.{number, top_number, width_of, lists_pairs, names_of, roles_of, count_of, pair_count, header_length, first_place};
ghost use Rattle.release.specs.Files.{most_names_of, axiom_length};
ghost use Rattle.release.specs.Versions.{width, has_pairs, HasVersionNumber};
ghost use Rattle.release.specs.Tables.{HasHeader, HasPairCount};

use crate::Release;
use crate::kinds::Kind;
use crate::refusals::FileRefusal;

// A name takes one byte in version 1 and two in the others. Version 3 is version 2 with role pairs: their number ends the header, and they stand
// before the axioms.
#[derive(Clone, Copy, Debug, PartialEq, Eq)]
pub enum Version {
    One,
    Two,
    Three,
}

impl Version {
    // The version of a file whose version is known: the low byte tells it.
    pub fn of(file: &[u8]) -> Self
        requires { 3 < length file.now }
        ensures width { width result ≡ width_of file.now }
        ensures pairs { has_pairs result ≡ lists_pairs file.now }
    {
        match file[3] {
            1 => Version::One,
            3 => Version::Three,
            _ => Version::Two,
        }
    }

    // How many bytes a name takes.
    #[inline(always)]
    pub fn width(self) -> usize
        ensures { result ≡ width self }
    {
        match self {
            Version::One => 1,
            Version::Two | Version::Three => 2,
        }
    }

    // Whether role pairs stand before the axioms.
    pub fn has_pairs(self) -> bool
        ensures { result ≡ has_pairs self }
    {
        matches!(self, Version::Three)
    }

    // The number that is ⊤ as a filler.
    #[inline(always)]
    pub fn top(self) -> usize
        ensures { result ≡ top_number (width self) }
    {
        match self {
            Version::One => 255,
            Version::Two | Version::Three => 65535,
        }
    }

    // The most names that a release can have.
    pub fn most_names(self) -> usize
        ensures { result ≡ most_names_of (width self) }
    {
        match self {
            Version::One => Release::NAMES_1,
            Version::Two | Version::Three => Release::NAMES,
        }
    }

    // How many bytes stand before the pairs and the axioms.
    pub fn header_length(self) -> usize
        ensures { result ≡ header_length (width self) (has_pairs self) }
    {
        6 + 2 * self.width() + usize::from(self.has_pairs())
    }

    // How many role pairs a file lists: their number is the last byte of the header.
    pub fn pair_count(self, file: &[u8]) -> usize
        requires { HasPairCount self file.now }
        ensures { result ≡ pair_count file.now }
    {
        if self.has_pairs() {
            return usize::from(file[self.header_length() - 1]);
        }
        0
    }

    // The place of the first axiom: behind the header and the pairs, two bytes each.
    pub fn first_place(self, file: &[u8]) -> usize
        requires { HasPairCount self file.now }
        ensures { result ≡ first_place file.now }
    {
        self.header_length() + 2 * self.pair_count(file)
    }

    // The number of a name's width at a place, low byte first.
    #[inline(always)]
    pub fn number(self, file: &[u8], at: usize) -> usize
        requires { at + width self ≤ length file.now }
        ensures { result ≡ number (width self) file.now at }
    {
        match self {
            Version::One => usize::from(file[at]),
            Version::Two | Version::Three => {
                let bytes = [file[at], file[at + 1]];
                usize::from(u16::from_le_bytes(bytes))
            }
        }
    }

    // The bytes that the axiom at a place takes: its left name, its kind, and a byte with the conjuncts that it counts or with a filler.
    pub fn axiom_length(self, file: &[u8], at: usize) -> usize
        requires { at + axiom_length (width self) file.now at ≤ length file.now }
        ensures { result ≡ axiom_length (width self) file.now at }
    {
        let width = self.width();
        let after = at + width;
        if Kind::try_from(file[after]).is_ok_and(Kind::is_conjunction) {
            return width + 1 + (1 + width * usize::from(file[after + 1]));
        }
        width + 1 + (1 + width)
    }

    // How many names a header says; below, how many roles and how many axioms.
    pub fn names(self, file: &[u8]) -> usize
        requires { HasHeader (width self) file.now }
        ensures { result ≡ names_of file.now }
    {
        self.number(file, 5)
    }

    pub fn roles(self, file: &[u8]) -> usize
        requires { HasHeader (width self) file.now }
        ensures { result ≡ roles_of file.now }
    {
        usize::from(file[5 + self.width()])
    }

    pub fn axioms(self, file: &[u8]) -> usize
        requires { HasHeader (width self) file.now }
        ensures { result ≡ count_of file.now }
    {
        self.number(file, 6 + self.width())
    }
}

// The version that a number stands for.
impl TryFrom<usize> for Version {
    type Error = FileRefusal;

    ghost try_from_gives = { HasVersionNumber };

    fn try_from(number: usize) -> Result<Self, FileRefusal> {
        match number {
            1 => Ok(Version::One),
            2 => Ok(Version::Two),
            3 => Ok(Version::Three),
            _ => Err(FileRefusal::WrongVersion),
        }
    }
}
