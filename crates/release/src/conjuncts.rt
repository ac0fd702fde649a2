// The last check of a release: that no conjunct is itself defined by a conjunction.
ghost use Rattle.el.proofs.Tests.{Tells};
ghost use Rattle.release.specs.Tables.{Shaped, Conjunctive, PartDefined, SomePartDefined};

use crate::ConceptName;
use crate::kinds::Kind;
use crate::terminology::Terminology;

// Whether a conjunct of the name is itself defined by a conjunction. `names` is said for the clause alone: it bounds the conjuncts there.
fn part_defined(terminology: &Terminology, names: usize, name: ConceptName) -> bool
    requires { Conjunctive names terminology.now.file.now terminology.now.table.now name.0 }
    ensures { Tells result (PartDefined terminology.now.file.now terminology.now.table.now name.0) }
{
    terminology.parts(name.0).any(|part| terminology.has_kind(part, Kind::DefinedConjunction))
}

// Whether some conjunct is itself defined by a conjunction: each conjunct is looked up once in the table.
pub fn some_part_defined(terminology: &Terminology, names: usize) -> bool
    requires { Shaped names terminology.now.file.now terminology.now.table.now }
    ensures { Tells result (SomePartDefined names terminology.now.file.now terminology.now.table.now) }
{
    (0..names).any(|name| terminology.is_conjunction(name)
        && part_defined(terminology, names, ConceptName(name)))
}
