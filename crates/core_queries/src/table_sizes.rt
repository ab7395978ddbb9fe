ghost use Rattle.std.specs.Prelude.{◌≡◌};
ghost use Rattle.core_queries.specs.Sizes.{sizes_of};
ghost use Rattle.core_store.specs.Holding.{state_of};

use core_store::Store;

/// How many entries each of the four tables of a vat's connection has.
#[derive(Clone, Copy, Debug, PartialEq, Eq, Drop)]
pub struct TableSizes {
    pub questions: usize,
    pub answers: usize,
    pub exports: usize,
    pub imports: usize,
}

/// How many questions, answers, exports and imports there are. Constant work.
pub fn sizes_of(store: &Store) -> TableSizes
    ensures { result ≡ sizes_of (state_of store.now) }
{
    TableSizes {
        questions: store.questions.len(),
        answers: store.answers.len(),
        exports: store.exports.len(),
        imports: store.imports.len(),
    }
}
