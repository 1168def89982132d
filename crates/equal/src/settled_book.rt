// A book that settles its equations: a value that only a judged book can give.
ghost use Rattle.equal.specs.declared.types.Judged.TheVariants.{Settles};
ghost use Rattle.equal.specs.Promises.{JudgedSays};

use order::Terminating;

// The book with the ways that show its rules. That it settles its equations is a fact about each such value. It is stated by two
// negations, since a field's fact has to be one that can be had in one way only; it can be decided, so nothing is lost.
#[derive(Drop)]
pub struct Settled<'a, 'b> {
    pub(crate) rules: Terminating<'a>,
    pub(crate) ways: &'b [u32],
    ghost settles: { (JudgedSays rules.book.words.now ways.now Settles → ⊥) → ⊥ },
}
