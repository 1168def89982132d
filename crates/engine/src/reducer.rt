// A book whose rules go down, and work words that serve it.
ghost use Rattle.books.specs.Books.{told};
ghost use Rattle.engine.specs.Running.{Honest};

use crate::work::Work;
use order::Terminating;

// What brings terms to normal form by a book's rules. What the store notes is true by these rules: the bare fact, which gives back all
// that the notes say.
#[derive(Drop)]
pub struct Reducer<'b, 'w, 'a> {
    pub rules: &'b Terminating<'b>,
    pub work: &'w mut Work<'a>,
    pub ghost honest: { ∥ Honest (told rules.now.book).rules work.now.store ∥₁ },
}
