// Judging a book by its words, in work words that are shared out.
ghost use Rattle.std.specs.Prelude.{ℕ};
ghost use Rattle.equal.specs.Judging.{JudgedIn, OpenStore, RoomFor};

use crate::rules::judge_rules;
use crate::types::Judged;
use books::Book;
use engine::Reducer;
use engine::work::Work;
use order::Terminating;

// Whether a book settles its equations, by its words and those of its ways; or the first thing that fails. If it settles, the store can
// serve for comparing its terms.
pub fn judge_in(book: &[u32], ways: &[u32], work: &mut Work) -> Judged
    requires open_store { OpenStore work.old }
    requires room { (n : ℕ) × RoomFor book.now ways.now n work.old }
    ensures { (n : ℕ) → RoomFor book.now ways.now n work.old → JudgedIn book.now ways.now n work.old work.new result }
{
    // Stays two refusals handed on, here and below: they are answers, and one more function to `Result` would be matched here again.
    let Some(book) = Book::read(book) else {
        return Judged::NoBook;
    };
    let rules = match Terminating::new(book) {
        Ok(rules) => rules,
        Err(i) => return Judged::Up(i),
    };
    let mut reducer = Reducer {
        rules: &rules,
        work,
    };
    judge_rules(&mut reducer, ways).unwrap_or(Judged::Room)
}
