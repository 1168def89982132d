// Whether the sides of each equation meet.
// Stays in the contracts that there are no roots: a comparison stacks the two it compares, and takes them off again.
// Stays in the contracts how ample the work words are: it is said for each number that suits, and not for one.
ghost use Rattle.std.specs.Prelude.{◌≡◌, ℕ, ◌<◌, length};
ghost use Rattle.rewriting.specs.Books.{OneEnd};
ghost use Rattle.books.specs.Books.{equation_in, told};
ghost use Rattle.engine.specs.Meeting.{Compares};
ghost use Rattle.engine.specs.Reducers.{LeftIdle};
ghost use Rattle.equal.specs.Judging.{AmpleFor, EquationsSay};

use books::Sides;
use engine::Reducer;
use engine::types::NoRoom;

// Whether the sides of equation i meet.
fn sides_meet(reducer: &mut Reducer, i: usize) -> Result<bool, NoRoom>
    requires none { reducer.old.work.now.roots.top ≡ 0 }
    requires equation { i < length (told reducer.old.rules.now.book).eqs }
    requires room { (n : ℕ) × AmpleFor reducer.old.rules.now.book n reducer.old.work.now }
    ensures idle { LeftIdle reducer.old reducer.new }
    ensures result { (n : ℕ) → AmpleFor reducer.old.rules.now.book n reducer.old.work.now →
        Compares reducer.old.rules.now.book n (equation_in reducer.old.rules.now.book i).left
        (equation_in reducer.old.rules.now.book i).right result }
{
    let book = &reducer.rules.book;
    let Sides { left, right } = book.equation(i);
    reducer.compare_rows(left, right).unwrap()
}

// The first equation whose sides don't meet, of a book in which all that comes from one term meets.
pub fn first_lost(reducer: &mut Reducer) -> Result<Option<usize>, NoRoom>
    requires none { reducer.old.work.now.roots.top ≡ 0 }
    requires one_end { OneEnd (told reducer.old.rules.now.book) }
    requires room { (n : ℕ) × AmpleFor reducer.old.rules.now.book n reducer.old.work.now }
    ensures idle { LeftIdle reducer.old reducer.new }
    ensures result { (n : ℕ) → AmpleFor reducer.old.rules.now.book n reducer.old.work.now →
        EquationsSay reducer.old.rules.now.book n result }
{
    let book = &reducer.rules.book;
    // Stays a loop over numbers: an equation's number is the answer, and want of room is handed on.
    for i in 0..book.layout.equations() {
        let meet = sides_meet(reducer, i)?;
        if !meet {
            return Ok(Some(i));
        }
    }
    Ok(None)
}
