// Judging a book whose rules go down.
// Stays in the contracts that there are no roots: a comparison stacks the two it compares, and takes them off again.
// Stays in the contracts how ample the work words are: it is said for each number that suits, and not for one.
ghost use Rattle.std.specs.Prelude.{◌≡◌, ℕ, length};
ghost use Rattle.engine.specs.Reducers.{LeftIdle};
ghost use Rattle.equal.specs.Judging.{AmpleWith, RulesSay, by_ways, or_room};

use crate::equations::first_lost;
use crate::types::Judged;
use engine::Reducer;
use engine::types::NoRoom;
use overlaps::ends::one_end;
use ways::shown;

// The answer by the ways, where all else is well.
fn by_ways(shown: bool) -> Judged
    ensures { result ≡ by_ways shown }
{
    if shown {
        Judged::Settles
    } else {
        Judged::Stray
    }
}

// What is to be said of a book whose rules go down: the first that fails of one end, the equations and the ways.
pub fn judge_rules(reducer: &mut Reducer, ways: &[u32]) -> Result<Judged, NoRoom>
    requires none { reducer.old.work.now.roots.top ≡ 0 }
    requires room { (n : ℕ) × AmpleWith reducer.old.rules.now.book (length ways.now) n reducer.old.work.now }
    ensures idle { LeftIdle reducer.old reducer.new }
    ensures result { (n : ℕ) → AmpleWith reducer.old.rules.now.book (length ways.now) n reducer.old.work.now →
        RulesSay reducer.old.rules.now.book ways.now n (or_room result) }
{
    let one = one_end(reducer)?;
    if !one {
        return Ok(Judged::Apart);
    }
    let lost = first_lost(reducer)?;
    match lost {
        Some(i) => Ok(Judged::Lost(i)),
        None => {
            let book = &reducer.rules.book;
            let work = &mut *reducer.work;
            let shown = shown(book, ways, &mut work.store, &mut work.roots);
            Ok(by_ways(shown))
        }
    }
}
