// Whether a book whose rules go down has one end (is confluent): its critical pairs, one after the other.
// Stays in the contracts that there are no roots: a comparison stacks the two it compares, and takes them off again.
// Stays in the contracts how ample the work words are: it is said for each number that suits, and not for one.
ghost use Rattle.std.specs.Prelude.{◌≡◌, ℕ, ◌<◌, length};
ghost use Rattle.rewriting.specs.Terms.{size};
ghost use Rattle.books.specs.Books.{rule_in, told};
ghost use Rattle.engine.specs.Meeting.{Ample};
ghost use Rattle.engine.specs.Reducers.{LeftIdle};
ghost use Rattle.overlaps.specs.Verdict.{OneEndSays, OverlapSays};

use crate::overlap::overlap_at;
use crate::pairs::critical_pair;
use engine::Reducer;
use engine::types::NoRoom;

// Whether both results meet where rule j is used at symbol k of rule i's left side, if the two rules meet there.
fn results_meet(reducer: &mut Reducer, i: usize, j: usize, k: usize) -> Result<bool, NoRoom>
    requires none { reducer.old.work.now.roots.top ≡ 0 }
    requires room { (n : ℕ) × Ample n reducer.old.work.now }
    requires rules { (i < length (told reducer.old.rules.now.book).rules) × (j < length (told reducer.old.rules.now.book).rules) }
    requires symbol { k < size (rule_in reducer.old.rules.now.book i).left }
    ensures idle { LeftIdle reducer.old reducer.new }
    ensures result { (n : ℕ) → Ample n reducer.old.work.now → OverlapSays reducer.old.rules.now.book n i j k result }
{
    let rules = reducer.rules;
    let Some(overlap) = overlap_at(rules, i, j, k) else {
        return Ok(true);
    };
    let book = &rules.book;
    let Some(pair) = critical_pair(book, overlap, &mut reducer.work.store) else {
        return Ok(true);
    };
    reducer.work.roots.stack(0, pair.first);
    reducer.work.roots.stack(1, pair.second);
    reducer.compare()
}

// Whether all that comes from one term meets, by the list of overlaps in order: all are resolved, or those up to the first whose results come
// to different normal forms. A rule may meet itself too.
pub fn one_end(reducer: &mut Reducer) -> Result<bool, NoRoom>
    requires none { reducer.old.work.now.roots.top ≡ 0 }
    requires room { (n : ℕ) × Ample n reducer.old.work.now }
    ensures idle { LeftIdle reducer.old reducer.new }
    ensures result { (n : ℕ) → Ample n reducer.old.work.now → OneEndSays reducer.old.rules.now.book n result }
{
    // Stays nested loops over numbers, left by a label: the project keeps this form here.
    let book = &reducer.rules.book;
    let rules = book.layout.rules();
    let mut found = true;
    'pairs: for i in 0..rules {
        let symbols = book.rule(i).left.len() / 2;
        for j in 0..rules {
            for k in 0..symbols {
                let meet = results_meet(reducer, i, j, k)?;
                if !meet {
                    found = false;
                    break 'pairs;
                }
            }
        }
    }
    Ok(found)
}
