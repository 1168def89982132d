// Reading a book's row.
ghost use Rattle.std.specs.Prelude.{◌≤◌, length};
ghost use Rattle.rewriting.specs.Answers.{Tells};
ghost use Rattle.books.specs.Layouts.{FewParts, AllDiffer, HeadRead, SidesRead, BookRead};

use crate::layout::Layout;
use crate::words::{Letters, term_end};

// How many signs, equations and rules a row says that its book has.
#[derive(Clone, Copy)]
struct Head {
    signs: usize,
    equations: usize,
    rules: usize,
}

fn few_parts(parts: &[u32]) -> bool
    ensures { Tells result (FewParts parts.now) }
{
    parts.iter().all(|&n| n <= 4)
}

fn all_differ(xs: &[u32]) -> bool
    ensures { Tells result (AllDiffer xs.now) }
{
    xs.iter().enumerate().all(|(j, x)| !xs[..j].contains(x))
}

fn read_head(words: &[u32]) -> Option<Head>
    ensures { HeadRead words.now result }
{
    let signs = *words.first()? as usize;
    if signs == 0 || signs > 32 || words.len() < 3 + 2 * signs {
        return None;
    }
    if !few_parts(&words[1..1 + signs]) || !all_differ(&words[1 + signs..1 + 2 * signs]) {
        return None;
    }
    let equations = words[1 + 2 * signs] as usize;
    let rules = words[2 + 2 * signs] as usize;
    if equations > 64 || rules > 64 {
        return None;
    }
    Some(Head {
        signs,
        equations,
        rules,
    })
}

// Where each of `count` sides starts that stand from a place to the end of the words, and where the last ends.
fn read_sides(parts: &[u32], words: &[u32], from: usize, count: usize) -> Option<[usize; 257]>
    requires { (count ≤ 256) × (from ≤ length words.now) }
    ensures { SidesRead parts.now words.now count from result }
{
    let mut starts = [0; 257];
    starts[0] = from;
    let mut at = from;
    for start in starts[1..=count].iter_mut() {
        let end = term_end(Letters::Small, parts, words, at)?;
        // 32 symbols of two words
        if end > at + 64 {
            return None;
        }
        *start = end;
        at = end;
    }
    (at == words.len()).then_some(starts)
}

// The book that the words are, by where its sides stand; or none.
pub fn read_book(words: &[u32]) -> Option<Layout>
    ensures { BookRead words.now result }
{
    let head = read_head(words)?;
    let parts = &words[1..1 + head.signs];
    let sides = 2 * head.equations + 2 * head.rules;
    let starts = read_sides(parts, words, 3 + 2 * head.signs, sides)?;
    Some(Layout {
        signs: head.signs,
        equations: head.equations,
        rules: head.rules,
        starts,
    })
}
