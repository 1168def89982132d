// A book by its row.
ghost use Rattle.std.specs.Prelude.{◌≡◌, ◌+◌, ◌*◌, ◌<◌, length, slice_index};
ghost use Rattle.books.specs.Rows.{Reads, row};
ghost use Rattle.books.specs.Reading.{book_of};
ghost use Rattle.books.specs.Layouts.{Laid};
ghost use Rattle.books.specs.Indexing.{RulesIndexed};
ghost use Rattle.books.specs.Facts.{Reads-prop, Laid-prop, RulesIndexed-prop};

use crate::book::read_book;
use crate::index::{Index, index_rules};
use crate::layout::Layout;

// A book's row, where its sides stand there, and its rules by their top signs.
#[derive(Drop)]
pub struct Book<'a> {
    pub words: &'a [u32],
    pub layout: Layout,
    pub index: Index,
    pub ghost reads: { Reads words.now (book_of words.now) } by { Reads-prop words.now (book_of words.now) },
    pub ghost laid: { Laid words.now (book_of words.now) layout } by { Laid-prop words.now (book_of words.now) layout },
    pub ghost indexed: { RulesIndexed (book_of words.now) index } by { RulesIndexed-prop (book_of words.now) index },
}

// The rows of the sides of a rule or an equation.
#[derive(Clone, Copy)]
pub struct Sides<'a> {
    pub left: &'a [u32],
    pub right: &'a [u32],
}

// Stays in the contracts that there is a rule or an equation i: it is a fact of an index.
impl<'a> Book<'a> {
    ghost use Rattle.books.specs.Books.{told, rule_in, equation_in, CutAt, RuleStands, EquationStands, RowRead};

    // The book that the words are the row of, or none.
    pub fn read(words: &'a [u32]) -> Option<Book<'a>>
        ensures { RowRead words.now result }
    {
        let layout = read_book(words)?;
        let index = index_rules(words, &layout.starts, layout.equations, layout.rules);
        Some(Book {
            words,
            layout,
            index,
        })
    }

    // The signature: how many parts each sign has.
    pub fn parts(&self) -> &[u32]
        ensures { result.now ≡ (told self.now).parts }
    {
        &self.words[1..1 + self.layout.signs()]
    }

    // The order of the signs: the rank of each.
    pub fn ranks(&self) -> &[u32]
        ensures { result.now ≡ (told self.now).ranks }
    {
        let signs = self.layout.signs();
        &self.words[1 + signs..1 + 2 * signs]
    }

    // The rows of sides 2k and 2k + 1 of the layout.
    fn sides(&self, k: usize) -> Sides<'_>
        requires { k < length (told self.now).eqs + length (told self.now).rules }
        ensures { CutAt self.now (slice_index self.now.layout.starts (2 * k)) (slice_index self.now.layout.starts (2 * k + 1))
            (slice_index self.now.layout.starts (2 * k + 2)) result }
    {
        let left = self.layout.start(2 * k);
        let right = self.layout.start(2 * k + 1);
        let end = self.layout.start(2 * k + 2);
        Sides {
            left: &self.words[left..right],
            right: &self.words[right..end],
        }
    }

    // The rows of the sides of equation i.
    pub fn equation(&self, i: usize) -> Sides<'_>
        requires { i < length (told self.now).eqs }
        ensures left { result.left.now ≡ row (equation_in self.now i).left }
        ensures right { result.right.now ≡ row (equation_in self.now i).right }
        ensures stands { EquationStands self.now i result }
    {
        self.sides(i)
    }

    // The rows of the sides of rule i.
    pub fn rule(&self, i: usize) -> Sides<'_>
        requires { i < length (told self.now).rules }
        ensures left { result.left.now ≡ row (rule_in self.now i).left }
        ensures right { result.right.now ≡ row (rule_in self.now i).right }
        ensures stands { RuleStands self.now i result }
    {
        self.sides(self.layout.equations() + i)
    }
}
