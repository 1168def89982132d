// Roots in lent words: the stack of places that are kept.
// Stays in the contracts that the cells hold n roots: n is another number each time, and `truncate` takes any.
ghost use Rattle.std.specs.Prelude.{◌≡◌, ◌+◌, ◌/◌, ◌^◌, ◌<◌, length};
ghost use Rattle.store.specs.Slots.{kind_of, arity_of};
ghost use Rattle.store.specs.Roots.{root_at, HasRoots, RootPut};
ghost use Rattle.store.specs.Stacks.{root_in, StackedOn, PushedOrFull, RootSet, CutTo, in_order, Gathered};

use crate::keys::Key;
use crate::numbers::{number_at, put_number};
use crate::slots::{arity, kind};
use crate::types::{Full, Order, Place, Plan, Roots};
use std::array;

// Root k.
#[tactic(auto, unfolding(crate::specs::Roots::root_at))]
pub fn root(cells: &[u32], k: usize) -> usize
    requires { HasRoots cells.now (k + 1) }
    ensures { result ≡ root_at cells.now k }
{
    number_at(cells, 2 * k)
}

pub fn set_root(cells: &mut [u32], k: usize, v: usize)
    requires { HasRoots cells.old (k + 1) }
    ensures { RootPut cells.old k v cells.new }
{
    put_number(cells, 2 * k, v);
}

impl Order {
    // Which of n roots, from one on, is part k.
    fn at(self, from: usize, n: usize, k: usize) -> usize
        requires { (k < n) × (from + n < 2 ^ 64) }
        ensures is { result ≡ in_order self from n k }
        ensures below { result < from + n }
    {
        match self {
            Order::Up => from + k,
            Order::Down => from + (n - 1 - k),
        }
    }
}

impl<'a> Roots<'a> {
    // No roots yet, and cells for as many as two words each go in.
    pub fn new(cells: &'a mut [u32]) -> Roots<'a>
        ensures top { result.top ≡ 0 }
        ensures cells { result.cells.now ≡ cells.old }
    {
        Roots { cells, top: 0 }
    }
}

impl Roots<'_> {
    // How many roots there are cells for.
    pub fn room(&self) -> usize
        ensures { result ≡ length self.now.cells.now / 2 }
    {
        self.cells.len() / 2
    }

    // The place that root k is.
    pub fn place(&self, k: usize) -> Place
        requires { HasRoots self.now.cells.now (k + 1) }
        ensures { result.0 ≡ root_in self.now k }
    {
        Place(root(self.cells, k))
    }

    // Puts a place in the place of the roots from one on.
    pub fn stack(&mut self, from: usize, p: Place)
        requires { HasRoots self.old.cells.now (from + 1) }
        ensures { StackedOn self.old from p.0 self.new }
    {
        set_root(self.cells, from, p.0);
        self.top = from + 1;
    }

    // One more root, if there is a cell for it.
    pub fn push(&mut self, p: Place) -> Result<(), Full>
        ensures { PushedOrFull self.old p.0 self.new result }
    {
        let top = self.top;
        if self.room() <= top {
            return Err(Full::NoRoot);
        }
        self.stack(top, p);
        Ok(())
    }

    // Another place for root k.
    pub fn set(&mut self, k: usize, p: Place)
        requires { HasRoots self.old.cells.now (k + 1) }
        ensures { RootSet self.old k p.0 self.new }
    {
        set_root(self.cells, k, p.0);
    }

    // The first n roots only.
    pub fn truncate(&mut self, n: usize)
        ensures { CutTo self.old n self.new }
    {
        self.top = n;
    }

    // The key of a term to be made.
    pub(crate) fn gather(&self, plan: Plan) -> Key
        requires { HasRoots self.now.cells.now (plan.from + arity_of (kind_of plan.head)) }
        ensures { Gathered plan.head self.now plan.order plan.from result }
    {
        let Plan { head, from, order } = plan;
        let n = arity(kind(head));
        // Stays beside `moved_part` and engine's `frame_part`: tried one helper with a closure; what `from_fn` asks of it did not close.
        let parts = array::from_fn(|k| {
            if k < n {
                self.place(order.at(from, n, k)).0
            } else {
                0
            }
        });
        Key { head, parts }
    }
}
