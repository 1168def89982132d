// Tests of overlaps: books with one end, with more, and with too little room to tell.
#![tactic(auto)]

#[cfg(test)]
mod tests {
    use books::Book;
    use engine::Reducer;
    use engine::types::NoRoom;
    use engine::work::share_out;
    use notation::parse;
    use order::Terminating;
    use overlaps::ends::one_end;
    use std::alloc::Global;
    use std::test::Fail;

    // A rule that meets itself: f(f(f(x))) comes to g(f(x)) and to f(g(x)).
    const ITSELF: &str = "
signs g/1 f/1
letters x
rules
  f(f(x)) -> g(x)
";

    const ITSELF_JOINED: &str = "
signs g/1 f/1
letters x
rules
  f(f(x)) -> g(x)
  f(g(x)) -> g(f(x))
";

    // Both rules have the same letter: h(f(g(x))) comes to a and to h(b).
    const SAME_LETTER: &str = "
signs a/0 b/0 g/1 f/1 h/1
letters x
rules
  h(f(x)) -> a
  f(g(x)) -> b
";

    // The signs agree, but nothing makes f(x, x) and f(g(y), y) one.
    const NEVER: &str = "
signs a/0 b/0 g/1 f/2 h/1
letters x y
rules
  h(f(x, x)) -> a
  f(g(y), y) -> b
";

    // Groups: a unit, inverses and products.
    const GROUP: &str = "
signs one/0 times/2 inverse/1
letters x y z
rules
  times(one, x) -> x
  times(x, one) -> x
  times(inverse(x), x) -> one
  times(x, inverse(x)) -> one
  times(times(x, y), z) -> times(x, times(y, z))
  inverse(one) -> one
  inverse(inverse(x)) -> x
  inverse(times(x, y)) -> times(inverse(y), inverse(x))
  times(inverse(x), times(x, y)) -> y
  times(x, times(inverse(x), y)) -> y
";

    const GROUP_AXIOMS: &str = "
signs one/0 times/2 inverse/1
letters x y z
rules
  times(one, x) -> x
  times(inverse(x), x) -> one
  times(times(x, y), z) -> times(x, times(y, z))
";

    // many is a number of 2^12, and drop(many) comes to zero, or to drop of that number.
    const MANY: &str = "
signs zero/0 next/1 double/1 many/0 drop/1
letters x
rules
  double(zero) -> zero
  double(next(x)) -> next(next(double(x)))
  many -> double(double(double(double(double(double(double(double(double(double(double(double(next(zero)))))))))))))
  drop(many) -> zero
";

    // What is found of a book; nothing if the words are no book whose rules go down.
    fn found(words: &[u32], work: &mut [u32]) -> Option<Result<bool, NoRoom>> {
        let rules = Terminating::new(Book::read(words)?).ok()?;
        let mut work = share_out(work)?;
        let mut reducer = Reducer {
            rules: &rules,
            work: &mut work,
        };
        Some(one_end(&mut reducer))
    }

    // Whether a book has one end, if that is found with 16,384 work words, and 64 for each word of the book and so many more.
    fn one(heap: Global, book: &str, more: usize) -> Result<Option<bool>, Fail> {
        let book = match parse(heap, book) {
            Ok(book) => book,
            Err(e) => return Err(Fail::new(e)),
        };
        let words = book.words.len().saturating_add(more).saturating_mul(64);
        let mut work = vec![in heap; 0; words.saturating_add(16384)]?;
        let found = found(book.words.as_slice(), work.as_mut_slice());
        Ok(found.ok_or("no book whose rules go down")?.ok())
    }

    #[test]
    fn a_rule_meets_itself(rt: HostRuntime) -> Result<(), Fail> {
        assert!(rt; one(rt.alloc(), ITSELF, 0)? == Some(false));
        assert!(rt; one(rt.alloc(), ITSELF_JOINED, 0)? == Some(true));
        Ok(())
    }

    #[test]
    fn letters_are_renamed(rt: HostRuntime) -> Result<(), Fail> {
        assert!(rt; one(rt.alloc(), SAME_LETTER, 0)? == Some(false));
        Ok(())
    }

    #[test]
    fn signs_alone_are_no_overlap(rt: HostRuntime) -> Result<(), Fail> {
        assert!(rt; one(rt.alloc(), NEVER, 0)? == Some(true));
        Ok(())
    }

    #[test]
    fn groups(rt: HostRuntime) -> Result<(), Fail> {
        assert!(rt; one(rt.alloc(), GROUP, 0)? == Some(true));
        assert!(rt; one(rt.alloc(), GROUP_AXIOMS, 0)? == Some(false));
        Ok(())
    }

    #[test]
    fn too_little_room(rt: HostRuntime) -> Result<(), Fail> {
        assert!(rt; one(rt.alloc(), MANY, 0)? == None);
        assert!(rt; one(rt.alloc(), MANY, 5_000)? == Some(false));
        Ok(())
    }
}
