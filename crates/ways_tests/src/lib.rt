// Tests of ways: which show that the rules follow from the equations, and which don't.
#![tactic(auto)]

#[cfg(test)]
mod tests {
    use books::Book;
    use notation::parse;
    use std::alloc::Global;
    use std::test::Fail;
    use store::{Roots, Store};
    use ways::shown;

    // Whether the ways show that the rules follow, if the words are a book's and there is room.
    fn shows(words: &[u32], ways: &[u32], slots: &mut [u32], cells: &mut [u32]) -> Option<bool> {
        let book = Book::read(words)?;
        let mut store = Store::open(slots)?;
        let mut roots = Roots::new(cells);
        let n = words.len() + ways.len();
        if store.room <= n || roots.cells.len() < n + 2 {
            return None;
        }
        Some(shown(&book, ways, &mut store, &mut roots))
    }

    // The same, of words.
    fn words_show(heap: Global, words: &[u32], ways: &[u32]) -> Result<Option<bool>, Fail> {
        let n = words.len().saturating_add(ways.len());
        let mut slots = vec![in heap; 0; n.saturating_add(1).saturating_mul(16)]?;
        let mut cells = vec![in heap; 0; n.saturating_add(2)]?;
        Ok(shows(words, ways, &mut slots, &mut cells))
    }

    // The same, of a book in the readable form, by its equations and rules.
    fn told(heap: Global, text: &str) -> Result<Option<bool>, Fail> {
        let book = parse(heap, text).map_err(Fail::new)?;
        words_show(heap, &book.words, &book.ways)
    }

    #[test]
    fn one_place_at_a_time(rt: HostRuntime) -> Result<(), Fail> {
        let heap = rt.alloc();
        let both = "signs a/0 b/0 p/2 equations a = b rules p(a, a) -> p(b, b) = p(b, b)";
        assert!(rt; told(heap, both)? == Some(false), "both places at once");
        let one = "signs a/0 b/0 p/2 equations a = b rules p(a, a) -> p(b, b) = p(b, a) = p(b, b)";
        assert!(rt; told(heap, one)? == Some(true), "one after the other");
        let top = "signs a/0 b/0 p/2 letters x equations a = b p(x, a) = p(b, b)
            rules p(a, a) -> p(b, b) = p(b, b)";
        assert!(rt; told(heap, top)? == Some(true), "explained at the top");
        let deep = "signs a/0 b/0 p/2 letters x y equations a = b
            rules p(x, p(p(y, a), x)) -> p(x, p(p(y, b), x)) = p(x, p(p(y, b), x))";
        assert!(rt; told(heap, deep)? == Some(true), "deep inside");
        Ok(())
    }

    #[test]
    fn either_way_round(rt: HostRuntime) -> Result<(), Fail> {
        let heap = rt.alloc();
        let forth =
            "signs f/1 g/1 letters x equations f(x) = g(x) rules f(f(x)) -> g(f(x)) = g(f(x))";
        assert!(rt; told(heap, forth)? == Some(true), "from left to right");
        let back =
            "signs f/1 g/1 letters x equations f(x) = g(x) rules g(f(x)) -> f(f(x)) = f(f(x))";
        assert!(rt; told(heap, back)? == Some(true), "from right to left");
        Ok(())
    }

    #[test]
    fn letters_of_both_sides(rt: HostRuntime) -> Result<(), Fail> {
        let heap = rt.alloc();
        let same =
            "signs a/0 b/0 f/1 g/1 letters x equations f(x) = g(x) rules f(a) -> g(a) = g(a)";
        assert!(rt;
            told(heap, same)? == Some(true),
            "the same for a letter of both sides"
        );
        let other =
            "signs a/0 b/0 f/1 g/1 letters x equations f(x) = g(x) rules f(a) -> g(b) = g(b)";
        assert!(rt;
            told(heap, other)? == Some(false),
            "two terms for one letter"
        );
        let lost = "signs a/0 b/0 f/1 letters x equations f(x) = a rules f(a) -> f(b) = a = f(b)";
        assert!(rt; told(heap, lost)? == Some(true), "letters on one side only");
        let all = "signs a/0 b/0 letters x y equations x = y rules a -> b = b";
        assert!(rt; told(heap, all)? == Some(true), "all terms are equal");
        Ok(())
    }

    #[test]
    fn a_term_that_stays(rt: HostRuntime) -> Result<(), Fail> {
        let heap = rt.alloc();
        let none =
            "signs a/0 b/0 p/2 letters x y equations p(x, y) = p(y, x) rules p(a, b) -> p(a, b) = p(a, b)";
        assert!(rt;
            told(heap, none)? == Some(false),
            "no part is led to itself"
        );
        let part = "signs a/0 b/0 p/2 letters x y equations p(x, y) = p(y, x)
            rules p(a, p(b, b)) -> p(a, p(b, b)) = p(a, p(b, b))";
        assert!(rt; told(heap, part)? == Some(true), "a part is led to itself");
        let letter = "signs a/0 letters x equations x = x rules a -> a = a = a";
        assert!(rt; told(heap, letter)? == Some(true), "a letter on both sides");
        Ok(())
    }

    #[test]
    fn ends(rt: HostRuntime) -> Result<(), Fail> {
        let heap = rt.alloc();
        assert!(rt;
            told(heap, "signs a/0 b/0 equations a = b rules a -> a")? == Some(true),
            "no terms, and both sides are the same"
        );
        assert!(rt;
            told(heap, "signs a/0 b/0 equations a = b rules a -> b")? == Some(false),
            "no terms, and the sides differ"
        );
        assert!(rt;
            told(heap, "signs a/0 b/0 equations a = b rules a -> a = b")? == Some(false),
            "the last term is not the right side"
        );
        assert!(rt;
            told(heap, "signs a/0 b/0 equations a = b rules a -> a = b = a")? == Some(true),
            "there and back"
        );
        Ok(())
    }

    #[test]
    fn words_that_are_no_ways(rt: HostRuntime) -> Result<(), Fail> {
        let heap = rt.alloc();
        // signs a and b, the equation a = b, the rule a -> b
        let book = [2, 0, 0, 0, 1, 1, 1, 1, 0, 1, 1, 1, 0, 1, 1];
        assert!(rt;
            words_show(heap, &book, &[1, 1, 1])? == Some(true),
            "a way of one term"
        );
        assert!(rt;
            words_show(heap, &book, &[2, 1, 1])? == Some(false),
            "one of two terms"
        );
        assert!(rt;
            words_show(heap, &book, &[1, 1, 1, 0])? == Some(false),
            "a way too many"
        );
        assert!(rt; words_show(heap, &book, &[])? == Some(false), "no way");
        // a letter that a book may not have
        assert!(rt;
            words_show(heap, &book, &[2, 0, 4294967295, 1, 1])? == Some(false),
            "a letter"
        );
        Ok(())
    }
}
