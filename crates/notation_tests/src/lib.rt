// Tests of the readable form: what is read, what each fault says, and that what is printed is read again as the same words.
#![tactic(auto)]

#[cfg(test)]
mod tests {
    use lexing::fault::{Error, on_line};
    use lexing::pairs::{Line, Pair};
    use lexing::read_rows;
    use notation::{Book, parse, parse_pair};
    use printing::{book_text, equation_text, rule_text};
    use std::alloc::{AllocError, Global};
    use std::fmt::Write;
    use std::test::Fail;

    const SUMS: &str = "# Sums of numbers.
signs zero/0 next/1 plus/2
letters x y
equations
  plus(zero, y) = y
  plus(next(x), y) = next(plus(x, y))
rules
  plus(zero, y) -> y
    = y
  plus(next(x), y) -> next(plus(x, y))
    = next(plus(x, y))
";

    const SUMS_WORDS: [u32; 57] = [
        3, 0, 1, 2, 0, 1, 2, 2, 2, 1, 2, 1, 0, 0, 1, 0, 1, 1, 2, 1, 1, 0, 0, 0, 1, 1, 1, 1, 2, 0,
        0, 0, 1, 1, 2, 1, 0, 0, 1, 0, 1, 1, 2, 1, 1, 0, 0, 0, 1, 1, 1, 1, 2, 0, 0, 0, 1,
    ];

    // Ranks of their own, a sign of no parts with brackets, a rule without a way, one with a way of two terms, and no equations.
    const RANKED: &str =
        "signs a/0 rank 9 b'/0 rank 3 f_2/2 rank 4294967295 letters x rules f_2(x,a())->x f_2(b',x)->a=f_2(x,b')=a";

    // Each text has one fault.
    const FAULTS: [(&str, &str); 30] = [
        ("", "1:1: expected `signs`, found the end of the text"),
        ("signs", "1:6: expected a name, found the end of the text"),
        (
            "signs nnnnnnnnnnnnnnnnnnnnnnnnnnnnnnnnnnnnnnnnnnnnnnnnnnnnnnnnnnnnnnnnn/0",
            "1:7: expected at most 64 characters in a name, found `nnnnnnnnnnnnnnnnnnnnnnnnnnnnnnnnnnnnnnnnnnnnnnnnnnnnnnnnnnnnnnnn`",
        ),
        ("signs rules/1", "1:7: expected a name, found `rules`"),
        (
            "signs a",
            "1:8: expected `/` and the number of parts, found the end of the text",
        ),
        (
            "signs a/5",
            "1:9: expected a number of parts from 0 to 4, found `5`",
        ),
        (
            "signs a/b",
            "1:9: expected a number of parts from 0 to 4, found `b`",
        ),
        (
            "signs a/0 a/1",
            "1:11: expected a name that is not yet in use, found `a`",
        ),
        (
            "signs a/0 letters a",
            "1:19: expected a name that is not yet in use, found `a`",
        ),
        (
            "signs a/0 rank 1 b/0",
            "1:21: expected `rank`, as for the signs before, found the end of the text",
        ),
        (
            "signs a/0 b/0 rank 1",
            "1:15: expected no rank, as for the signs before, found `rank`",
        ),
        (
            "signs a/0 rank 1 b/0 rank 1",
            "1:27: expected a rank that no other sign has, found `1`",
        ),
        (
            "signs a/0 rank 4294967296",
            "1:16: expected a rank of at most 32 bits, found `4294967296`",
        ),
        (
            "signs a/0\n# é\n é",
            "3:2: expected a name, `equations`, `rules` or the end of the text, found `é`",
        ),
        (
            "signs a/0 équations",
            "1:11: expected a name, `equations`, `rules` or the end of the text, found `é`",
        ),
        (
            "signs a/0 equations a",
            "1:22: expected `=` and the equation's right side, found the end of the text",
        ),
        (
            "signs a/0 equations a = b",
            "1:25: expected the name of a sign or a letter, found `b`",
        ),
        (
            "signs a/0 equations a = )",
            "1:25: expected a term, found `)`",
        ),
        (
            "signs a/0 equations a = a = a",
            "1:27: expected an equation, `rules` or the end of the text, found `=`",
        ),
        (
            "signs a/0 rules a - a",
            "1:19: expected `->` and the rule's right side, found `-`",
        ),
        (
            "signs a/0 rules a -> a , a",
            "1:24: expected a rule, `=` and a term of its way, or the end of the text, found `,`",
        ),
        (
            "signs a/0 rules a -> a equations",
            "1:24: expected a rule, `=` and a term of its way, or the end of the text, found `equations`",
        ),
        (
            "signs a/0 letters x rules x(a) -> a",
            "1:28: expected no bracket after a letter, found `(`",
        ),
        (
            "signs a/0 rules a(a) -> a",
            "1:19: expected `)` after the parts of `a`, which has 0, found `a`",
        ),
        (
            "signs a/0 f/2 rules f -> a",
            "1:23: expected `(` and the parts of `f`, which has 2, found `->`",
        ),
        (
            "signs a/0 f/2 rules f(a) -> a",
            "1:24: expected `,` and the next part of `f`, which has 2, found `)`",
        ),
        (
            "signs a/0 f/2 rules f(a, a, a) -> a",
            "1:27: expected `)` after the parts of `f`, which has 2, found `,`",
        ),
        (
            "signs a/0 f/2 rules f(a, f(a, a) -> a",
            "1:34: expected `)` after the parts of `f`, which has 2, found `->`",
        ),
        (
            "signs a/0 letters b c d e f g h i j k l m n o p q r rules r -> a",
            "1:59: expected one of the first 16 letters, found `r`",
        ),
        (
            "signs a/0 rules a -> a = b",
            "1:26: expected the name of a sign or a letter, found `b`",
        ),
    ];

    fn told(heap: Global, read: Result<Book, Error>) -> Result<String, AllocError> {
        match read {
            Ok(_) => String::from_str(heap, "no fault"),
            Err(e) => e.to_string(heap),
        }
    }

    fn read(heap: Global, text: &str) -> Result<Book, Fail> {
        parse(heap, text).map_err(|e| Fail::new(e))
    }

    #[test]
    fn faults(rt: HostRuntime) -> Result<(), Fail> {
        let heap = rt.alloc();
        for (text, fault) in &FAULTS {
            assert_eq!(rt; told(heap, parse(heap, text))?.as_str(), *fault);
        }
        Ok(())
    }

    #[test]
    fn sums(rt: HostRuntime) -> Result<(), Fail> {
        let heap = rt.alloc();
        let book = read(heap, SUMS)?;
        assert_eq!(rt; book.words.as_slice(), SUMS_WORDS.as_slice());
        assert_eq!(rt;
            book.ways.as_slice(),
            [1, 0, 1, 1, 1, 1, 1, 2, 0, 0, 0, 1].as_slice()
        );
        assert_eq!(rt;
            equation_text(heap, &book, 1)?.as_str(),
            "plus(next(x), y) = next(plus(x, y))"
        );
        assert_eq!(rt; rule_text(heap, &book, 0)?.as_str(), "plus(zero, y) -> y");
        assert_eq!(rt; rule_text(heap, &book, 2)?.as_str(), "");
        Ok(())
    }

    #[test]
    fn printed_and_read(rt: HostRuntime) -> Result<(), Fail> {
        let heap = rt.alloc();
        for text in [SUMS, RANKED] {
            let book = read(heap, text)?;
            let again = read(heap, book_text(heap, &book)?.as_str())?;
            assert_eq!(rt; again.words.as_slice(), book.words.as_slice());
            assert_eq!(rt; again.ways.as_slice(), book.ways.as_slice());
        }
        Ok(())
    }

    // What `part` stands in so many times, each with its number where `part` wants one.
    struct Long {
        head: &'static str,
        part: &'static str,
        numbered: bool,
        most: u32,
        tail: &'static str,
        fault: &'static str,
    }

    const LIMITS: [Long; 6] = [
        Long {
            head: "signs z",
            part: "/0 a",
            numbered: true,
            most: 31,
            tail: "/0",
            fault: "expected at most 32 signs, found `a31`",
        },
        Long {
            head: "signs z/0 letters",
            part: " a",
            numbered: true,
            most: 256,
            tail: "",
            fault: "expected at most 256 letters, found `a256`",
        },
        Long {
            head: "signs a/0 equations",
            part: " a=a",
            numbered: false,
            most: 64,
            tail: "",
            fault: "expected at most 64 equations, found `a`",
        },
        Long {
            head: "signs a/0 rules",
            part: " a->a",
            numbered: false,
            most: 64,
            tail: "",
            fault: "expected at most 64 rules, found `a`",
        },
        Long {
            head: "signs a/0 rules a->a",
            part: "=a",
            numbered: false,
            most: 8225,
            tail: "",
            fault: "expected at most 16451 words of ways, found `a`",
        },
        Long {
            head: "signs a/0 f/1 equations a=",
            part: "f(",
            numbered: false,
            most: 31,
            tail: "a",
            fault: "expected at most 32 letters and signs a side, found `a`",
        },
    ];

    fn long_text(heap: Global, long: &Long, times: u32) -> Result<String, AllocError> {
        let mut text = String::from_str(heap, long.head)?;
        for i in 0..times {
            text.push_str(long.part)?;
            if long.numbered {
                write!(text, "{i}")?;
            }
        }
        text.push_str(long.tail)?;
        Ok(text)
    }

    #[test]
    fn limits(rt: HostRuntime) -> Result<(), Fail> {
        let heap = rt.alloc();
        for long in &LIMITS {
            let within = long_text(heap, long, long.most)?;
            let beyond = long_text(heap, long, long.most.saturating_add(1))?;
            assert!(rt;
                !told(heap, parse(heap, within.as_str()))?
                    .as_str()
                    .ends_with(long.fault),
                "{}",
                long.fault
            );
            assert!(rt;
                told(heap, parse(heap, beyond.as_str()))?
                    .as_str()
                    .ends_with(long.fault),
                "{}",
                long.fault
            );
        }
        Ok(())
    }

    // Rows, and what is told of them.
    const ROWS: [(&str, &str); 6] = [
        ("", "0 and 0 words"),
        ("1 0 7 0 0", "5 and 0 words"),
        ("1 0 7 0 0 # a book\n\n\n", "5 and 0 words"),
        ("\n 4294967295 0", "0 and 2 words"),
        (
            "1 x",
            "1:3: expected a number of at most 32 bits, found `x`",
        ),
        (
            "1\n2\n\n3",
            "4:1: expected the end of the text after two rows, found `3`",
        ),
    ];

    #[test]
    fn rows(rt: HostRuntime) -> Result<(), Fail> {
        let heap = rt.alloc();
        for (text, wanted) in &ROWS {
            let found = match read_rows(heap, text) {
                Ok(rows) => {
                    let book = rows.book.len();
                    let ways = rows.ways.len();
                    format!(in heap; "{book} and {ways} words")?
                }
                Err(e) => e.to_string(heap)?,
            };
            assert_eq!(rt; found.as_str(), *wanted);
        }
        Ok(())
    }

    // Lines with pairs of terms by the names of the first book, and what is told of them.
    const PAIRS: [(&str, &str); 8] = [
        ("plus(zero, y)=next(y)  # so", "1 2 1 0 0 1 | 1 1 0 1"),
        ("\t# plus", "blank"),
        (
            "zero",
            "7:5: expected `=` and the other term, found the end of the line",
        ),
        (
            "zero = next",
            "7:12: expected `(` and the parts of `next`, which has 1, found the end of the line",
        ),
        (
            "zero = zero zero",
            "7:13: expected the end of the line, found `zero`",
        ),
        (
            "zero -> zero",
            "7:6: expected `=` and the other term, found `->`",
        ),
        (
            "z = zero",
            "7:1: expected the name of a sign or a letter, found `z`",
        ),
        ("= zero", "7:1: expected a term, found `=`"),
    ];

    // The same, with rows.
    const PAIR_ROWS: [(&str, &str); 6] = [
        ("1 2 1 0 0 1|1 1 0 1", "1 2 1 0 0 1 | 1 1 0 1"),
        ("|", "|"),
        ("  ", "blank"),
        (
            "1 0",
            "7:4: expected a number of at most 32 bits, or `|`, found the end of the line",
        ),
        (
            "1 x | 1",
            "7:3: expected a number of at most 32 bits, or `|`, found `x`",
        ),
        (
            "1 | 2 | 3",
            "7:7: expected a number of at most 32 bits, or the end of the line, found `|`",
        ),
    ];

    fn shown(heap: Global, line: Result<Line, Error>, pair: &Pair) -> Result<String, AllocError> {
        match line {
            Ok(Line::Blank) => String::from_str(heap, "blank"),
            Ok(Line::Long) => String::from_str(heap, "long"),
            Ok(Line::Pair) => {
                let mut text = String::new(heap);
                for n in &pair.one {
                    write!(text, "{n} ")?;
                }
                text.push('|')?;
                for n in &pair.other {
                    write!(text, " {n}")?;
                }
                Ok(text)
            }
            Err(e) => on_line(e, 7).to_string(heap),
        }
    }

    #[test]
    fn pairs(rt: HostRuntime) -> Result<(), Fail> {
        let heap = rt.alloc();
        let book = read(heap, SUMS)?;
        let mut pair = Pair::new(heap)?;
        for (line, wanted) in &PAIRS {
            let found = parse_pair(heap, &book.signature, line.as_bytes(), &mut pair);
            assert_eq!(rt; shown(heap, found, &pair)?.as_str(), *wanted);
        }
        for (line, wanted) in &PAIR_ROWS {
            let found = pair.read(heap, line.as_bytes());
            assert_eq!(rt; shown(heap, found, &pair)?.as_str(), *wanted);
        }
        Ok(())
    }
}
