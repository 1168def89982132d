// Tests of unification.
#![tactic(auto)]

#[cfg(test)]
mod terms;

#[cfg(test)]
mod tests {
    use crate::terms::Symbol::{L, S};
    use crate::terms::{becomes, doubling, make, never, solve, start};
    use std::test::Fail;

    #[test]
    fn letters_become_terms(rt: HostRuntime) {
        // f(x) and f(f(y))
        let fx = [L(0), S(0, 1)];
        let fy = [L(1), S(0, 1)];
        let ffy = [L(1), S(0, 1), S(0, 1)];
        assert!(rt; becomes(&fx, &ffy, 0, &fy) == Some(true));
        assert!(rt; becomes(&fx, &ffy, 1, &[L(1)]) == Some(true));
        // h(x, f(x)) and h(f(y), z)
        let left = [L(0), L(0), S(0, 1), S(1, 2)];
        let right = [L(1), S(0, 1), L(2), S(1, 2)];
        assert!(rt; becomes(&left, &right, 2, &ffy) == Some(true));
        assert!(rt;
            becomes(&[L(0)], &[L(1)], 0, &[L(1)]) == Some(true),
            "x and y"
        );
    }

    #[test]
    fn signs_clash(rt: HostRuntime) {
        assert!(rt;
            never(&[L(0), S(0, 1)], &[L(0), S(1, 1)]) == Some(true),
            "f(x), g(x)"
        );
        assert!(rt;
            never(&[L(0), S(0, 1)], &[L(0), L(0), S(0, 2)]) == Some(true),
            "other arity"
        );
        let twice = [L(0), L(0), S(0, 2)];
        assert!(rt;
            never(&twice, &[S(1, 0), S(2, 0), S(0, 2)]) == Some(true),
            "f(x, x), f(a, b)"
        );
        assert!(rt;
            never(&twice, &[S(1, 0), S(1, 0), S(0, 2)]) == Some(false),
            "f(x, x), f(a, a)"
        );
    }

    #[test]
    fn letters_do_not_contain_themselves(rt: HostRuntime) {
        assert!(rt; never(&[L(0)], &[L(0), S(0, 1)]) == Some(true), "x, f(x)");
        assert!(rt; never(&[L(0)], &[L(0)]) == Some(false), "x, x");
        let twice = [L(0), L(0), S(1, 2)];
        assert!(rt;
            never(&twice, &[L(1), L(1), S(0, 1), S(1, 2)]) == Some(true),
            "h(x, x), h(y, f(y))"
        );
        let pair = [L(0), L(1), S(1, 2)];
        let turned = [L(1), S(0, 1), L(0), S(0, 1), S(1, 2)];
        assert!(rt;
            never(&pair, &turned) == Some(true),
            "h(x, y), h(f(y), f(x))"
        );
    }

    // The last letter becomes a term of more than a million symbols, which stand at twenty places.
    #[test]
    fn large_terms_are_shared(rt: HostRuntime) -> Result<(), Fail> {
        let mut words = [0u32; 4096];
        let mut cells = [0u32; 128];
        let mut store = start(&mut words, &mut cells).ok_or("no store")?;
        let (p, q) = doubling(&mut store, 20).ok_or("no terms")?;
        let found = solve(&mut store, p, q).ok_or("not ready")?.ok_or("none")?;
        let before = found.get(19).ok_or("unbound")?;
        let last = make(&mut store, 1, &[before, before]).ok_or("full")?;
        assert!(rt; found.get(20).ok_or("unbound")? == last);
        Ok(())
    }
}
