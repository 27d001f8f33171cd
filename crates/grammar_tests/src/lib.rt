// Examples of rule texts: their formulas, their refusals, and what they hold.
#![tactic(auto)]

#[cfg(test)]
mod tests {
    use grammar::{Unread, read, survey};
    use logic::Formula;
    use memory::{Memory, NoMemory};
    use std::alloc::{AllocError, Global};
    use std::process::Abort;
    use std::test::Fail;

    // Each pair of neighbouring operators, and what parentheses and blanks do.
    const FORMULAS: [(&str, &str); 36] = [
        ("p until q until r", "(p until (q until r))"),
        ("p until q & r", "((p until q) & r)"),
        ("p until q | r", "((p until q) | r)"),
        ("p until q -> r", "((p until q) -> r)"),
        ("p & q until r", "(p & (q until r))"),
        ("p & q & r", "((p & q) & r)"),
        ("p & q | r", "((p & q) | r)"),
        ("p & q -> r", "((p & q) -> r)"),
        ("p | q until r", "(p | (q until r))"),
        ("p | q & r", "(p | (q & r))"),
        ("p | q | r", "((p | q) | r)"),
        ("p | q -> r", "((p | q) -> r)"),
        ("p -> q until r", "(p -> (q until r))"),
        ("p -> q & r", "(p -> (q & r))"),
        ("p -> q | r", "(p -> (q | r))"),
        ("p -> q -> r", "(p -> (q -> r))"),
        ("not p until q", "((not p) until q)"),
        ("next p & q", "((next p) & q)"),
        ("always p | q", "((always p) | q)"),
        ("eventually p -> q", "((eventually p) -> q)"),
        ("p until not q", "(p until (not q))"),
        ("p & next q", "(p & (next q))"),
        ("p | always q", "(p | (always q))"),
        ("p -> eventually q", "(p -> (eventually q))"),
        (
            "not next always eventually p",
            "(not (next (always (eventually p))))",
        ),
        ("not p until q & r", "(((not p) until q) & r)"),
        ("(p until q) until r", "((p until q) until r)"),
        ("p & (q & r)", "(p & (q & r))"),
        ("p | (q | r)", "(p | (q | r))"),
        ("(p -> q) -> r", "((p -> q) -> r)"),
        ("not (p & q)", "(not (p & q))"),
        ("p&q|r->true", "(((p & q) | r) -> true)"),
        ("\n p\nuntil  false\n", "(p until false)"),
        ("((p))", "p"),
        ("not(p)", "(not p)"),
        ("p & p", "(p & p)"),
    ];

    const REFUSALS: [(&str, &str); 68] = [
        // where an operand is due
        (")", "refused 3 0"),
        ("&", "refused 3 0"),
        ("|", "refused 3 0"),
        ("->", "refused 3 0"),
        ("until", "refused 3 0"),
        ("not )", "refused 3 4"),
        ("not & p", "refused 3 4"),
        ("next | p", "refused 3 5"),
        ("always -> p", "refused 3 7"),
        ("eventually until p", "refused 3 11"),
        ("p & )", "refused 3 4"),
        ("p | & q", "refused 3 4"),
        ("p -> | q", "refused 3 5"),
        ("p until -> q", "refused 3 8"),
        ("p & until q", "refused 3 4"),
        ("( )", "refused 3 2"),
        ("( & p", "refused 3 2"),
        // where one has ended
        ("p (", "refused 3 2"),
        ("p )", "refused 3 2"),
        ("p not q", "refused 3 2"),
        ("p next q", "refused 3 2"),
        ("p always q", "refused 3 2"),
        ("p eventually q", "refused 3 2"),
        ("p true", "refused 3 2"),
        ("p false", "refused 3 2"),
        ("p q", "refused 3 2"),
        ("true false", "refused 3 5"),
        ("(p) q", "refused 3 4"),
        ("(p) (q)", "refused 3 4"),
        ("(p))", "refused 3 3"),
        ("not p true", "refused 3 6"),
        // the text ends too early
        ("", "refused 4 0"),
        (" \n ", "refused 4 3"),
        ("not", "refused 4 3"),
        ("p &", "refused 4 3"),
        ("p & ", "refused 4 4"),
        ("p |", "refused 4 3"),
        ("p ->", "refused 4 4"),
        ("p until", "refused 4 7"),
        ("(", "refused 4 1"),
        ("( p", "refused 4 3"),
        ("(p & q ", "refused 4 7"),
        ("((p)", "refused 4 4"),
        // names that are not declared
        ("x", "refused 5 0"),
        ("not x", "refused 5 4"),
        ("p & x", "refused 5 4"),
        ("(x", "refused 5 1"),
        ("pp", "refused 5 0"),
        ("p_", "refused 5 0"),
        ("nots", "refused 5 0"),
        ("s until x", "refused 5 0"),
        // bytes and words that are no token
        ("p -q", "refused 1 2"),
        ("# a remark", "refused 1 0"),
        ("p # a remark", "refused 1 2"),
        ("p & Q", "refused 1 4"),
        ("p & 1", "refused 1 4"),
        ("_p", "refused 1 0"),
        ("p\t", "refused 1 1"),
        ("abcdefghijklmnopq", "refused 2 0"),
        ("p & abcdefghijklmnopq", "refused 2 4"),
        // the first from left to right
        ("p x", "refused 3 2"),
        ("& x", "refused 3 0"),
        ("x y", "refused 5 0"),
        ("x &", "refused 5 0"),
        ("p x #", "refused 3 2"),
        (") #", "refused 3 0"),
        ("p abcdefghijklmnopq", "refused 2 2"),
        ("p #", "refused 1 2"),
    ];

    // A text, how many operators that look ahead it has, and its signals.
    const CONTENTS: [(&str, u32, &str); 8] = [
        ("true", 0, ""),
        ("p", 0, "p"),
        ("p & p -> not p", 0, "p"),
        ("always p & eventually not p", 2, "p"),
        ("next next true", 2, ""),
        ("q until r until p", 2, "pqr"),
        ("(r | false) & next r", 1, "r"),
        ("not (q -> q until always q)", 2, "q"),
    ];

    // What follows 31 times `not `, and how the outcome begins.
    const MANY_TOKENS: [(&str, &str); 9] = [
        ("p", "(not (not"),
        ("((p))", "(not (not"),
        ("not p", "refused 6 128"),
        ("p q", "refused 6 126"),
        ("p & q", "refused 6 126"),
        ("not x", "refused 6 128"),
        ("p )", "refused 3 126"),
        ("x )", "refused 5 124"),
        ("p #", "refused 1 126"),
    ];

    // So many `(`, a text, so many `)`, and the outcome.
    const DEEP: [(usize, &str, usize, &str); 5] = [
        (255, "p ", 255, "p"),
        (512, "", 0, "refused 4 512"),
        (256, "p", 255, "refused 4 512"),
        (255, "p", 256, "refused 3 511"),
        (255, "", 1, "refused 3 255"),
    ];

    // Where there is no memory at all.
    const STARVED: [(&str, &str); 5] = [
        ("p", "p"),
        ("(true)", "true"),
        ("not p", "no memory"),
        ("not p )", "refused 3 6"),
        ("p & x", "refused 5 4"),
    ];

    const LETTERS: [&str; 17] = [
        "p", "q", "r", "d", "e", "f", "g", "h", "i", "j", "k", "l", "m", "n", "o", "s", "t",
    ];

    // The first letters, as names.
    fn letters(heap: Global, count: usize) -> Result<Vec<Vec<u8>>, AllocError> {
        let mut names = Vec::new(heap);
        for letter in LETTERS.iter().take(count) {
            names.push(Vec::from_slice(heap, letter.as_bytes())?)?;
        }
        Ok(names)
    }

    fn letter(g: u8) -> &'static str {
        LETTERS.get(g as usize).copied().unwrap_or("?")
    }

    #[cycle(joined_prefixed_show)]
    fn prefixed(word: &str, a: &Formula, out: &mut String) -> Result<(), AllocError> {
        out.push_str(word)?;
        show(a, out)?;
        out.push_str(")")
    }

    #[cycle(joined_prefixed_show)]
    fn joined(
        a: &Formula,
        operator: &str,
        b: &Formula,
        out: &mut String,
    ) -> Result<(), AllocError> {
        out.push_str("(")?;
        show(a, out)?;
        out.push_str(operator)?;
        show(b, out)?;
        out.push_str(")")
    }

    // A formula as text, with every operator in parentheses.
    #[cycle(joined_prefixed_show)]
    fn show(f: &Formula, out: &mut String) -> Result<(), AllocError> {
        match f {
            Formula::True => out.push_str("true"),
            Formula::False => out.push_str("false"),
            Formula::Signal(g) => out.push_str(letter(*g)),
            Formula::Not(a) => prefixed("(not ", a, out),
            Formula::Next(a) => prefixed("(next ", a, out),
            Formula::Always(a) => prefixed("(always ", a, out),
            Formula::Eventually(a) => prefixed("(eventually ", a, out),
            Formula::And(a, b) => joined(a, " & ", b, out),
            Formula::Or(a, b) => joined(a, " | ", b, out),
            Formula::Implies(a, b) => joined(a, " -> ", b, out),
            Formula::Until(a, b) => joined(a, " until ", b, out),
        }
    }

    // What comes of a text: its formula, or why there is none.
    fn outcome<M: Memory>(
        heap: Global,
        memory: &M,
        names: &[Vec<u8>],
        text: &[u8],
    ) -> Result<String, AllocError> {
        match read(memory, names, text) {
            Ok(f) => {
                let mut out = String::new(heap);
                show(&f, &mut out)?;
                Ok(out)
            }
            Err(Unread::Refused(e)) => format!(in heap; "{e}"),
            Err(Unread::NoMemory) => String::from_str(heap, "no memory"),
        }
    }

    fn gives(
        rt: &impl Abort,
        heap: Global,
        names: &[Vec<u8>],
        text: &str,
        expected: &str,
    ) -> Result<(), Fail> {
        let out = outcome(heap, &heap, names, text.as_bytes())?;
        assert_eq!(rt; out.as_str(), expected, "{}", text);
        Ok(())
    }

    // Each text of the row gives what stands beside it.
    fn each_gives(rt: &impl Abort, heap: Global, cases: &[(&str, &str)]) -> Result<(), Fail> {
        let names = letters(heap, 3)?;
        for (text, expected) in cases {
            gives(rt, heap, &names, text, expected)?;
        }
        Ok(())
    }

    #[test]
    fn formulas(rt: HostRuntime) -> Result<(), Fail> {
        each_gives(&rt, rt.alloc(), &FORMULAS)
    }

    #[test]
    fn refusals(rt: HostRuntime) -> Result<(), Fail> {
        each_gives(&rt, rt.alloc(), &REFUSALS)
    }

    // So many times the first, then the second, then so many times the third.
    fn around(
        heap: Global,
        count: usize,
        front: &str,
        middle: &str,
        times: usize,
        back: &str,
    ) -> Result<String, AllocError> {
        let mut text = String::new(heap);
        for _ in 0..count {
            text.push_str(front)?;
        }
        text.push_str(middle)?;
        for _ in 0..times {
            text.push_str(back)?;
        }
        Ok(text)
    }

    #[test]
    fn at_most_32_tokens_that_are_no_parenthesis(rt: HostRuntime) -> Result<(), Fail> {
        let heap = rt.alloc();
        let names = letters(heap, 3)?;
        for (middle, expected) in MANY_TOKENS {
            let text = around(heap, 31, "not ", middle, 0, "")?;
            let out = outcome(heap, &heap, &names, text.as_bytes())?;
            assert_eq!(rt; out.as_str().starts_with(expected), true, "{}", middle);
        }
        Ok(())
    }

    #[test]
    fn deep_parentheses(rt: HostRuntime) -> Result<(), Fail> {
        let heap = rt.alloc();
        let names = letters(heap, 3)?;
        for (opened, middle, closed, expected) in DEEP {
            let text = around(heap, opened, "(", middle, closed, ")")?;
            gives(&rt, heap, &names, text.as_str(), expected)?;
        }
        Ok(())
    }

    #[test]
    fn sixteen_names_are_signals(rt: HostRuntime) -> Result<(), Fail> {
        let heap = rt.alloc();
        let names = letters(heap, 17)?;
        gives(&rt, heap, &names, "p & s", "(p & s)")?;
        gives(&rt, heap, &names, "p & t", "refused 5 4")?;
        gives(&rt, heap, &names[0..0], "p", "refused 5 0")
    }

    #[test]
    fn contents(rt: HostRuntime) -> Result<(), Fail> {
        let heap = rt.alloc();
        let names = letters(heap, 3)?;
        for (text, operators, signals) in CONTENTS {
            let Ok(found) = survey(&names, text.as_bytes()) else {
                return Err(Fail::new(text));
            };
            assert_eq!(rt; found.operators, operators, "{}", text);
            let mut out = String::new(heap);
            for (occurs, letter) in found.signals.iter().zip(LETTERS) {
                if *occurs {
                    out.push_str(letter)?;
                }
            }
            assert_eq!(rt; out.as_str(), signals, "{}", text);
        }
        Ok(())
    }

    // Want of memory comes after every other cause.
    #[test]
    fn no_memory(rt: HostRuntime) -> Result<(), Fail> {
        let heap = rt.alloc();
        let names = letters(heap, 3)?;
        for (text, expected) in STARVED {
            let out = outcome(heap, &NoMemory, &names, text.as_bytes())?;
            assert_eq!(rt; out.as_str(), expected, "{}", text);
        }
        Ok(())
    }
}
