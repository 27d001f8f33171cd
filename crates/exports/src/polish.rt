// A formula as a row of bytes, each operator before its operands: for comparisons only, so that no contract speaks of the bytes.
use logic::Formula;

// The row is lent from outside; what finds no room is left out.
fn put(out: &mut [u8], at: usize, b: u8) -> usize {
    match out.get_mut(at) {
        Some(place) => {
            *place = b;
            at.saturating_add(1)
        }
        None => at,
    }
}

// 1, 0, a signal's letter from a on, and ! X G F & | > U.
fn symbol_of(f: &Formula) -> u8 {
    match f {
        Formula::True => b'1',
        Formula::False => b'0',
        Formula::Signal(g) => b'a'.saturating_add(*g),
        Formula::Not(_) => b'!',
        Formula::Next(_) => b'X',
        Formula::Always(_) => b'G',
        Formula::Eventually(_) => b'F',
        Formula::And(_, _) => b'&',
        Formula::Or(_, _) => b'|',
        Formula::Implies(_, _) => b'>',
        Formula::Until(_, _) => b'U',
    }
}

// Writes the formula from `at` on, as far as there is room, and answers where it ends.
pub(crate) fn put_formula(out: &mut [u8], at: usize, f: &Formula) -> usize {
    let next = put(out, at, symbol_of(f));
    match f {
        Formula::True | Formula::False | Formula::Signal(_) => next,
        Formula::Not(f) | Formula::Next(f) | Formula::Always(f) | Formula::Eventually(f) => {
            put_formula(out, next, f)
        }
        Formula::And(f, g) | Formula::Or(f, g) | Formula::Implies(f, g) | Formula::Until(f, g) => {
            let second = put_formula(out, next, f);
            put_formula(out, second, g)
        }
    }
}
