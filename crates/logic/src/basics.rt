// What a formula adds to the basics of a book.
ghost use Rattle.std.specs.Prelude.{◌≡◌};
ghost use Rattle.logic.specs.Form.{form_of};
ghost use Rattle.logic.specs.Basics.{occurs, ops, spent};

use super::formula::Formula;

// Whether the signal g occurs.
pub fn has_signal(f: &Formula, g: u8) -> bool
    ensures { result ≡ occurs (form_of f.now) g }
{
    match f {
        Formula::True | Formula::False => false,
        Formula::Signal(k) => *k == g,
        Formula::Not(f) | Formula::Next(f) | Formula::Always(f) | Formula::Eventually(f) => {
            has_signal(f, g)
        }
        Formula::And(f, h) | Formula::Or(f, h) | Formula::Implies(f, h) => {
            has_signal(f, g) || has_signal(h, g)
        }
        Formula::Until(f, h) => has_signal(f, g) || has_signal(h, g),
    }
}

// What is left of the room once the operators that look ahead have taken theirs, if they find it.
pub fn room_after(f: &Formula, room: u32) -> Option<u32>
    ensures { result ≡ spent (ops (form_of f.now)) room }
{
    match f {
        Formula::True | Formula::False | Formula::Signal(_) => Some(room),
        Formula::Not(f) => room_after(f, room),
        Formula::Next(f) => room_after(f, room)?.checked_sub(1),
        Formula::Always(f) | Formula::Eventually(f) => room_after(f, room)?.checked_sub(1),
        Formula::And(f, g) | Formula::Or(f, g) | Formula::Implies(f, g) => {
            room_after(g, room_after(f, room)?)
        }
        Formula::Until(f, g) => room_after(g, room_after(f, room)?)?.checked_sub(1),
    }
}
