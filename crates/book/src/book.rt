// What a book holds, and what always holds of it.
ghost use Rattle.std.specs.Prelude.{◌≡◌, ◌≤◌, true, length, vec_len, vec_capacity};
ghost use Rattle.logic.specs.Basics.{basics, below};
ghost use Rattle.book.specs.Rules.{rules_of, together};

use logic::Formula;

pub(crate) const SLOTS: usize = 8;

#[derive(Drop)]
pub struct Book {
    pub(crate) names: Vec<Vec<u8>>,
    pub(crate) slots: [Option<Formula>; SLOTS],
    ghost few: { vec_len names ≤ 16 },
    ghost room: { 16 ≤ vec_capacity names },
    ghost eight: { length slots ≡ 8 },
    ghost basic: { basics (together (rules_of slots)) ≤ 12 },
    ghost known: { below (vec_len names) (together (rules_of slots)) ≡ true },
}
