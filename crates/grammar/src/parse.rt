// The grammar as methods that call each other: `until` and `->` group to the right, `&` and `|` to the left.
ghost use Rattle.std.specs.Prelude.{◌≡◌, ℕ, ◌<◌, true, false, List, MatchResult};
ghost use Rattle.logic.specs.Form.{form_of};
ghost use Rattle.reading.specs.Names.{names_of};
ghost use Rattle.grammar.specs.Grammar.{atom};
ghost use Rattle.grammar.specs.Answers.{ReadAs};
ghost use Rattle.grammar.specs.Left.{left, Falls};
ghost use Rattle.grammar.specs.Ahead.{infix_form, prefix_form, stream_of, op_rank};
ghost use Rattle.grammar.specs.Parts.{Starved, Shut, Answered, rung_of, rung_under, to_the_right};

use super::contents::survey;
use super::signal::signal_of;
use super::state::{Due, Infix, Prefix, State};
use super::unread::Unread;
use faults::{Cause, Fault, ReadingCause};
use logic::Formula;
use memory::Memory;
use reading::Token;

// What a reading is given: memory for its formulas, and the declared names.
#[derive(Drop)]
struct Parser<'a, M: Memory> {
    memory: &'a M,
    names: &'a [Vec<u8>],
}

fn close(s: &mut State) -> Result<(), Fault<ReadingCause>>
    requires { 4 < op_rank (stream_of s.old) }
    ensures shut { (names : List (List ℕ)) → Shut names (stream_of s.old) (stream_of s.new) result }
    ensures falls { Falls result (left s.new) (left s.old) }
{
    let Some(p) = s.ahead else {
        return Err(s.refusal(ReadingCause::Unfinished));
    };
    match p.token {
        Token::Close => s.advance(),
        _ => Err(s.refusal(ReadingCause::Misfit)),
    }
}

impl<'a, M: Memory> Parser<'a, M> {
    fn boxed(&self, f: Formula) -> Result<Box<Formula>, Unread>
        ensures { MatchResult result (λ b. b.value ≡ f) (λ e. Starved (M.Memory.plenty self.now.memory.now) e) }
    {
        Ok(self.memory.boxed(f)?)
    }

    fn prefixed(&self, op: Prefix, f: Formula) -> Result<Formula, Unread>
        ensures { MatchResult result (λ g. form_of g ≡ prefix_form op (form_of f)) (λ e. Starved (M.Memory.plenty self.now.memory.now) e) }
    {
        let f = self.boxed(f)?;
        Ok(match op {
            Prefix::Not => Formula::Not(f),
            Prefix::Next => Formula::Next(f),
            Prefix::Always => Formula::Always(f),
            Prefix::Eventually => Formula::Eventually(f),
        })
    }

    fn joined(&self, op: Infix, f: Formula, g: Formula) -> Result<Formula, Unread>
        ensures { MatchResult result (λ h. form_of h ≡ infix_form op (form_of f) (form_of g)) (λ e. Starved (M.Memory.plenty self.now.memory.now) e) }
    {
        let f = self.boxed(f)?;
        let g = self.boxed(g)?;
        Ok(match op {
            Infix::Implies => Formula::Implies(f, g),
            Infix::Or => Formula::Or(f, g),
            Infix::And => Formula::And(f, g),
            Infix::Until => Formula::Until(f, g),
        })
    }

    #[cycle(formulas)]
    fn operand(&self, s: &mut State) -> Result<Formula, Unread>
        ensures read { Answered (names_of self.now.names.now) (M.Memory.plenty self.now.memory.now) atom (stream_of s.old) (stream_of s.new) result }
        ensures falls { Falls result (left s.new) (left s.old) }
    {
        match s.due()? {
            Due::True => {
                s.advance()?;
                Ok(Formula::True)
            }
            Due::False => {
                s.advance()?;
                Ok(Formula::False)
            }
            Due::Name(name) => {
                let g = signal_of(self.names, name).ok_or(s.refusal(ReadingCause::Undeclared))?;
                s.advance()?;
                Ok(Formula::Signal(g))
            }
            Due::Prefix(op) => {
                s.advance()?;
                let f = self.operand(s)?;
                self.prefixed(op, f)
            }
            Due::Open => {
                s.advance()?;
                let f = self.formula(s, Infix::Implies)?;
                close(s)?;
                Ok(f)
            }
        }
    }

    // A formula in which no operator binds less than this one does.
    // A match and no closures for the rungs: calls that come back through a closure have no measure.
    #[cycle(formulas)]
    fn formula(&self, s: &mut State, op: Infix) -> Result<Formula, Unread>
        ensures read { Answered (names_of self.now.names.now) (M.Memory.plenty self.now.memory.now) (rung_of op) (stream_of s.old) (stream_of s.new) result }
        ensures falls { Falls result (left s.new) (left s.old) }
    {
        match op {
            Infix::Implies => self.to_right(s, op),
            Infix::Or => self.to_left(s, op),
            Infix::And => self.to_left(s, op),
            Infix::Until => self.to_right(s, op),
        }
    }

    // What stands on the left of this operator.
    #[cycle(formulas)]
    fn below(&self, s: &mut State, op: Infix) -> Result<Formula, Unread>
        ensures read { Answered (names_of self.now.names.now) (M.Memory.plenty self.now.memory.now) (rung_under op) (stream_of s.old) (stream_of s.new) result }
        ensures falls { Falls result (left s.new) (left s.old) }
    {
        match op {
            Infix::Implies => self.formula(s, Infix::Or),
            Infix::Or => self.formula(s, Infix::And),
            Infix::And => self.formula(s, Infix::Until),
            Infix::Until => self.operand(s),
        }
    }

    #[cycle(formulas)]
    fn to_right(&self, s: &mut State, op: Infix) -> Result<Formula, Unread>
        requires { to_the_right op ≡ true }
        ensures read { Answered (names_of self.now.names.now) (M.Memory.plenty self.now.memory.now) (rung_of op) (stream_of s.old) (stream_of s.new) result }
        ensures falls { Falls result (left s.new) (left s.old) }
    {
        let f = self.below(s, op)?;
        if s.is_at(op) {
            s.advance()?;
            let g = self.to_right(s, op)?;
            self.joined(op, f, g)
        } else {
            Ok(f)
        }
    }

    #[cycle(formulas)]
    fn to_left(&self, s: &mut State, op: Infix) -> Result<Formula, Unread>
        requires { to_the_right op ≡ false }
        ensures read { Answered (names_of self.now.names.now) (M.Memory.plenty self.now.memory.now) (rung_of op) (stream_of s.old) (stream_of s.new) result }
        ensures falls { Falls result (left s.new) (left s.old) }
    {
        let mut f = self.below(s, op)?;
        while s.is_at(op) {
            s.advance()?;
            let g = self.below(s, op)?;
            f = self.joined(op, f, g)?;
        }
        Ok(f)
    }
}

pub fn read<M: Memory>(memory: &M, names: &[Vec<u8>], text: &[u8]) -> Result<Formula, Unread>
    ensures { ReadAs (names_of names.now) text.now (M.Memory.plenty memory.now) result }
{
    let _ = survey(names, text)?;
    let parser = Parser { memory, names };
    let mut s = State::new(text);
    s.fetch()?;
    let f = parser.formula(&mut s, Infix::Implies)?;
    match s.ahead {
        None => Ok(f),
        Some(p) => Err(Unread::Refused(ReadingCause::Misfit.at(p.place))),
    }
}
