// Whether the basics of the standing rules and of one more are at most twelve.
ghost use Rattle.std.specs.Prelude.{◌≡◌, ◌+◌, ◌<◌, false, ◌||◌, min, nat_le, slice_index_or};
ghost use Rattle.std.specs.List.{count_by, list_any, range_with_len};
ghost use Rattle.logic.specs.Basics.{occurs, ops, spent, tally};
ghost use Rattle.book.specs.Rules.{rule_has, rule_of, rules_of, together};

use grammar::Contents;
use logic::{Formula, has_signal, room_after};

const BASICS: u32 = 12;

// Whether a rule stands in the slot and has the signal g.
fn has(slot: &Option<Formula>, g: u8) -> bool
    ensures { result ≡ rule_has g (rule_of slot.now) }
{
    slot.as_ref().is_some_and(|f| has_signal(f, g))
}

fn any_has(slots: &[Option<Formula>], g: u8) -> bool
    ensures { result ≡ list_any (λ s. rule_has g (rule_of s)) slots.now }
{
    slots.iter().any(|slot| has(slot, g))
}

// Whether a standing rule has the signal g.
fn stands_with(slots: &[Option<Formula>], g: u8) -> bool
    ensures { result ≡ occurs (together (rules_of slots.now)) g }
{
    any_has(slots, g)
}

// What the operators of the standing rules leave of a room.
fn operators_leave(slots: &[Option<Formula>], room: u32) -> Option<u32>
    ensures { result ≡ spent (ops (together (rules_of slots.now))) room }
{
    // A loop, since no lemma says what `try_fold` gives: its result stayed open (`returns`).
    let mut left = room;
    for slot in slots {
        if let Some(f) = slot {
            left = room_after(f, left)?;
        }
    }
    Some(left)
}

// Whether the signal g is new or a standing rule has it.
fn occurs_with(slots: &[Option<Formula>], seen: &Contents, g: u8) -> bool
    requires { g < 16 }
    ensures { result ≡ (slice_index_or seen.now.signals g false || occurs (together (rules_of slots.now)) g) }
{
    seen.signals[g as usize] || stands_with(slots, g)
}

// How many signals the standing rules and the new one have, counted no further than `most`.
fn signals_of(slots: &[Option<Formula>], seen: &Contents, most: usize) -> usize
    ensures { result ≡ min most (count_by (λ g. slice_index_or seen.now.signals g false || occurs (together (rules_of slots.now)) g) (range_with_len 0 16)) }
{
    (0..16u8)
        .filter(|g| occurs_with(slots, seen, *g))
        .take(most)
        .count()
}

// Whether the new signals and those of the standing rules find room.
fn signals_fit(slots: &[Option<Formula>], seen: &Contents, room: u32) -> bool
    ensures { result ≡ nat_le (tally 16 (λ g. slice_index_or seen.now.signals g false || occurs (together (rules_of slots.now)) g)) room }
{
    let room = room as usize;
    signals_of(slots, seen, room + 1) <= room
}

// Whether the standing rules and one that holds this have at most twelve basics.
pub(crate) fn fits(slots: &[Option<Formula>], seen: &Contents) -> bool
    ensures { result ≡ nat_le (tally 16 (λ g. slice_index_or seen.now.signals g false || occurs (together (rules_of slots.now)) g) + (seen.now.operators + ops (together (rules_of slots.now)))) 12 }
{
    BASICS
        .checked_sub(seen.operators)
        .and_then(|room| operators_leave(slots, room))
        .is_some_and(|left| signals_fit(slots, seen, left))
}
