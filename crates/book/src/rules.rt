// The rules of a book: taking one into a slot, and dropping one.
ghost use Rattle.std.specs.Prelude.{◌≡◌, ◌≤◌, true, is_some, is_ok, None, slice_index_or};
ghost use Rattle.std.specs.Option.{option_map};
ghost use Rattle.std.specs.Result.{result_err};
ghost use Rattle.faults.specs.Refusals.{book_refusal};
ghost use Rattle.book.specs.Standing.{state_of};
ghost use Rattle.book.specs.Calls.{at_zero, cause_of_slot, TakeCause, Taken, cause_of_drop, Dropped};

use super::book::Book;
use super::fit::fits;
use faults::{BookCause, Cause, Fault};
use grammar::{read, survey};
use memory::Memory;

const LAST_SLOT: usize = 7;

const LONGEST_TEXT: usize = 512;

impl Book {
    // Whether a rule stands in the slot.
    fn stands(&self, slot: usize) -> bool
        requires { slot ≤ 7 }
        ensures { result ≡ is_some (slice_index_or (state_of self.now).rules slot None) }
    {
        self.slots[slot].is_some()
    }

    // That a text can be put into the slot, and one this long, or the first refusal.
    fn has_place(&self, slot: usize, text: &[u8]) -> Result<(), Fault<BookCause>>
        ensures { option_map book_refusal (result_err result) ≡ cause_of_slot (state_of self.now) slot text.now }
    {
        if slot > LAST_SLOT {
            return Err(BookCause::NoSlot.at(0));
        }
        if self.stands(slot) {
            return Err(BookCause::Occupied.at(0));
        }
        if text.len() > LONGEST_TEXT {
            return Err(BookCause::LongText.at(LONGEST_TEXT));
        }
        Ok(())
    }

    // That the text can be put into the slot, or the first refusal.
    fn can_take(&self, slot: usize, text: &[u8]) -> Result<(), Fault<BookCause>>
        ensures { TakeCause (state_of self.now) slot text.now (option_map book_refusal (result_err result)) }
    {
        self.has_place(slot, text)?;
        let seen = survey(self.names.as_slice(), text)?;
        if fits(&self.slots, &seen) {
            Ok(())
        } else {
            Err(BookCause::ManyBasics.at(0))
        }
    }

    // That a rule stands in the slot, or the first cause why none can be dropped.
    fn can_drop(&self, slot: usize) -> Result<(), BookCause>
        ensures { option_map at_zero (result_err result) ≡ cause_of_drop (state_of self.now) slot }
    {
        if slot > LAST_SLOT {
            return Err(BookCause::NoSlot);
        }
        if !self.stands(slot) {
            return Err(BookCause::Vacant);
        }
        Ok(())
    }

    // Puts the formula of a text into an empty slot.
    pub fn take<M: Memory>(
        &mut self,
        memory: &M,
        slot: usize,
        text: &[u8],
    ) -> Result<(), Fault<BookCause>>
        ensures taken { Taken (state_of self.old) slot text.now result (state_of self.new) }
        ensures honest { M.Memory.plenty memory.now → TakeCause (state_of self.old) slot text.now None → is_ok result ≡ true }
    {
        self.can_take(slot, text)?;
        let rule = read(memory, self.names.as_slice(), text)?;
        self.slots[slot] = Some(rule);
        Ok(())
    }

    // Empties a slot.
    pub fn drop_rule(&mut self, slot: usize) -> Result<(), Fault<BookCause>>
        ensures { Dropped (state_of self.old) slot result (state_of self.new) }
    {
        self.can_drop(slot).map_err(|cause| cause.at(0))?;
        self.slots[slot] = None;
        Ok(())
    }
}
