// Questions about mark words.
ghost use Rattle.std.specs.Prelude.{Decides};
ghost use Rattle.logic.specs.Marks.{Whole};

// The low bit of every mark.
const LOW_BITS: u32 = 0x5555_5555;

// No signal has the mark zero.
pub fn is_whole(w: u32) -> bool
    ensures { Decides result (Whole w) }
{
    (w | w >> 1) & LOW_BITS == LOW_BITS
}
