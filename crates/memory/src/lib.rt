// Where memory comes from. A refusal for want of memory is honest: under plenty none is given.
#![tactic(auto)]

ghost use Rattle.std.specs.Prelude.{◌≡◌, ◌≤◌, true, false, [], is_ok, IfOk, vec_len, vec_capacity};

use std::alloc::{AllocError, Global};

pub trait Memory {
    // There is memory for all that is asked for.
    ghost plenty: { Self → Type 0 };

    // An empty row with room for so many.
    fn row<T>(&self, room: usize) -> Result<Vec<T>, AllocError>
        ensures empty { IfOk result (λ v. (v.items ≡ []) × (vec_len v ≡ 0) × (room ≤ vec_capacity v)) }
        ensures honest { plenty self.now → is_ok result ≡ true };

    fn boxed<T: Drop>(&self, x: T) -> Result<Box<T>, AllocError>
        ensures holds { IfOk result (λ b. b.value ≡ x) }
        ensures honest { plenty self.now → is_ok result ≡ true };
}

// The heap promises nothing.
impl Memory for Global {
    ghost plenty = { λ _. ⊥ };

    fn row<T>(&self, room: usize) -> Result<Vec<T>, AllocError> {
        Vec::with_capacity(*self, room)
    }

    fn boxed<T: Drop>(&self, x: T) -> Result<Box<T>, AllocError> {
        Ok(Box::new(*self, x)?)
    }
}

// A memory that has none: for trying what is refused then.
#[derive(Clone, Copy)]
pub struct NoMemory;

impl Memory for NoMemory {
    ghost plenty = { λ _. ⊥ };

    fn row<T>(&self, _room: usize) -> Result<Vec<T>, AllocError>
        ensures empty { IfOk result (λ v. (v.items ≡ []) × (vec_len v ≡ 0) × (_room ≤ vec_capacity v)) }
        ensures honest { ⊥ → is_ok result ≡ true }
        ensures none { is_ok result ≡ false }
    {
        Err(AllocError)
    }

    fn boxed<T: Drop>(&self, x: T) -> Result<Box<T>, AllocError>
        ensures holds { IfOk result (λ b. b.value ≡ x) }
        ensures honest { ⊥ → is_ok result ≡ true }
        ensures none { is_ok result ≡ false }
    {
        let _ = x;
        Err(AllocError)
    }
}

// A copy of these bytes.
pub fn copy_of<M: Memory>(memory: &M, bytes: &[u8]) -> Result<Vec<u8>, AllocError>
    ensures same { IfOk result (λ v. v.items ≡ bytes.now) }
    ensures honest { M.Memory.plenty memory.now → is_ok result ≡ true }
{
    let mut copy = memory.row(bytes.len())?;
    copy.extend_from_slice(bytes)?;
    Ok(copy)
}
