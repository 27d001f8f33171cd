// An input, of which no more than a fixed part is read.
ghost use Rattle.std.specs.Prelude.{◌≤◌, IfOk, vec_len};

use std::alloc::Global;
use std::io;
use std::io::Read;

const MOST_INPUT: usize = 65_536;

pub fn read_input<R: Read + Drop>(heap: Global, source: R) -> io::Result<Vec<u8>>
    ensures { IfOk result (λ v. vec_len v ≤ 65536) }
{
    let mut input = Vec::new(heap);
    source.take(MOST_INPUT as u64).read_to_end(&mut input)?;
    input.truncate(MOST_INPUT);
    Ok(input)
}
