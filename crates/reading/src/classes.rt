// Classes of bytes, and how many bytes of a class stand at the front of a text.
ghost use Rattle.std.specs.Prelude.{◌≡◌, ℕ, ◌≤◌, Bool, length};
ghost use Rattle.std.specs.List.{prefix_len};
ghost use Rattle.reading.specs.Tokens.{is_blank, word_byte};

// A test of bytes. Its method has no condition, as the calls of a closure that is handed in would have.
pub trait Class {
    ghost test: { Self → ℕ → Bool };

    fn has(&self, b: u8) -> bool
        ensures { result ≡ test self.now b };
}

pub fn leading_of<C: Class>(class: &C, s: &[u8]) -> usize
    ensures within { result ≤ length s.now }
    ensures count { result ≡ prefix_len (C.Class.test class.now) s.now }
{
    for (n, b) in s.iter().enumerate() {
        if !class.has(*b) {
            return n;
        }
    }
    s.len()
}

// Spaces and line feeds.
pub(crate) struct Blank;

impl Class for Blank {
    ghost test = { λ _. is_blank };

    fn has(&self, b: u8) -> bool {
        b == b' ' || b == b'\n'
    }
}

// Lower-case letters, digits and underscores.
pub(crate) struct WordByte;

impl Class for WordByte {
    ghost test = { λ _. word_byte };

    fn has(&self, b: u8) -> bool {
        b.is_ascii_lowercase() || b.is_ascii_digit() || b == b'_'
    }
}
