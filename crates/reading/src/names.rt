// The number of a declared name.
ghost use Rattle.std.specs.Prelude.{◌≡◌, ◌<◌, length, position, vec_items, IfSome};
ghost use Rattle.std.specs.Str.{bytes_eq};
ghost use Rattle.reading.specs.Names.{found, names_of};

use super::front::is;

fn first_place(names: &[Vec<u8>], name: &[u8]) -> Option<usize>
    ensures place { result ≡ position (λ n. bytes_eq (vec_items n) name.now) names.now }
    ensures within { IfSome result (λ g. g < length names.now) }
{
    names.iter().position(|n| is(n.as_slice(), name))
}

// The place of the first of the names that is `name`.
pub fn find_name(names: &[Vec<u8>], name: &[u8]) -> Option<usize>
    ensures value { result ≡ found (names_of names.now) name.now 0 }
    ensures within { IfSome result (λ g. g < length names.now) }
{
    first_place(names, name)
}
