// The signal that a name is.
ghost use Rattle.std.specs.Prelude.{◌≡◌, ◌<◌, IfSome};
ghost use Rattle.reading.specs.Names.{names_of};
ghost use Rattle.grammar.specs.Signals.{signal_named};

use reading::find_name;

const MOST_SIGNALS: usize = 16;

pub(crate) fn signal_of(names: &[Vec<u8>], name: &[u8]) -> Option<u8>
    ensures value { result ≡ signal_named (names_of names.now) name.now }
    ensures within { IfSome result (λ g. g < 16) }
{
    let count = names.len().min(MOST_SIGNALS);
    find_name(&names[..count], name).map(|g| g as u8)
}
