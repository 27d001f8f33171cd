// A refusal: its cause, and its place.
ghost use Rattle.std.specs.Prelude.{◌≡◌, ◌++◌, Some, codes, decimal};

use super::numbers::Cause;
use std::fmt;

#[derive(Clone, Copy, PartialEq, Eq, Debug)]
pub struct Fault<C> {
    pub cause: C,
    pub place: usize,
}

impl<C> Fault<C> {
    // The refusal of the layer above, whose cause holds this one.
    pub(crate) fn carried<D: From<C>>(self) -> Fault<D>
        ensures cause { D.From.from_gives self.cause result.cause }
        ensures place { result.place ≡ self.place }
    {
        Fault {
            cause: D::from(self.cause),
            place: self.place,
        }
    }
}

impl<C: Cause> fmt::Display for Fault<C> {
    ghost output = { λ e. Some (codes "refused " ++ (decimal (C.Cause.numbered e.cause) ++ (codes " " ++ decimal e.place))) };

    fn fmt<W: fmt::Write>(&self, f: &mut fmt::Formatter<W>) -> fmt::Result {
        let number = self.cause.number();
        let place = self.place;
        write!(f, "refused {number} {place}")
    }
}
