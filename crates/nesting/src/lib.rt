// Code over any plant, proved once and called on joints of joints.
#![tactic(auto)]

ghost use Rattle.std.specs.Prelude.{◌≡◌, ℕ};
ghost use Rattle.plant.specs.Meaning.{Meaning, Least};
ghost use Rattle.joint.specs.Pair.{joint};

use joint::join;
use plant::Plant;

// The smallest start.
pub fn first_start<P: Plant>(p: &P) -> Option<u32>
    ensures { Least (P.Plant.meaning p.now).start 0 result }
{
    (0..p.states()).find(|s| p.is_start(*s))
}

// The smallest start of a joint of a joint.
pub fn first_start_of_three<A: Plant, B: Plant, C: Plant>(a: &A, b: &B, c: &C) -> Option<u32>
    ensures { Least (joint (joint (A.Plant.meaning a.now) (B.Plant.meaning b.now)) (C.Plant.meaning c.now)).start 0 result }
{
    let inner = join(a, b);
    let outer = join(&inner, c);
    first_start(&outer)
}

#[cfg(test)]
mod tests {
    use super::*;
    use plant::{Free, Probe, Value};

    #[test]
    fn three_starts_that_agree(rt: HostRuntime) {
        let on = Probe {
            step: 0,
            signal: 3,
            value: Value::On,
        };
        let off = Probe {
            step: 0,
            signal: 3,
            value: Value::Off,
        };
        assert_eq!(rt; first_start(&on), Some(0));
        assert_eq!(rt; first_start_of_three(&on, &Free, &on), Some(0));
        assert_eq!(rt; first_start_of_three(&on, &Free, &off), None);
    }
}
