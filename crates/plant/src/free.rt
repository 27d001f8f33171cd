// The free plant, which every run follows.
ghost use Rattle.plant.specs.Free.{free};
ghost use Rattle.plant.specs.FreeLawful.{free_lawful};

use super::plant::Plant;

#[derive(Clone, Copy)]
pub struct Free;

impl Plant for Free {
    ghost meaning = { λ _. free };

    ghost lawful = { λ _. free_lawful };

    fn is_fit(&self) -> bool {
        true
    }

    fn states(&self) -> u32 {
        1
    }

    fn promises(&self) -> u32 {
        0
    }

    fn is_start(&self, s: u32) -> bool {
        s == 0
    }

    fn next_step(&self, s: u32, t: u32) -> Option<u32> {
        if s == 0 && t == 0 { Some(0) } else { None }
    }

    fn fulfils(&self, _s: u32, _k: u32) -> bool {
        false
    }

    fn marks(&self, _s: u32) -> u32 {
        u32::MAX
    }
}
