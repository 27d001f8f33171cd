// The probe, whose walks pass one state that marks one signal as one value.
ghost use Rattle.std.specs.Prelude.{◌≡◌, ◌≤◌};
ghost use Rattle.plant.specs.Path.{last_signal, only, probe};
ghost use Rattle.plant.specs.PathLawful.{probe_lawful};

use super::plant::Plant;

// The last signal, and the last step that a probe can ask for.
const LAST_SIGNAL: u8 = 15;

const LAST_STEP: u32 = 1_048_574;

#[derive(Clone, Copy)]
pub enum Value {
    On,
    Off,
}

#[derive(Clone, Copy)]
pub struct Probe {
    pub step: u32,
    pub signal: u8,
    pub value: Value,
}

// The word that marks the signal as the value and every other one either.
fn only_word(signal: u8, value: Value) -> u32
    requires { signal ≤ last_signal }
    ensures { result ≡ only signal value }
{
    let clear: u32 = match value {
        Value::On => 2,
        Value::Off => 1,
    };
    u32::MAX - (clear << (2 * signal as u32))
}

impl Plant for Probe {
    ghost meaning = { λ x. probe x.step x.signal x.value };

    ghost lawful = { λ x. probe_lawful x.step x.signal x.value };

    fn is_fit(&self) -> bool {
        self.signal <= LAST_SIGNAL && self.step <= LAST_STEP
    }

    fn states(&self) -> u32 {
        if self.is_fit() { self.step + 2 } else { 0 }
    }

    fn promises(&self) -> u32 {
        0
    }

    fn is_start(&self, s: u32) -> bool {
        self.is_fit() && s == 0
    }

    fn next_step(&self, s: u32, t: u32) -> Option<u32> {
        if s >= self.states() {
            return None;
        }
        let next = (s + 1).min(self.step + 1);
        if t <= next { Some(next) } else { None }
    }

    fn fulfils(&self, _s: u32, _k: u32) -> bool {
        false
    }

    fn marks(&self, s: u32) -> u32 {
        if !self.is_fit() || s != self.step {
            return u32::MAX;
        }
        only_word(self.signal, self.value)
    }
}
