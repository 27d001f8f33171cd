// A plant that counts the questions it is asked, so that asking can be measured.
use plant::Plant;
use std::cell::Cell;

#[derive(Drop)]
pub struct Counted<'a, 'b, P> {
    pub(crate) plant: &'a P,
    pub(crate) asked: &'b Cell<u64>,
}

impl<'a, 'b, P> Counted<'a, 'b, P> {
    fn note(&self) {
        self.asked.set(self.asked.get().saturating_add(1));
    }
}

impl<'a, 'b, P: Plant> Plant for Counted<'a, 'b, P> {
    ghost meaning = { λ x. P.Plant.meaning x.plant.now };

    ghost lawful = { λ x. P.Plant.lawful x.plant.now };

    fn is_fit(&self) -> bool {
        self.note();
        self.plant.is_fit()
    }

    fn states(&self) -> u32 {
        self.note();
        self.plant.states()
    }

    fn promises(&self) -> u32 {
        self.note();
        self.plant.promises()
    }

    fn is_start(&self, s: u32) -> bool {
        self.note();
        self.plant.is_start(s)
    }

    fn next_step(&self, s: u32, t: u32) -> Option<u32> {
        self.note();
        self.plant.next_step(s, t)
    }

    fn fulfils(&self, s: u32, k: u32) -> bool {
        self.note();
        self.plant.fulfils(s, k)
    }

    fn marks(&self, s: u32) -> u32 {
        self.note();
        self.plant.marks(s)
    }
}
