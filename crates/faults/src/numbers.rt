// The number and the layer of each cause.
ghost use Rattle.std.specs.Prelude.{◌≡◌, ℕ};
ghost use Rattle.faults.specs.declared.layer.Layer.{Layer};
ghost use Rattle.faults.specs.Numbers.{word_number, reading_number, plant_number, search_number, book_number, console_number};
ghost use Rattle.faults.specs.Layers.{word_layer, reading_layer, plant_layer, search_layer, book_layer, console_layer};

use super::causes::{BookCause, ConsoleCause, PlantCause, ReadingCause, SearchCause, WordCause};
use super::fault::Fault;
use super::layer::Layer;

// A cause that says its number and its layer.
pub trait Cause {
    ghost numbered: { Self → ℕ };

    ghost layered: { Self → Layer };

    fn number(&self) -> u32
        ensures { result ≡ numbered self.now };

    fn layer(&self) -> Layer
        ensures { result ≡ layered self.now };

    // A refusal for this cause, at this place.
    final fn at(self, place: usize) -> Fault<Self>
    where
        Self: Sized,
        ensures { result ≡ record { cause = self; place = place } }
    {
        Fault { cause: self, place }
    }
}

impl Cause for WordCause {
    ghost numbered = { word_number };

    ghost layered = { word_layer };

    fn number(&self) -> u32 {
        match self {
            WordCause::NoToken => 1,
            WordCause::LongWord => 2,
        }
    }

    fn layer(&self) -> Layer {
        Layer::Words
    }
}

impl Cause for ReadingCause {
    ghost numbered = { reading_number };

    ghost layered = { reading_layer };

    fn number(&self) -> u32 {
        match self {
            ReadingCause::Words(cause) => cause.number(),
            ReadingCause::Misfit => 3,
            ReadingCause::Unfinished => 4,
            ReadingCause::Undeclared => 5,
            ReadingCause::ManyTokens => 6,
        }
    }

    fn layer(&self) -> Layer {
        match self {
            ReadingCause::Words(cause) => cause.layer(),
            _ => Layer::Reading,
        }
    }
}

impl Cause for PlantCause {
    ghost numbered = { plant_number };

    ghost layered = { plant_layer };

    fn number(&self) -> u32 {
        match self {
            PlantCause::Large => 15,
            PlantCause::BadState => 16,
            PlantCause::BadEdge => 17,
        }
    }

    fn layer(&self) -> Layer {
        Layer::Plant
    }
}

impl Cause for SearchCause {
    ghost numbered = { search_number };

    ghost layered = { search_layer };

    fn number(&self) -> u32 {
        match self {
            SearchCause::Unfit => 18,
            SearchCause::ShortWork => 19,
            SearchCause::ShortSheet => 20,
        }
    }

    fn layer(&self) -> Layer {
        Layer::Search
    }
}

impl Cause for BookCause {
    ghost numbered = { book_number };

    ghost layered = { book_layer };

    fn number(&self) -> u32 {
        match self {
            BookCause::Reading(cause) => cause.number(),
            BookCause::Search(cause) => cause.number(),
            BookCause::NoSlot => 7,
            BookCause::Occupied => 8,
            BookCause::Vacant => 9,
            BookCause::LongText => 10,
            BookCause::ManyBasics => 11,
            BookCause::NoName => 12,
            BookCause::Declared => 13,
            BookCause::ManySignals => 14,
            BookCause::FarStep => 21,
            BookCause::NoSignal => 22,
            BookCause::NoMemory => 30,
        }
    }

    fn layer(&self) -> Layer {
        match self {
            BookCause::Reading(cause) => cause.layer(),
            BookCause::Search(cause) => cause.layer(),
            _ => Layer::Book,
        }
    }
}

impl Cause for ConsoleCause {
    ghost numbered = { console_number };

    ghost layered = { console_layer };

    fn number(&self) -> u32 {
        match self {
            ConsoleCause::Book(cause) => cause.number(),
            ConsoleCause::NoForm => 23,
        }
    }

    fn layer(&self) -> Layer {
        match self {
            ConsoleCause::Book(cause) => cause.layer(),
            ConsoleCause::NoForm => Layer::Console,
        }
    }
}
