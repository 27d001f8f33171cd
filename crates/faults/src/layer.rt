// The layers of the checker, each of which refuses for causes of its own.

#[derive(Clone, Copy, PartialEq, Eq, Debug)]
pub enum Layer {
    Words,
    Reading,
    Book,
    Plant,
    Search,
    Console,
}
