// The three indexes of a book.

#[derive(Clone, Copy, PartialEq, Eq, Debug)]
pub enum Part {
    Names,
    Leases,
    Events,
}
