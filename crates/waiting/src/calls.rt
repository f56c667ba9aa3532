// A push or a pop, and what it answers, as data.
use faults::Refusal;

// kept: shaped as an `Option<E>`, where `None` would not say that a call pops.
#[derive(Clone, Copy, Debug, PartialEq, Eq)]
pub enum Call<E> {
    Push(E),
    Pop,
}

#[derive(Clone, Copy, Debug, PartialEq, Eq)]
pub enum Answer<E> {
    // Whether there was a place for the entry.
    Pushed(Result<(), Refusal>),
    // The entry that came out, where one waited.
    Popped(Option<E>),
}
