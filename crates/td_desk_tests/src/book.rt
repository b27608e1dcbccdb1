//! The tests of a book without a desk. Start at `books`.
mod books;
mod desk;
mod random;
mod reopening;
mod script;
mod watching;
