//! The tests of the book, of the desk, and of builders over it: what no clause says.
//!
//! Start at `book`, the tests of a book without a desk, then `clerks`, `builders`, `outcomes`,
//! `journals` and `crews`. `sample` is what all begin with. `shop` opens a desk and closes it,
//! `script` reads the calls at it, `people` are the clerks and the builders who make them. They
//! are in a crate of their own, over public calls, so that neither the book nor the desk nor the
//! builders are proved a second time with their tests. `Together` is for the crew's tests too.
#![tactic(auto)]

#[cfg(test)]
mod book;
#[cfg(test)]
mod builders;
#[cfg(test)]
mod clerks;
#[cfg(test)]
mod crew;
#[cfg(test)]
mod crews;
#[cfg(test)]
mod journals;
#[cfg(test)]
mod outcomes;
#[cfg(test)]
mod overlap;
#[cfg(test)]
mod people;
#[cfg(test)]
mod sample;
#[cfg(test)]
mod script;
#[cfg(test)]
mod shop;
#[cfg(test)]
mod spelling;
#[cfg(test)]
mod tally;
mod together;
#[cfg(test)]
mod tries;
#[cfg(test)]
mod turns;

pub use together::Together;
