// A list that the caller lends for a call to write its lines on: the first lines are written, and each write takes the
// next, or hands the line back where none is free.

#![tactic(auto)]

mod lines;
#[cfg(test)]
mod tests;

pub use lines::Lines;
