// What the program `cases` reads and prints: words, numbers and lists from standard input, and lines of a letter and numbers. Beside
// that, words in their bytes and lines of anything that can be printed, with an answer that tells of a stream that fails.
#![tactic(auto)]

pub mod console;
pub mod lists;
pub mod operation;
#[cfg(test)]
mod tests;
pub mod words;
