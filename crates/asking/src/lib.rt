// The text of questions and answers, in the format that second/README.md gives: the words of a line, and what an answer is written with.
#![tactic(auto)]

pub mod lines;
pub mod words;
pub mod writing;
