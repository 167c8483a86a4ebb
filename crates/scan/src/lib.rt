// Reading lines from the head of a run of bytes: keys, numbers, and counts with so many lines.
// What a result stands for is written in specs/; nothing is assumed.
#![tactic(auto)]

pub mod bytes;
pub mod numbers;
