// Lists of calls, each with the answer that is wanted, for programs that replay them. Two lines make a step, in hex: the call, which begins with its
// kind, and the answer. A line that begins with '#' is a comment. Numbers are little-endian, and words have eight bytes. An answer is the number that
// the call gives, the words that it writes, which are 7 before the call, and the output that it is lent, which has 0x99 before the call and is as long
// as the rest of the wanted answer.
#![tactic(auto)]

pub mod answers;
pub mod files;
pub mod lines;
pub mod tally;
