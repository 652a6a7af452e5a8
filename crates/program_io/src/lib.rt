// What every program does at its ends: arguments, input and output, hexadecimal text, which command a response answers, commands and exchanges that are asked for.
#![tactic(auto)]

pub mod asked;
pub mod dumps;
pub mod exchanges;
pub mod packets;
pub mod streams;
