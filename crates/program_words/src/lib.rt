// What the programs say: tables of text, what a number means, which of its grounds a refusal has and where it stands, names of features, profiles and fields, a sweep told, and why a drive sheet is refused.
#![tactic(auto)]

pub mod bodies;
pub mod forms;
pub mod grounds;
pub mod names;
pub mod sheets;
pub mod tables;
pub mod told;
pub mod words;
