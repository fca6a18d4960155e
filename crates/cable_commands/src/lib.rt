// The commands of the console that lay cables and ask something of them.
#![tactic(auto)]

pub mod cables;
pub mod call;
pub mod fault;
pub mod kind;
pub mod laid;
pub mod read;
