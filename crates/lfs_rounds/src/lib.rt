//! A live server that goes on for as long as it is asked to: round by round, each settled and handed out.
#![tactic(auto)]

pub mod rounds;
