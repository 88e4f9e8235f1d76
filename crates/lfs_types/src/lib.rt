//! The types that every layer of the file server speaks of: names, paths, credentials, requests and
//! answers, and the trait of a file store.
#![tactic(auto)]

pub mod answer;
pub mod attrs;
pub mod block;
pub mod cleaned;
pub mod cleaner;
pub mod cred;
pub mod fault;
pub mod file_flags;
pub mod level;
pub mod limits;
pub mod mode;
pub mod name;
pub mod path;
pub mod payload;
pub mod request;
pub mod rule;
pub mod script;
pub mod sizes;
pub mod store;
