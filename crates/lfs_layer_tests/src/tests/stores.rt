//! Frames and blocks after some use, and stores whose files, infos and bytes are worked out by hand.

mod cache;
mod durable;
mod flatfiles;
mod logstore;
mod recency;
mod share;
