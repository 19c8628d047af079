//! What a text is, as definitions alone. No user calls it.
//!
//! `specs/` has a part of a text, and how a text stands between quotes.
#![tactic(auto)]
