//! Memory that is refused to calls that need no code: each answers so, or as with ample memory, and
//! in no other way.
mod making;
mod reading;
mod sparing;
