//! Memory that is refused to a generator and to lists: each call answers so, or as with ample
//! memory, and in no other way.
mod making;
mod sparing;
