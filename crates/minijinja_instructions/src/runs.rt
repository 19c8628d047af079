//! Values that are in force at the places of a list, kept only where they change.
ghost use Rattle.std.specs.Prelude.{◌≡◌, ◌+◌, ◌<◌, ◌^◌};
ghost use Rattle.std.specs.Option.{option_map};
ghost use Rattle.std.specs.List.Sorted.{IsNonDecreasingBy};
ghost use Rattle.minijinja_instructions.specs.RunLists.{in_force, AreBefore};

use std::alloc::{AllocError, Global};

/// A value that is in force from a place on.
#[derive(Clone, Copy)]
struct Run<T> {
    first: usize,
    value: T,
}

/// The value that is in force at each place of a list, kept only where it changes.
#[derive(Drop)]
pub struct Runs<T> {
    runs: Vec<Run<T>>,
    len: usize,
    ghost before: { AreBefore len runs.items },
}

impl<T: Copy> Runs<T> {
    ghost use Rattle.std.specs.Prelude.{◌++◌, [], ◌∷◌, Some, None, length, take, OnOk};
    ghost use Rattle.minijinja_semantics.specs.Marks.{last_or};
    ghost use Rattle.minijinja_instructions.specs.Runs.{at_or_last, values_of, HasRoom};

    /// No places. It allocates nothing yet.
    pub fn new(alloc: Global) -> Self
        ensures { values_of result ≡ [] }
    {
        Runs {
            runs: Vec::new(alloc),
            len: 0,
        }
    }

    /// Reserves memory for `count` changes, so that none of them moves what is there.
    pub fn make_room(&mut self, count: usize) -> Result<(), AllocError>
        ensures { values_of self.new ≡ values_of self.old }
    {
        self.runs.reserve(count)
    }

    /// Makes room for a change.
    pub fn reserve(&mut self) -> Result<(), AllocError>
        ensures same { values_of self.new ≡ values_of self.old }
        ensures room { OnOk result (HasRoom self.new) }
    {
        self.runs.reserve(1)
    }

    /// One place more, at which the last value stays in force.
    pub fn again(&mut self)
        requires { length (values_of self.old) + 1 < 2 ^ 64 }
        ensures { values_of self.new ≡ values_of self.old ++ last_or None
            (values_of self.old) ∷ [] }
    {
        self.len += 1;
    }

    /// One place more, from which on this value is in force.
    pub fn put(&mut self, value: T)
        requires room { HasRoom self.old }
        requires few { length (values_of self.old) + 1 < 2 ^ 64 }
        ensures { values_of self.new ≡ values_of self.old ++ Some value ∷ [] }
    {
        self.runs.push_reserved(Run {
            first: self.len,
            value,
        });
        self.len += 1;
    }

    /// Drops all places from one on.
    pub fn cut(&mut self, place: usize)
        ensures { values_of self.new ≡ take place (values_of self.old) }
    {
        let begun = self.runs.partition_point(|run| run.first < place);
        self.runs.truncate(begun);
        self.len = self.len.min(place);
    }

    /// The value in force at the last place.
    pub fn last(&self) -> Option<T>
        ensures { result ≡ last_or None (values_of self.now) }
    {
        value_of(self.runs.last())
    }

    /// The value in force at a place; past the end, that at the last one.
    pub fn at(&self, place: usize) -> Option<T>
        ensures { result ≡ at_or_last None (values_of self.now) place }
    {
        value_at(&self.runs, place)
    }

    /// How often the value changes.
    #[cfg(test)]
    pub fn changes(&self) -> usize {
        self.runs.len()
    }
}

/// The value in force at a place.
fn value_at<T: Copy>(runs: &[Run<T>], place: usize) -> Option<T>
    requires { IsNonDecreasingBy (λ r. r.first) runs.now }
    ensures { result ≡ in_force runs.now place }
{
    let after = runs.partition_point(|run| run.first <= place);
    value_of(runs[..after].last())
}

/// The value of a run.
fn value_of<T: Copy>(run: Option<&Run<T>>) -> Option<T>
    ensures { result ≡ option_map (λ r. r.now.value) run.entry }
{
    match run {
        Some(run) => Some(run.value),
        None => None,
    }
}
