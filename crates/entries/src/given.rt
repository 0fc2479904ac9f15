// The journeys among the entries that were given.
ghost use Rattle.std.specs.Prelude.{◌≡◌, length, option_map, slice_get};
ghost use Rattle.entries.specs.Listing.{is_given, given_of};

use crate::entry::{Entries, Entry, Journey, Standing};

impl Entries {
    // How many journeys were given.
    pub fn count_given(&self) -> usize
        ensures { result ≡ length (given_of self.now) }
    {
        self.list.iter().filter(|entry| entry.is_given()).count()
    }

    // The journey at a place, counted from 0, of those that were given.
    pub fn given_at(&self, place: usize) -> Option<Journey>
        ensures { result ≡ slice_get (given_of self.now) place }
    {
        self.lent_at(place).copied()
    }

    // The same, lent.
    pub fn lent_at(&self, place: usize) -> Option<&Journey>
        ensures { option_map (λ j. j.now) result ≡ slice_get (given_of self.now) place }
    {
        let given = self.list.iter().filter(|entry| entry.is_given());
        given.map(|entry| &entry.journey).nth(place)
    }
}

impl Entry {
    fn is_given(&self) -> bool
        ensures { result ≡ is_given self.now }
    {
        self.standing == Standing::Given
    }
}
