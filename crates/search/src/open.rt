// An open search and its calls, and the closed search that it becomes.
ghost use Rattle.std.specs.Prelude.{◌≡◌, ℕ, [], ◌∷◌, ◌++◌, length, take, option_map, slice_get, IfOk, OnOk};
ghost use Rattle.refusals.specs.Verdicts.{Verdict, Judged};
ghost use Rattle.refusals.specs.declared.Refusal.TheVariants.{OfSearch};
ghost use Rattle.journeys.specs.Journeys.{Unlisted, Simple};
ghost use Rattle.journeys.specs.Rank.{FirstInRank};
ghost use Rattle.entries.specs.Listing.{listed, given_of};
ghost use Rattle.search.specs.Reasons.{AgainstNext, AgainstAgain, AgainstStrike};
ghost use Rattle.search.specs.Sounds.{Sound, Sound-prop};
ghost use Rattle.search.specs.Calls.{told_journey, NextEnters, StrikeEnters, Rest, Ith};

use branches::first_unlisted;
use branches::follow::simple_arrival;
use entries::entry::{Entries, Entry, Journey, Standing};
use journeys::question::Question;
use networks::Network;
use refusals::{Refusal, SearchRefusal};

pub struct OpenSearch<N: Network> {
    network: N,
    question: Question,
    entries: Entries,
    ghost sound: { Sound (N.meaning network) question entries } by { Sound-prop (N.meaning network) question entries },
}

impl<N: Network> OpenSearch<N> {
    // A search that has no entry.
    pub fn new(network: N, question: Question) -> OpenSearch<N>
        ensures answer { (result.network ≡ network) × (result.question ≡ question) }
        ensures listed { listed result.entries ≡ [] }
        ensures given { given_of result.entries ≡ [] }
    {
        OpenSearch {
            network,
            question,
            entries: Entries::empty(),
        }
    }

    // The first in rank of the unlisted journeys.
    fn first(&self) -> Result<Journey, SearchRefusal>
        ensures answer { IfOk result (λ j. FirstInRank (Unlisted (N.Network.meaning self.now.network) self.now.question (listed self.now.entries)) j.arrival j.edges.items) }
        ensures refusal { Judged OfSearch (50 ∷ 51 ∷ []) (AgainstNext (N.Network.meaning self.now.network) self.now.question (listed self.now.entries)) result }
    {
        if self.entries.is_full() {
            return Err(SearchRefusal::TooManyEntries);
        }
        first_unlisted(&self.network, &self.question, &self.entries).ok_or(SearchRefusal::NoMore)
    }

    // The i-th journey that was given, from 1.
    fn given(&self, i: usize) -> Result<&Journey, SearchRefusal>
        ensures answer { IfOk result (λ j. Ith (given_of self.now.entries) i j.now) }
        ensures refusal { Judged OfSearch (52 ∷ []) (AgainstAgain (given_of self.now.entries) i) result }
    {
        let before = i.checked_sub(1).ok_or(SearchRefusal::NotGiven)?;
        self.entries.lent_at(before).ok_or(SearchRefusal::NotGiven)
    }

    // The journey of the edges, if it is unlisted and there is a place for it.
    fn unlisted(&self, edges: &[u16]) -> Result<Journey, SearchRefusal>
        ensures answer { IfOk result (λ j. (j.edges.items ≡ edges.now) × Unlisted (N.Network.meaning self.now.network) self.now.question (listed self.now.entries) j.arrival edges.now) }
        ensures refusal { Judged OfSearch (53 ∷ 54 ∷ 50 ∷ []) (AgainstStrike (N.Network.meaning self.now.network) self.now.question (listed self.now.entries) edges.now) result }
    {
        // Not `.ok_or(..)?`: behind it three proofs did not close, which do behind this.
        let Some(arrival) = simple_arrival(&self.network, &self.question, edges) else {
            return Err(SearchRefusal::NotSimple);
        };
        if self.entries.contains(edges) {
            return Err(SearchRefusal::AlreadyListed);
        }
        if self.entries.is_full() {
            return Err(SearchRefusal::TooManyEntries);
        }
        Ok(Journey::new(arrival, edges).unwrap())
    }

    // Gives the first in rank of the unlisted journeys: its arrival and how many edges it has. They are written at the buffer's front.
    // That buffer of exactly 255 places and that answer are part of the definition of a search.
    // That network and question stay is said by two equations, here and in three more contracts: no name for them is shorter.
    pub fn next(&mut self, buffer: &mut [u16; 255]) -> Result<(u32, usize), Refusal>
        ensures same { (self.new.network ≡ self.old.network) × (self.new.question ≡ self.old.question) }
        ensures answer { IfOk result (λ p. FirstInRank (Unlisted (N.Network.meaning self.old.network) self.old.question (listed self.old.entries)) p.0 (take p.1 buffer.new)) }
        ensures refusal { Verdict OfSearch (50 ∷ 51 ∷ []) (AgainstNext (N.Network.meaning self.old.network) self.old.question (listed self.old.entries)) result }
        ensures after { NextEnters self.old.entries buffer.new result self.new.entries }
        ensures rest { Rest buffer.old buffer.new result }
    {
        let journey = self.first()?;
        let told = journey.write_to(buffer);
        let entry = Entry {
            standing: Standing::Given,
            journey,
        };
        self.entries.list.try_push(entry).unwrap();
        Ok(told)
    }

    // The i-th journey that was given, from 1; it is told as next told it, in the same buffer and with the same answer.
    pub fn again(&self, i: usize, buffer: &mut [u16; 255]) -> Result<(u32, usize), Refusal>
        ensures answer { IfOk result (λ p. Ith (given_of self.now.entries) i (told_journey buffer.new p)) }
        ensures refusal { Verdict OfSearch (52 ∷ []) (AgainstAgain (given_of self.now.entries) i) result }
        ensures rest { Rest buffer.old buffer.new result }
    {
        let journey = self.given(i)?;
        Ok(journey.write_to(buffer))
    }

    // Strikes an unlisted journey: it is an entry then, and never given.
    pub fn strike(&mut self, edges: &[u16]) -> Result<(), Refusal>
        ensures same { (self.new.network ≡ self.old.network) × (self.new.question ≡ self.old.question) }
        ensures answer { OnOk result ((a : ℕ) × Unlisted (N.Network.meaning self.old.network) self.old.question (listed self.old.entries) a edges.now) }
        ensures refusal { Verdict OfSearch (53 ∷ 54 ∷ 50 ∷ []) (AgainstStrike (N.Network.meaning self.old.network) self.old.question (listed self.old.entries) edges.now) result }
        ensures after { StrikeEnters self.old.entries edges.now result self.new.entries }
    {
        let journey = self.unlisted(edges)?;
        let entry = Entry {
            standing: Standing::Struck,
            journey,
        };
        self.entries.list.try_push(entry).unwrap();
        Ok(())
    }

    // Ends the search: it answers no call any more, and hands out what it gave.
    pub fn close(self) -> ClosedSearch<N>
        ensures answer { (result.network ≡ self.network) × (result.entries ≡ self.entries) }
    {
        let OpenSearch {
            network,
            question: _,
            entries,
        } = self;
        ClosedSearch { network, entries }
    }
}

// A search that is closed: its network, and the journeys that it gave.
pub struct ClosedSearch<N: Network> {
    network: N,
    entries: Entries,
}

impl<N: Network> ClosedSearch<N> {
    // The network on which the search was opened.
    pub fn into_network(self) -> N
        ensures { result ≡ self.network }
    {
        let ClosedSearch {
            network,
            entries: _,
        } = self;
        network
    }

    // How many journeys the search gave.
    pub fn count_given(&self) -> usize
        ensures { result ≡ length (given_of self.now.entries) }
    {
        self.entries.count_given()
    }

    // The journey at a place, counted from 0, of those that the search gave.
    pub fn given_at(&self, place: usize) -> Option<Journey>
        ensures { result ≡ slice_get (given_of self.now.entries) place }
    {
        self.entries.given_at(place)
    }

    // The same, lent.
    pub fn lent_at(&self, place: usize) -> Option<&Journey>
        ensures { option_map (λ j. j.now) result ≡ slice_get (given_of self.now.entries) place }
    {
        self.entries.lent_at(place)
    }
}
