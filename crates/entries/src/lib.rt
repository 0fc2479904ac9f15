// The entries of a search: the journeys that were given or struck, and by which edges they go on.
#![tactic(auto)]

ghost use Rattle.std.specs.Prelude.{◌≡◌, ℕ, ◌≤◌, ◌↔◌, [], length, IsTrue};
ghost use Rattle.journeys.specs.Journeys.{In};
ghost use Rattle.journey_laws.specs.Branching.{NextEdge};
ghost use Rattle.entries.specs.Listing.{edges_of, all_edges, listed, given_of, next_after};

use arrayvec::ArrayVec;
use entry::{Entries, Entry};
use inline::Inline;

pub mod entry;
pub mod given;
pub mod inline;

impl Entries {
    pub fn empty() -> Entries
        ensures listed { listed result ≡ [] }
        ensures given { given_of result ≡ [] }
    {
        Entries {
            list: Inline::new(),
        }
    }

    // Whether there is no place for another entry.
    pub fn is_full(&self) -> bool
        ensures { IsTrue result ↔ (16 ≤ length (listed self.now)) }
    {
        self.list.is_full()
    }

    // Whether the edges are those of an entry.
    pub fn contains(&self, edges: &[u16]) -> bool
        ensures { IsTrue result ↔ In edges.now (listed self.now) }
    {
        self.list
            .iter()
            .any(|entry| entry.journey.edges.as_slice() == edges)
    }

    // The edges by which entries that begin with a beginning go on.
    #[tactic(auto, using(crate::proofs::Listed::more_some, crate::proofs::Listed::more_none, crate::proofs::Listed::next_in))]
    pub fn next_edges(&self, beginning: &[u16]) -> ArrayVec<u16, 16>
        ensures { (x : ℕ) → In x result.items ↔ NextEdge (λ y. In y (listed self.now)) beginning.now x }
    {
        let mut edges = ArrayVec::new();
        for entry in self.list.iter() {
            if let Some(edge) = entry.next_edge(beginning) {
                edges.push(edge);
            }
        }
        edges
    }
}

impl Entry {
    // The edge by which the entry goes on after a beginning, if it begins with that and goes on.
    #[tactic(auto, using(crate::proofs::Listed::next_none, crate::proofs::Listed::next_some))]
    fn next_edge(&self, beginning: &[u16]) -> Option<u16>
        ensures { result ≡ next_after beginning.now (edges_of self.now) }
    {
        let rest = self.journey.edges.strip_prefix(beginning)?;
        rest.first().copied()
    }
}

// Whether one of the entries begins with a beginning and goes on.
pub fn go_on(entries: &[Entry], beginning: &[u16]) -> bool
    ensures { IsTrue result ↔ ((g : ℕ) × NextEdge (λ y. In y (all_edges entries.now)) beginning.now g) }
{
    entries
        .iter()
        .any(|entry| entry.next_edge(beginning).is_some())
}
