// The first in rank of the unlisted journeys of a question: the best of the detours that leave the entries of a search.
#![tactic(auto)]

ghost use Rattle.std.specs.Prelude.{◌≡◌, ℕ, ◌≤◌, ◌↔◌, List, [], length, IsTrue};
ghost use Rattle.std.specs.Option.{option_map_or};
ghost use Rattle.journeys.specs.Journeys.{In};
ghost use Rattle.journey_laws.specs.Branching.{Place};
ghost use Rattle.journey_laws.specs.Theorems.{SimpleEntries};
ghost use Rattle.entries.specs.Listing.{all_edges, listed};
ghost use Rattle.branches.specs.Following.{At};
ghost use Rattle.branches.specs.Bests.{Better, Surpasses, Beginning, FirstLeaving, Improves, First};

use detour::{Course, detour};
use entries::entry::{Entries, Entry, Journey};
use entries::go_on;
use journeys::question::Question;
use networks::Network;
use position::Position;

pub mod follow;
mod position;

// The better of the best journey so far and another one.
fn offer(best: Option<Journey>, journey: Journey) -> Journey
    ensures { Better journey best result }
{
    // A match: two arms are plainer than a chain of both and its least.
    match best {
        Some(best) => best.min(journey),
        None => journey,
    }
}

// The latest arrival of what can rank before the best journey so far.
fn until(question: &Question, best: &Option<Journey>) -> u32
    ensures { result ≡ option_map_or (λ j. j.arrival) best.now question.now.latest }
{
    best.as_ref().map_or(question.latest(), |best| best.arrival)
}

// Whether a journey can leave the entries after a beginning: it is empty, or one of them has it and goes on.
fn is_place(entries: &[Entry], beginning: &[u16]) -> bool
    ensures { IsTrue result ↔ Place (λ y. In y (all_edges entries.now)) beginning.now }
{
    beginning.is_empty() || go_on(entries, beginning)
}

// The entries that the detours leave, and what those are journeys of.
#[derive(Drop)]
struct Branching<'a, N: Network> {
    network: &'a N,
    question: &'a Question,
    entries: &'a Entries,
}

impl<N: Network> Branching<'_, N> {
    // The first journey that leaves the entries after a beginning, which leads to a position, if one arrives by an instant.
    fn first_leaving(&self, beginning: &[u16], position: Position, by: u32) -> Option<Journey>
        requires here { At (N.Network.meaning self.now.network.now) self.now.question.now beginning.now position }
        requires place { Place (λ y. In y (listed self.now.entries.now)) beginning.now }
        ensures { SimpleEntries (N.Network.meaning self.now.network.now) self.now.question.now (listed self.now.entries.now) → by ≤ self.now.question.now.latest →
            FirstLeaving (N.Network.meaning self.now.network.now) self.now.question.now (listed self.now.entries.now) beginning.now by result }
    {
        let barred = self.entries.next_edges(beginning);
        let mut shut = position.behind;
        let mut edges = [0; 255];
        let course = Course {
            stop: position.stop,
            instant: position.instant,
            destination: self.question.destination(),
            latest: by,
        };
        let (arrival, count) = detour(self.network, course, &mut shut, &barred, &mut edges).ok()?;
        Journey::joined(arrival, beginning, &edges[..count]).ok()
    }

    // The better of the best so far and the first journey that leaves the entries after a beginning, which leads to a position.
    fn branch(
        &self,
        beginning: &[u16],
        position: Position,
        best: Option<Journey>,
    ) -> Option<Journey>
        requires here { At (N.Network.meaning self.now.network.now) self.now.question.now beginning.now position }
        requires place { Place (λ y. In y (listed self.now.entries.now)) beginning.now }
        ensures { Improves (N.Network.meaning self.now.network.now) self.now.question.now (listed self.now.entries.now) (λ p. p ≡ beginning.now) best result }
    {
        // A match: `map_or` would take the best twice.
        match self.first_leaving(beginning, position, until(self.question, &best)) {
            Some(journey) => Some(offer(best, journey)),
            None => best,
        }
    }

    // The better of the best so far and the first journeys that leave the entries after the beginnings of one of them;
    // those that an earlier entry has are worked out.
    fn branch_along(
        &self,
        earlier: &[Entry],
        edges: &[u16],
        mut best: Option<Journey>,
    ) -> Option<Journey>
        requires { In edges.now (listed self.now.entries.now) }
        ensures { Surpasses (N.Network.meaning self.now.network.now) self.now.question.now (listed self.now.entries.now) (all_edges earlier.now) best →
            Improves (N.Network.meaning self.now.network.now) self.now.question.now (listed self.now.entries.now) (Beginning edges.now (length edges.now)) best result }
    {
        let mut position = Position::at_origin(self.question);
        for (k, edge) in edges.iter().enumerate() {
            if !is_place(earlier, &edges[..k]) {
                best = self.branch(&edges[..k], position, best);
            }
            let Some(next) = position.advance(self.network, *edge) else {
                return best;
            };
            position = next;
        }
        best
    }
}

// The first in rank of the simple journeys of a question that are no entry. There is none where every journey is an entry.
pub fn first_unlisted<N: Network>(
    network: &N,
    question: &Question,
    entries: &Entries,
) -> Option<Journey>
    ensures { SimpleEntries (N.Network.meaning network.now) question.now (listed entries.now) →
        First (N.Network.meaning network.now) question.now (listed entries.now) result }
{
    let branching = Branching {
        network,
        question,
        entries,
    };
    let mut best = branching.branch(&[], Position::at_origin(question), None);
    let list = entries.list.as_slice();
    for (i, entry) in list.iter().enumerate() {
        best = branching.branch_along(&list[..i], &entry.journey.edges, best);
    }
    best
}
