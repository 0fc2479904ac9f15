// A network with its edges grouped by the stop that they leave.
ghost use Rattle.std.specs.Prelude.{◌≡◌, ℕ, ◌+◌, ◌-◌, ◌<◌, Some, None, unwrap_or};
ghost use Rattle.std.specs.Option.{ForSome};
ghost use Rattle.std.specs.Iterator.{at_most};
ghost use Rattle.detour.specs.Departing.{Grouped, Ascending, link};

use networks::Network;
use std::marker::Model;

// An edge or none. Edges are below 16384, so the greatest number is none: two bytes, where an `Option<u16>` takes four.
#[derive(Clone, Copy)]
struct Link {
    number: u16,
}

impl Model for Link {
    ghost use Rattle.std.specs.Prelude.{ℕ, Option};

    ghost Value = { Option ℕ };

    ghost use Rattle.detour.specs.Linking.{edge_of, number_of, same_link};

    ghost view = { λ l. edge_of l.number };

    ghost inverse = { λ o. record { number = number_of o } };

    ghost inverse_ok = { λ l h. same_link l };
}

impl Link {
    fn none() -> Link
        ensures { result ≡ None }
    {
        Link { number: u16::MAX }
    }

    fn to(edge: u16) -> Link
        requires { edge < 65535 }
        ensures { result ≡ Some edge }
    {
        Link { number: edge }
    }

    fn edge(self) -> Option<u16>
        ensures { result ≡ self }
    {
        if self.number == u16::MAX {
            None
        } else {
            Some(self.number)
        }
    }
}

// The edge that stands at a place of links.
fn edge_at<const N: usize>(links: &[Link; N], place: usize) -> Option<u16>
    requires { place < N }
    ensures { result ≡ link links.now place }
{
    links[place].edge()
}

// The first edge that leaves each stop, and after each edge the next that leaves the same stop.
// Links in two arrays, since a list for each stop would allocate, and a search allocates nothing.
#[derive(Drop)]
pub struct Links {
    first: [Link; 256],
    next: [Link; 16384],
    ghost ascending: { Ascending next },
}

// The links are lent: they are large, and so they are filled where they stay.
#[derive(Drop)]
pub struct Departures<'a, N: Network> {
    pub network: &'a N,
    links: &'a Links,
    ghost grouped: { Grouped (N.Network.meaning network.now) 0 links.now.first links.now.next },
    ghost ascending: { Ascending links.now.next },
}

// The edges that leave a stop, from one of them on, in ascending order.
#[derive(Drop)]
pub struct Leaving<'a> {
    edge: Option<u16>,
    next: &'a [Link; 16384],
    ghost within: { ForSome edge (λ e. e < 16384) },
    ghost ascending: { Ascending next.now },
}

impl Iterator for Leaving<'_> {
    ghost use Rattle.detour.specs.Leaving.{Steps};

    type Item = u16;

    ghost next_gives = { Steps };

    ghost remaining = { λ it. at_most (16384 - unwrap_or it.edge 16384) };

    fn next(&mut self) -> Option<u16> {
        let edge = self.edge?;
        self.edge = edge_at(self.next, edge as usize);
        Some(edge)
    }
}

fn no_edges<const N: usize>() -> [Link; N]
    ensures { (k : ℕ) → link result k ≡ None }
{
    [Link::none(); N]
}

impl Links {
    pub fn none() -> Links
        ensures { (k : ℕ) → (link result.first k ≡ None) × (link result.next k ≡ None) }
    {
        Links {
            first: no_edges(),
            next: no_edges(),
        }
    }

    // Puts an edge before the further edges that leave its stop.
    fn prepend<N: Network>(&mut self, network: &N, edge: u16)
        requires { Grouped (N.Network.meaning network.now) (edge + 1) self.old.first self.old.next }
        ensures { Grouped (N.Network.meaning network.now) edge self.new.first self.new.next }
    {
        if let Some((stop, _)) = network.ends(edge) {
            self.next[edge as usize] = self.first[stop as usize];
            self.first[stop as usize] = Link::to(edge);
        }
    }
}

impl<'a, N: Network> Departures<'a, N> {
    // Groups the edges of a network, in links that may hold others.
    pub fn by_stop(network: &'a N, links: &'a mut Links) -> Departures<'a, N>
        ensures { result.network.now ≡ network.now }
    {
        links.first = no_edges();
        for edge in (0..network.count()).rev() {
            links.prepend(network, edge);
        }
        Departures { network, links }
    }

    // The edges that leave a stop.
    pub fn leaving(&self, stop: u8) -> Leaving<'_>
        ensures answer { (result.edge ≡ link self.now.links.now.first stop) × (result.next.now ≡ self.now.links.now.next) }
    {
        Leaving {
            edge: edge_at(&self.links.first, stop as usize),
            next: &self.links.next,
        }
    }
}
