// One edge, tried from a stop at an instant.
ghost use Rattle.std.specs.Prelude.{◌≡◌, true, false};
ghost use Rattle.stops.specs.Sets.{Holds};
ghost use Rattle.journeys.specs.Journeys.{In};
ghost use Rattle.journey_laws.specs.Ways.{Also};
ghost use Rattle.journey_laws.specs.Arrivals.{Tried};

use networks::Network;
use stops::StopSet;

// What a detour goes round: shut stops, and edges that its first step may not take.
#[derive(Clone, Copy)]
pub struct Around<'a> {
    pub shut: &'a StopSet,
    pub barred: &'a [u16],
}

// Tries an edge from a stop at an instant: where and when it arrives, unless it is barred or reaches the origin or a shut stop.
#[inline(always)]
pub fn try_edge<N: Network>(
    network: &N,
    edge: u16,
    stop: u8,
    instant: u32,
    origin: u8,
    around: &Around,
) -> Option<(u8, u32)>
    ensures { Tried (N.Network.meaning network.now) (Also origin (Holds around.now.shut.now)) (λ e. In e around.now.barred.now) stop instant edge result }
{
    let (from, to) = network.ends(edge)?;
    if from != stop || to == origin || around.shut.contains(to) || is_barred(around.barred, edge) {
        return None;
    }
    let arrival = network.lookup(edge, instant)?;
    Some((to, arrival))
}

fn is_barred(barred: &[u16], edge: u16) -> bool
    ensures yes { result ≡ true → In edge barred.now }
    ensures no { result ≡ false → In edge barred.now → ⊥ }
{
    barred.contains(&edge)
}
