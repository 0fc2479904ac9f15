// Walking a list of edges over a network, one step after another.
ghost use Rattle.journeys.specs.Walking.{Taken, Walked};

use networks::Network;

// An edge that was taken: the stop it leaves, the stop it reaches, and when it reaches it.
#[derive(Clone, Copy, Debug, PartialEq, Eq)]
pub struct Step {
    pub from: u8,
    pub to: u8,
    pub arrival: u32,
}

// Why an edge cannot be taken.
#[derive(Clone, Copy, Debug, PartialEq, Eq)]
pub enum Obstacle {
    NoSuchEdge,
    LeavesElsewhere,
    NoDeparture,
}

// The step of a list, counted from 0, that cannot be taken, and why.
#[derive(Clone, Copy, Debug, PartialEq, Eq)]
pub struct Blocked {
    pub step: usize,
    pub obstacle: Obstacle,
}

// Takes an edge at an instant from the stop where the walk stands, or from any stop where it has not begun.
pub fn take_edge<N: Network>(
    network: &N,
    here: Option<u8>,
    instant: u32,
    edge: u16,
) -> Result<Step, Obstacle>
    ensures { Taken (N.Network.meaning network.now) here instant edge result }
{
    let (from, to) = network.ends(edge).ok_or(Obstacle::NoSuchEdge)?;
    if here.is_some_and(|stop| stop != from) {
        return Err(Obstacle::LeavesElsewhere);
    }
    let arrival = network.lookup(edge, instant).ok_or(Obstacle::NoDeparture)?;
    Ok(Step { from, to, arrival })
}

// The arrival of a list of edges, each taken from the stop and at the instant that the one before reached.
pub fn walk<N: Network>(network: &N, start: u32, edges: &[u16]) -> Result<u32, Blocked>
    ensures { Walked (N.Network.meaning network.now) start edges.now result }
{
    let mut here = None;
    let mut instant = start;
    for (step, edge) in edges.iter().enumerate() {
        let taken = take_edge(network, here, instant, *edge).map_err(|obstacle| Blocked {
            step,
            obstacle,
        })?;
        here = Some(taken.to);
        instant = taken.arrival;
    }
    Ok(instant)
}
