// What an edge number of a day table stands for.
ghost use Rattle.std.specs.Prelude.{◌≡◌};
ghost use Rattle.timetable.specs.Edges.{ends_of, arrival_of};

use crate::records::{Connection, Footpath};
use networks::DAY_END;

#[derive(Clone, Copy, Debug, PartialEq, Eq)]
pub(crate) enum Edge {
    Ride(Connection),
    Walk(Footpath),
}

impl Edge {
    pub(crate) fn ends(self) -> (u8, u8)
        ensures { result ≡ ends_of self }
    {
        match self {
            Edge::Ride(connection) => (connection.from, connection.to),
            Edge::Walk(footpath) => (footpath.from, footpath.to),
        }
    }

    // The arrival of somebody who is at the edge's first stop at an instant.
    pub(crate) fn arrival(self, instant: u32) -> Option<u32>
        ensures { result ≡ arrival_of self instant }
    {
        match self {
            Edge::Ride(connection) if instant <= connection.departure => Some(connection.arrival),
            Edge::Walk(footpath) => instant
                .checked_add(footpath.duration)
                .filter(|by| *by <= DAY_END),
            _ => None,
        }
    }
}
