// The worked station example, with a table of its cases that is computed from the definitions.
#![tactic(auto)]

ghost use Rattle.std.specs.Prelude.{◌≡◌};
ghost use Rattle.station.specs.Headways.{example_line, HeadwaysStand};

use timetable::records::{Connection, Footpath, Line};

// The connections of the example: edges 0 to 4.
pub const CONNECTIONS: [Connection; 5] = [
    Connection {
        from: 0,
        to: 1,
        departure: 28_800,
        arrival: 29_400,
        trip: 0,
    },
    Connection {
        from: 0,
        to: 2,
        departure: 28_860,
        arrival: 29_700,
        trip: 1,
    },
    Connection {
        from: 1,
        to: 3,
        departure: 29_460,
        arrival: 30_600,
        trip: 0,
    },
    Connection {
        from: 2,
        to: 3,
        departure: 29_760,
        arrival: 30_300,
        trip: 1,
    },
    Connection {
        from: 1,
        to: 3,
        departure: 30_000,
        arrival: 30_600,
        trip: 2,
    },
];

// Its footpath: edge 5.
pub const FOOTPATHS: [Footpath; 1] = [Footpath {
    from: 1,
    to: 2,
    duration: 240,
}];

// The line of the example; its lookups are the ones written in the table.
pub fn example_line() -> Line
    ensures answer { result ≡ example_line }
    ensures law { HeadwaysStand }
{
    Line {
        from: 0,
        to: 1,
        first: 28_800,
        last: 29_700,
        interval: 600,
        ride: 300,
    }
}

#[cfg(test)]
mod tests {
    use super::*;
    use networks::Network;
    use std::test::Fail;
    use timetable::book::HeadwayBook;

    #[test]
    fn lookups(rt: HostRuntime) -> Result<(), Fail> {
        let mut book = HeadwayBook::new(rt.alloc())?;
        assert!(rt; book.fill(&[example_line()]).is_ok());
        assert_eq!(rt; book.lookup(0, 28_800), Some(29_100));
        assert_eq!(rt; book.lookup(0, 28_801), Some(29_700));
        assert_eq!(rt; book.lookup(0, 29_400), Some(29_700));
        assert_eq!(rt; book.lookup(0, 29_401), None);
        Ok(())
    }
}
