// Tables of fillings, with the number and the place that each is refused with.
use refusals::Refusal;
use std::test::Fail;
use timetable::book::HeadwayBook;
use timetable::records::{Connection, Footpath, Line};
use timetable::table::DayTable;

// What a filling comes to: a refusal is told by its number and its place.
type Told = Result<(), (u8, Option<usize>)>;

// from, to, departure, arrival, trip
type Ride = (u8, u8, u32, u32, u16);

// from, to, duration
type Walk = (u8, u8, u32);

// from, to, first, last, interval, ride
type Service = (u8, u8, u32, u32, u32, u32);

fn connection((from, to, departure, arrival, trip): Ride) -> Connection {
    Connection {
        from,
        to,
        departure,
        arrival,
        trip,
    }
}

fn footpath((from, to, duration): Walk) -> Footpath {
    Footpath { from, to, duration }
}

fn line((from, to, first, last, interval, ride): Service) -> Line {
    Line {
        from,
        to,
        first,
        last,
        interval,
        ride,
    }
}

const TABLES: [(&[Ride], &[Walk], Told); 22] = [
    (&[], &[], Ok(())),
    (&[(1, 1, 100, 200, 1)], &[], Err((11, Some(0)))),
    (&[(1, 1, 200, 200, 1)], &[], Err((11, Some(0)))),
    (&[(1, 2, 199, 200, 1)], &[], Ok(())),
    (&[(1, 2, 200, 200, 1)], &[], Err((12, Some(0)))),
    (&[(1, 2, 200, 172_800, 1)], &[], Ok(())),
    (&[(1, 2, 200, 172_801, 1)], &[], Err((12, Some(0)))),
    (&[(0, 1, 100, 200, 1), (1, 2, 100, 200, 2)], &[], Ok(())),
    (
        &[(0, 1, 100, 200, 1), (1, 2, 99, 200, 2)],
        &[],
        Err((13, Some(1))),
    ),
    (
        &[(0, 1, 100, 200, 1), (1, 2, 99, 200, 1)],
        &[],
        Err((13, Some(1))),
    ),
    (&[(0, 1, 100, 200, 1), (1, 2, 201, 300, 1)], &[], Ok(())),
    (
        &[(0, 1, 100, 200, 1), (1, 2, 200, 300, 1)],
        &[],
        Err((14, Some(1))),
    ),
    (
        &[(0, 1, 100, 200, 1), (2, 3, 201, 300, 1)],
        &[],
        Err((14, Some(1))),
    ),
    (
        &[
            (0, 1, 100, 200, 1),
            (1, 2, 201, 300, 1),
            (2, 3, 301, 400, 1),
        ],
        &[],
        Ok(()),
    ),
    (
        &[
            (0, 1, 100, 200, 1),
            (1, 2, 201, 300, 1),
            (1, 3, 301, 400, 1),
        ],
        &[],
        Err((14, Some(2))),
    ),
    (
        &[(0, 1, 100, 200, 1), (2, 2, 300, 300, 1)],
        &[(3, 3, 0)],
        Err((11, Some(1))),
    ),
    (&[(0, 1, 100, 200, 1)], &[(3, 3, 60)], Err((15, Some(1)))),
    (
        &[(0, 1, 100, 200, 1)],
        &[(3, 3, 86_401)],
        Err((15, Some(1))),
    ),
    (&[], &[(3, 4, 86_400), (4, 3, 0)], Ok(())),
    (&[], &[(3, 4, 0), (4, 3, 86_401)], Err((16, Some(1)))),
    (
        &[(0, 1, 100, 200, 1)],
        &[(3, 4, 60), (3, 4, 90)],
        Err((17, Some(2))),
    ),
    (
        &[],
        &[(3, 4, 0), (3, 4, 86_401), (5, 5, 0)],
        Err((16, Some(1))),
    ),
];

const BOOKS: [(&[Service], Told); 11] = [
    (&[], Ok(())),
    (
        &[(0, 1, 28_800, 29_700, 600, 300), (1, 1, 0, 0, 0, 0)],
        Err((21, Some(1))),
    ),
    (&[(0, 1, 0, 0, 1, 1)], Ok(())),
    (&[(0, 1, 1, 0, 0, 1)], Err((22, Some(0)))),
    (&[(0, 1, 0, 0, 1, 0)], Err((22, Some(0)))),
    (&[(0, 1, 600, 600, 60, 30)], Ok(())),
    (&[(0, 1, 601, 600, 60, 30)], Err((23, Some(0)))),
    (&[(0, 1, 0, 172_500, 60, 300)], Ok(())),
    (
        &[
            (0, 1, 28_800, 29_700, 600, 300),
            (0, 1, 0, 172_501, 60, 300),
        ],
        Err((23, Some(1))),
    ),
    (&[(0, 1, 0, 172_801, 60, 1)], Err((23, Some(0)))),
    (&[(0, 1, 0, 1, 60, 4_294_967_295)], Err((23, Some(0)))),
];

fn told(filling: Result<(), Refusal>) -> Told {
    filling.map_err(|refusal| (refusal.number(), refusal.place()))
}

#[test]
fn tables(rt: HostRuntime) -> Result<(), Fail> {
    let heap = rt.alloc();
    let mut table = DayTable::new(heap)?;
    for (rides, walks, expected) in TABLES {
        let connections = rides
            .iter()
            .copied()
            .map(connection)
            .collect::<Vec<_>>(heap)?;
        let footpaths = walks.iter().copied().map(footpath).collect::<Vec<_>>(heap)?;
        assert_eq!(rt; told(table.fill(&connections, &footpaths)), expected);
    }
    Ok(())
}

#[test]
fn books(rt: HostRuntime) -> Result<(), Fail> {
    let heap = rt.alloc();
    let mut book = HeadwayBook::new(heap)?;
    for (services, expected) in BOOKS {
        let lines = services.iter().copied().map(line).collect::<Vec<_>>(heap)?;
        assert_eq!(rt; told(book.fill(&lines)), expected);
    }
    Ok(())
}

// Records that keep every rule but the one about how many there may be.
#[test]
fn full(rt: HostRuntime) -> Result<(), Fail> {
    let heap = rt.alloc();
    let mut rides = (0..3072u16)
        .map(|i| connection((0, 1, u32::from(i), u32::from(i) + 1, i)))
        .collect::<Vec<_>>(heap)?;
    let mut paths = (0..1024u16)
        .map(|i| (i % 256, i / 256))
        .map(|(from, round)| footpath((from as u8, ((from + 1 + round) % 256) as u8, 60)))
        .collect::<Vec<_>>(heap)?;
    let mut table = DayTable::new(heap)?;
    assert_eq!(rt; told(table.fill(&rides, &paths)), Ok(()));
    rides.push(connection((9, 9, 0, 0, 0)))?;
    assert_eq!(rt; told(table.fill(&rides, &paths)), Err((10, None)));
    paths.push(footpath((9, 9, 0)))?;
    assert_eq!(rt; told(table.fill(&[], &paths)), Err((10, None)));
    Ok(())
}

#[test]
fn full_book(rt: HostRuntime) -> Result<(), Fail> {
    let heap = rt.alloc();
    let mut lines = vec![in heap; line((0, 1, 0, 600, 60, 30)); 1024]?;
    let mut book = HeadwayBook::new(heap)?;
    assert_eq!(rt; told(book.fill(&lines)), Ok(()));
    lines.push(line((0, 0, 0, 0, 0, 0)))?;
    assert_eq!(rt; told(book.fill(&lines)), Err((20, None)));
    Ok(())
}
