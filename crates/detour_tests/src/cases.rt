// Each case: from a stop at an instant to a destination by a latest arrival, around shut stops and barred edges; and what detour answers.
use detour::{Course, detour};
use station::{CONNECTIONS, FOOTPATHS};
use std::process::Abort;
use std::test::Fail;
use stops::StopSet;
use timetable::records::Footpath;
use timetable::table::DayTable;

// stop, destination, instant, latest
type Asked = (u8, u8, u32, u32);

// arrival and edges, or the number of a refusal
type Told = Result<(u32, &'static [u16]), u8>;

const STATION: [(Asked, &[u8], &[u16], Told); 17] = [
    ((0, 3, 28_800, 36_000), &[], &[], Ok((30_300, &[0, 5, 3]))),
    ((0, 3, 28_800, 36_000), &[], &[0], Ok((30_300, &[1, 3]))),
    ((0, 3, 28_800, 36_000), &[1], &[], Ok((30_300, &[1, 3]))),
    ((0, 3, 28_800, 36_000), &[], &[1, 0], Err(73)),
    ((0, 3, 28_800, 36_000), &[2], &[], Ok((30_600, &[0, 2]))),
    (
        (0, 3, 28_800, 36_000),
        &[2, 77, 255],
        &[2, 2, 65_535],
        Ok((30_600, &[0, 2])),
    ),
    ((0, 3, 28_800, 36_000), &[1, 2], &[], Err(73)),
    ((1, 3, 29_400, 36_000), &[0], &[2], Ok((30_300, &[5, 3]))),
    ((1, 3, 29_400, 36_000), &[0], &[2, 5], Ok((30_600, &[4]))),
    ((0, 3, 28_800, 30_300), &[], &[], Ok((30_300, &[0, 5, 3]))),
    ((0, 3, 28_800, 30_299), &[], &[], Err(73)),
    ((0, 3, 28_801, 36_000), &[], &[], Ok((30_300, &[1, 3]))),
    ((3, 3, 36_001, 36_000), &[], &[], Err(71)),
    ((0, 3, 28_800, 36_000), &[0], &[], Err(71)),
    ((0, 3, 28_800, 36_000), &[3], &[], Err(71)),
    ((0, 3, 36_001, 36_000), &[], &[], Err(72)),
    ((0, 3, 28_800, 172_801), &[], &[], Err(72)),
];

// Footpaths that take no time; from 0 the least edges lead round over 1 and 2 and back in vain.
const CIRCLE: [Footpath; 8] = [
    Footpath {
        from: 0,
        to: 1,
        duration: 0,
    },
    Footpath {
        from: 1,
        to: 2,
        duration: 0,
    },
    Footpath {
        from: 2,
        to: 0,
        duration: 0,
    },
    Footpath {
        from: 1,
        to: 0,
        duration: 0,
    },
    Footpath {
        from: 2,
        to: 1,
        duration: 0,
    },
    Footpath {
        from: 1,
        to: 3,
        duration: 0,
    },
    Footpath {
        from: 0,
        to: 3,
        duration: 0,
    },
    Footpath {
        from: 0,
        to: 2,
        duration: 0,
    },
];

const ROUND: [(Asked, &[u8], &[u16], Told); 6] = [
    ((0, 3, 600, 600), &[], &[], Ok((600, &[0, 5]))),
    ((0, 3, 600, 600), &[], &[0], Ok((600, &[6]))),
    ((0, 3, 600, 600), &[], &[0, 6], Ok((600, &[7, 4, 5]))),
    ((0, 3, 600, 600), &[1], &[6], Err(73)),
    (
        (1, 3, 172_800, 172_800),
        &[],
        &[5],
        Ok((172_800, &[1, 2, 6])),
    ),
    ((1, 3, 172_800, 172_800), &[2], &[5], Ok((172_800, &[3, 6]))),
];

// Asks for a detour, and checks its answer, the buffer's rest, and that the set of shut stops holds what it held.
fn check_case(
    rt: &impl Abort,
    table: &DayTable,
    asked: Asked,
    shut: &[u8],
    barred: &[u16],
    told: Told,
) {
    let (stop, destination, instant, latest) = asked;
    let course = Course {
        stop,
        instant,
        destination,
        latest,
    };
    let mut set = StopSet::empty();
    for s in shut {
        set.insert(*s);
    }
    let mut buffer = [60_000u16; 255];
    let answer = detour(table, course, &mut set, barred, &mut buffer);
    let mut expected = [60_000u16; 255];
    match (answer, told) {
        (Ok((arrival, count)), Ok((at, edges))) => {
            assert_eq!(rt; arrival, at);
            assert_eq!(rt; count, edges.len());
            expected[..count].copy_from_slice(edges);
        }
        (Err(refusal), Err(number)) => assert_eq!(rt; refusal.number(), number),
        _ => assert!(rt; false),
    }
    assert!(rt; buffer == expected);
    for s in 0..=255 {
        assert_eq!(rt; set.contains(s), shut.contains(&s));
    }
}

#[test]
fn around_the_station(rt: HostRuntime) -> Result<(), Fail> {
    let mut table = DayTable::new(rt.alloc())?;
    assert!(rt; table.fill(&CONNECTIONS, &FOOTPATHS).is_ok());
    for (asked, shut, barred, told) in STATION {
        check_case(&rt, &table, asked, shut, barred, told);
    }
    Ok(())
}

#[test]
fn round_in_vain(rt: HostRuntime) -> Result<(), Fail> {
    let mut table = DayTable::new(rt.alloc())?;
    assert!(rt; table.fill(&[], &CIRCLE).is_ok());
    for (asked, shut, barred, told) in ROUND {
        check_case(&rt, &table, asked, shut, barred, told);
    }
    Ok(())
}
