// Layers over day tables: walks at the station, piles, shut instants, and refusals.
use journeys::walks::walk;
use layers::gate::{Gate, Window};
use layers::late::{Late, Notice};
use networks::Network;
use refusals::Refusal;
use station::{CONNECTIONS, FOOTPATHS};
use std::alloc::Global;
use std::process::Abort;
use std::test::Fail;
use timetable::records::Footpath;
use timetable::table::DayTable;

fn station_table(rt: &impl Abort, heap: Global) -> Result<DayTable, Fail> {
    let mut table = DayTable::new(heap)?;
    assert_eq!(rt; table.fill(&CONNECTIONS, &FOOTPATHS), Ok(()));
    Ok(table)
}

// Forty footpaths from stop 0.
fn forty_footpaths(rt: &impl Abort, heap: Global) -> Result<DayTable, Fail> {
    let mut table = DayTable::new(heap)?;
    let footpaths: Vec<Footpath> = (1..41)
        .map(|to| Footpath {
            from: 0,
            to,
            duration: 60,
        })
        .collect(heap)?;
    assert_eq!(rt; table.fill(&[], &footpaths), Ok(()));
    Ok(table)
}

// Adds windows, each with the number of the refusal that it meets, if it meets one.
fn add_windows<N: Network>(
    rt: &impl Abort,
    gate: &mut Gate<N>,
    rows: &[(u16, u32, u32, Result<(), u8>)],
) {
    for &(edge, from, until, expected) in rows {
        assert_eq!(rt; told(gate.add(Window { edge, from, until })), expected);
    }
}

// Adds notices, each with the number of the refusal that it meets, if it meets one.
fn add_notices<N: Network>(
    rt: &impl Abort,
    late: &mut Late<N>,
    rows: &[(u16, u32, Result<(), u8>)],
) {
    for &(edge, seconds, expected) in rows {
        assert_eq!(rt; told(late.add(Notice { edge, seconds })), expected);
    }
}

// The number of the refusal, if there is one.
fn told(res: Result<(), Refusal>) -> Result<(), u8> {
    res.map_err(|refusal| refusal.number())
}

fn gated<N: Network + Drop>(
    rt: &impl Abort,
    below: N,
    edge: u16,
    from: u32,
    until: u32,
) -> Gate<N> {
    let mut gate = Gate::new(below);
    add_windows(rt, &mut gate, &[(edge, from, until, Ok(()))]);
    gate
}

fn delayed<N: Network + Drop>(rt: &impl Abort, below: N, edge: u16, seconds: u32) -> Late<N> {
    let mut late = Late::new(below);
    add_notices(rt, &mut late, &[(edge, seconds, Ok(()))]);
    late
}

// The arrival of the walk along edges 0, 5 and 3 from 28800, or the step that cannot be taken.
fn walked<N: Network>(network: &N) -> Result<u32, usize> {
    walk(network, 28800, &[0, 5, 3]).map_err(|blocked| blocked.step)
}

#[test]
fn a_notice_on_the_first_connection(rt: HostRuntime) -> Result<(), Fail> {
    let late = delayed(&rt, station_table(&rt, rt.alloc())?, 0, 120);
    assert_eq!(rt; walked(&late), Ok(30300));
    let later = delayed(&rt, late.into_below(), 0, 121);
    assert_eq!(rt; walked(&later), Err(2));
    Ok(())
}

#[test]
fn a_window_on_the_footpath(rt: HostRuntime) -> Result<(), Fail> {
    let gate = gated(&rt, station_table(&rt, rt.alloc())?, 5, 29400, 29520);
    assert_eq!(rt; walked(&gate), Ok(30300));
    let longer = gated(&rt, gate.into_below(), 5, 29400, 29521);
    assert_eq!(rt; walked(&longer), Err(2));
    Ok(())
}

#[test]
fn empty_layers(rt: HostRuntime) -> Result<(), Fail> {
    let pile = Late::new(Gate::new(station_table(&rt, rt.alloc())?));
    assert_eq!(rt; walked(&pile), Ok(30300));
    assert_eq!(rt;
        (pile.count(), pile.ends(5), pile.ends(6)),
        (6, Some((1, 2)), None)
    );
    Ok(())
}

// Two gates and a late layer; which window is met first depends on the order.
#[test]
fn a_pile_in_both_orders(rt: HostRuntime) -> Result<(), Fail> {
    let inner = gated(&rt, station_table(&rt, rt.alloc())?, 5, 29460, 29520);
    let late = delayed(&rt, gated(&rt, inner, 5, 29400, 29460), 5, 60);
    assert_eq!(rt; late.lookup(5, 29400), Some(29820));
    assert_eq!(rt; walked(&late), Err(2));

    let table = late.into_below().into_below().into_below();
    let inner = gated(&rt, delayed(&rt, table, 5, 60), 5, 29400, 29460);
    let gate = gated(&rt, inner, 5, 29460, 29520);
    assert_eq!(rt; gate.lookup(5, 29400), Some(29760));
    assert_eq!(rt; walked(&gate), Ok(30300));
    Ok(())
}

// Windows that overlap, touch, lie inside one another and repeat.
#[test]
fn the_least_open_instant(rt: HostRuntime) -> Result<(), Fail> {
    let mut gate = Gate::new(station_table(&rt, rt.alloc())?);
    add_windows(
        &rt,
        &mut gate,
        &[
            (5, 250, 400, Ok(())),
            (5, 100, 200, Ok(())),
            (5, 260, 270, Ok(())),
            (5, 200, 300, Ok(())),
            (5, 100, 200, Ok(())),
        ],
    );
    assert_eq!(rt;
        [
            gate.opening(5, 99),
            gate.opening(5, 100),
            gate.opening(5, 265),
            gate.opening(5, 400),
        ],
        [99, 400, 400, 400]
    );
    assert_eq!(rt; gate.opening(4, 100), 100);
    Ok(())
}

#[test]
fn the_end_of_the_day(rt: HostRuntime) -> Result<(), Fail> {
    let late = delayed(&rt, station_table(&rt, rt.alloc())?, 5, 60);
    assert_eq!(rt;
        (late.lookup(5, 172_500), late.lookup(5, 172_501)),
        (Some(172_800), None)
    );
    assert_eq!(rt; (late.delay(5), late.delay(0)), (Some(60), None));
    Ok(())
}

// Every refusal, on both sides of its boundary; of several reasons the first of the list is given.
#[test]
fn refusals(rt: HostRuntime) -> Result<(), Fail> {
    let mut late = Late::new(Gate::new(forty_footpaths(&rt, rt.alloc())?));
    add_notices(
        &rt,
        &mut late,
        &[
            (40, 0, Err(34)),
            (40, 86_401, Err(34)),
            (39, 86_401, Err(36)),
            (39, 86_400, Ok(())),
            (39, 0, Err(35)),
            (39, 86_401, Err(35)),
        ],
    );
    for edge in 0..31 {
        add_notices(&rt, &mut late, &[(edge, 60, Ok(()))]);
    }
    add_notices(&rt, &mut late, &[(31, 60, Err(33)), (40, 86_401, Err(33))]);

    let mut gate = late.into_below();
    add_windows(
        &rt,
        &mut gate,
        &[
            (40, 0, 60, Err(31)),
            (40, 60, 60, Err(31)),
            (39, 60, 60, Err(32)),
            (39, 0, 172_801, Err(32)),
            (39, 59, 60, Ok(())),
            (39, 0, 172_800, Ok(())),
        ],
    );
    for edge in 0..14 {
        add_windows(&rt, &mut gate, &[(edge, 0, 60, Ok(()))]);
    }
    add_windows(
        &rt,
        &mut gate,
        &[(14, 0, 60, Err(30)), (40, 60, 60, Err(30))],
    );
    Ok(())
}
