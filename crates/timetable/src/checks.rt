// The rules of filling a day table, checked record by record.
ghost use Rattle.std.specs.Prelude.{◌≡◌, ℕ, ◌+◌, ◌<◌, ◌≤◌, ◌≢◌, ◌↔◌, [], length, MatchOption, OnOk, IsTrue};
ghost use Rattle.refusals.specs.Verdicts.{At, Judged};
ghost use Rattle.refusals.specs.declared.Refusal.TheVariants.{OfTable};
ghost use Rattle.timetable.specs.DayTables.{connection, footpath, NearestOfTrip, Repeated, Breaks, table_order, ConnectionStopsFit, FootpathStopsFit};

use crate::records::{Connection, Footpath};
use networks::DAY_END;
use refusals::TableRefusal;

// The nearest connection before k that is of its trip.
fn nearest_of_trip(connections: &[Connection], k: usize) -> Option<usize>
    requires { k < length connections.now }
    ensures { MatchOption result ((j : ℕ) → j < k → (connection connections.now j).trip ≢ (connection connections.now k).trip) (NearestOfTrip connections.now k) }
{
    let trip = connections[k].trip;
    connections[..k].iter().rposition(|c| c.trip == trip)
}

// The first rule that connection k breaks, which is `c`.
fn check_connection(connections: &[Connection], k: usize, c: Connection) -> Result<(), TableRefusal>
    requires within { k < length connections.now }
    requires here { c ≡ connection connections.now k }
    ensures stops { (c.from < 256) × (c.to < 256) }
    ensures answer { Judged OfTable table_order (At OfTable (Breaks connections.now []) k) result }
{
    if c.from == c.to {
        return Err(TableRefusal::ConnectionStops(k));
    }
    if c.arrival <= c.departure || c.arrival > DAY_END {
        return Err(TableRefusal::ConnectionTimes(k));
    }
    if k > 0 && c.departure < connections[k - 1].departure {
        return Err(TableRefusal::ConnectionOrder(k));
    }
    if let Some(j) = nearest_of_trip(connections, k) {
        let before = connections[j];
        if before.to != c.from || before.arrival >= c.departure {
            return Err(TableRefusal::ConnectionTrip(k));
        }
    }
    Ok(())
}

// Whether an earlier footpath has the stops of footpath j, in the same order.
fn is_repeated(footpaths: &[Footpath], j: usize) -> bool
    requires { j < length footpaths.now }
    ensures { IsTrue result ↔ Repeated footpaths.now j }
{
    let path = footpaths[j];
    footpaths[..j].iter().any(|earlier| earlier.from == path.from && earlier.to == path.to)
}

// The first rule that footpath j breaks, which is `path`; it stands behind the connections.
fn check_footpath(
    connections: &[Connection],
    footpaths: &[Footpath],
    j: usize,
    path: Footpath,
) -> Result<(), TableRefusal>
    requires few { length connections.now ≤ 3072 }
    requires within { j < length footpaths.now }
    requires here { path ≡ footpath footpaths.now j }
    ensures stops { (path.from < 256) × (path.to < 256) }
    ensures answer { Judged OfTable table_order (At OfTable (Breaks connections.now footpaths.now) (length connections.now + j)) result }
{
    let edge = connections.len() + j;
    if path.from == path.to {
        return Err(TableRefusal::FootpathStops(edge));
    }
    if path.duration > 86_400 {
        return Err(TableRefusal::FootpathDuration(edge));
    }
    if is_repeated(footpaths, j) {
        return Err(TableRefusal::FootpathRepeated(edge));
    }
    Ok(())
}

// The first rule that the records break, by edge number and then in the order in which the rules are written.
pub(crate) fn check_records(
    connections: &[Connection],
    footpaths: &[Footpath],
) -> Result<(), TableRefusal>
    ensures answer { Judged OfTable table_order (Breaks connections.now footpaths.now) result }
    ensures few { OnOk result ((length connections.now ≤ 3072) × (length footpaths.now ≤ 1024)) }
    ensures stops { OnOk result (ConnectionStopsFit connections.now × FootpathStopsFit footpaths.now) }
{
    if connections.len() > 3072 || footpaths.len() > 1024 {
        return Err(TableRefusal::TooManyRecords);
    }
    for (k, connection) in connections.iter().enumerate() {
        check_connection(connections, k, *connection)?;
    }
    for (j, footpath) in footpaths.iter().enumerate() {
        check_footpath(connections, footpaths, j, *footpath)?;
    }
    Ok(())
}
