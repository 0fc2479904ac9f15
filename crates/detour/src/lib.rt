// The first journey in rank around shut stops and barred edges, over any network.
#![tactic(auto)]

ghost use Rattle.std.specs.Prelude.{◌≡◌, ℕ, ◌<◌, ◌≤◌, true, false, ◌≢◌, List, [], ◌∷◌, take, drop, IfOk, IfSome, IfNone, MatchResult, MatchOption, slice_index};
ghost use Rattle.refusals.specs.Verdicts.{Verdict};
ghost use Rattle.refusals.specs.declared.Refusal.TheVariants.{OfDetour};
ghost use Rattle.stops.specs.Sets.{member, Holds};
ghost use Rattle.networks.specs.Networks.{day_end};
ghost use Rattle.journeys.specs.Journeys.{In};
ghost use Rattle.journeys.specs.Rank.{FirstInRank};
ghost use Rattle.journey_laws.specs.Ways.{Also, Onward, Leading, Chosen};
ghost use Rattle.journey_laws.specs.Arrivals.{Relaxed, Nearest, Found, Earliest};
ghost use Rattle.detour.specs.Choosing.{Tries};
ghost use Rattle.detour.specs.Detours.{Reason, Answers};
ghost use Rattle.refusals.specs.declared.DetourRefusal.TheVariants.{NoDetour};

use departures::{Departures, Links};
use hops::{Around, try_edge};
use networks::{DAY_END, Network};
use refusals::{DetourRefusal, Refusal};
use stops::{Restore, StopSet};

mod departures;
mod hops;

// From where and when to where, and by when.
#[derive(Clone, Copy, Debug, PartialEq, Eq)]
pub struct Course {
    pub stop: u8,
    pub instant: u32,
    pub destination: u8,
    pub latest: u32,
}

// A course by an arrival within the day. That its stop is not its destination is no part of this: at the end of a journey they are one.
#[derive(Clone, Copy)]
struct Fit {
    course: Course,
    ghost in_day: { course.latest ≤ day_end },
}

// Tries every edge that leaves a stop at an instant, and lowers the arrivals at the stops that are reached earlier.
fn relax<N: Network>(
    departures: &Departures<N>,
    stop: u8,
    instant: u32,
    origin: u8,
    around: &Around,
    arrivals: &mut [u32; 256],
)
    ensures { Relaxed (N.Network.meaning departures.now.network.now) (Also origin (Holds around.now.shut.now)) (λ e. In e around.now.barred.now) stop instant (N.Network.meaning departures.now.network.now).count (λ y. slice_index arrivals.old y) (λ y. slice_index arrivals.new y) }
{
    for edge in departures.leaving(stop) {
        let hop = try_edge(departures.network, edge, stop, instant, origin, around);
        if let Some((to, arrival)) = hop {
            arrivals[to as usize] = arrivals[to as usize].min(arrival);
        }
    }
}

// The unsettled stop with the least arrival, if that is by the latest.
// A loop, since the proof of a chain that ends in `min_by_key` did not close.
fn nearest(arrivals: &[u32; 256], settled: &StopSet, latest: u32) -> Option<u8>
    requires { latest ≤ day_end }
    ensures { Nearest (λ y. slice_index arrivals.now y) (member settled.now) latest result }
{
    let mut pick = None;
    let mut least = latest + 1;
    for (stop, arrival) in arrivals.iter().enumerate() {
        if *arrival < least && !settled.contains(stop as u8) {
            least = *arrival;
            pick = Some(stop as u8);
        }
    }
    pick
}

// The earliest arrival of a course, or one that is early enough.
fn earliest<N: Network>(
    departures: &Departures<N>,
    fit: Fit,
    enough: u32,
    around: &Around,
) -> Option<u32>
    requires apart { fit.course.stop ≢ fit.course.destination }
    requires in_order { enough ≤ fit.course.latest }
    ensures { Found (N.Network.meaning departures.now.network.now) (Holds around.now.shut.now) (λ e. In e around.now.barred.now) fit.course.stop fit.course.instant fit.course.destination fit.course.latest enough result }
{
    let Course {
        stop,
        instant,
        destination,
        latest,
    } = fit.course;
    // A stop that is not reached has the greatest number: each arrival compares as earlier, with no case of its own.
    let mut arrivals = [u32::MAX; 256];
    let mut settled = StopSet::empty();
    let onward = Around {
        shut: around.shut,
        barred: &[],
    };
    relax(departures, stop, instant, stop, around, &mut arrivals);
    while arrivals[destination as usize] > enough {
        let near = nearest(&arrivals, &settled, latest)?;
        if near == destination {
            break;
        }
        settled.insert(near);
        let reached = arrivals[near as usize];
        relax(departures, near, reached, stop, &onward, &mut arrivals);
    }
    Some(arrivals[destination as usize])
}

// Whether some journey follows a course.
fn leads_on<N: Network>(departures: &Departures<N>, fit: Fit, shut: &StopSet) -> bool
    ensures yes { result ≡ true → Leading (N.Network.meaning departures.now.network.now) (Holds shut.now) fit.course.stop fit.course.instant fit.course.destination fit.course.latest }
    ensures no { result ≡ false → Leading (N.Network.meaning departures.now.network.now) (Holds shut.now) fit.course.stop fit.course.instant fit.course.destination fit.course.latest → ⊥ }
{
    let course = fit.course;
    if course.stop == course.destination {
        return course.instant <= course.latest;
    }
    let around = Around { shut, barred: &[] };
    earliest(departures, fit, course.latest, &around).is_some()
}

// An edge to take next, the stop that it reaches, and when.
#[derive(Clone, Copy)]
struct Choice {
    edge: u16,
    to: u8,
    arrival: u32,
}

// The step with an edge, if it can begin a journey of a course.
fn attempt<N: Network>(
    departures: &Departures<N>,
    edge: u16,
    fit: Fit,
    around: &Around,
) -> Option<Choice>
    requires here { Holds around.now.shut.now fit.course.stop }
    ensures { Tries (N.Network.meaning departures.now.network.now) (Holds around.now.shut.now) (λ e. In e around.now.barred.now) fit.course.stop fit.course.instant fit.course.destination fit.course.latest edge result }
{
    let course = fit.course;
    let (to, arrival) = try_edge(
        departures.network,
        edge,
        course.stop,
        course.instant,
        course.stop,
        around,
    )?;
    let rest = Fit {
        course: Course {
            stop: to,
            instant: arrival,
            ..course
        },
    };
    if leads_on(departures, rest, around.shut) {
        Some(Choice { edge, to, arrival })
    } else {
        None
    }
}

// The least edge that can begin a journey of a course.
fn choose<N: Network>(departures: &Departures<N>, fit: Fit, around: &Around) -> Choice
    requires apart { fit.course.stop ≢ fit.course.destination }
    requires here { Holds around.now.shut.now fit.course.stop }
    requires some { (a : ℕ) × (es : List ℕ) × Onward (N.Network.meaning departures.now.network.now) (Holds around.now.shut.now) (λ e. In e around.now.barred.now) fit.course.stop fit.course.instant fit.course.destination fit.course.latest a es }
    ensures { Chosen (N.Network.meaning departures.now.network.now) (Holds around.now.shut.now) (λ e. In e around.now.barred.now) fit.course.stop fit.course.instant fit.course.destination fit.course.latest result.edge result.to result.arrival }
{
    for edge in departures.leaving(fit.course.stop) {
        if let Some(choice) = attempt(departures, edge, fit, around) {
            return choice;
        }
    }
    unreachable()
}

// Writes the edges of the first journey in rank of a course whose latest arrival is the earliest, and answers how many; more stops are then shut.
fn trace<N: Network>(
    departures: &Departures<N>,
    fit: Fit,
    shut: &mut StopSet,
    barred: &[u16],
    edges: &mut [u16; 255],
) -> usize
    requires stop_free { member shut.old fit.course.stop ≡ false }
    requires destination_free { member shut.old fit.course.destination ≡ false }
    requires earliest { Earliest (N.Network.meaning departures.now.network.now) (Holds shut.old) (λ e. In e barred.now) fit.course.stop fit.course.instant fit.course.destination fit.course.latest }
    ensures few { result ≤ 255 }
    ensures answer { FirstInRank (Onward (N.Network.meaning departures.now.network.now) (Holds shut.old) (λ e. In e barred.now) fit.course.stop fit.course.instant fit.course.destination fit.course.latest) fit.course.latest (take result edges.new) }
    ensures rest { drop result edges.new ≡ drop result edges.old }
{
    let course = fit.course;
    let mut stop = course.stop;
    let mut instant = course.instant;
    let mut barred = barred;
    // The edges stand in the caller's buffer, by the definition of a detour, so their count is kept beside them.
    let mut count = 0;
    while stop != course.destination {
        shut.insert(stop);
        let here = Fit {
            course: Course {
                stop,
                instant,
                ..course
            },
        };
        let choice = choose(departures, here, &Around { shut, barred });
        edges[count] = choice.edge;
        count += 1;
        stop = choice.to;
        instant = choice.arrival;
        barred = &[];
    }
    count
}

// The detour of a course between fit stops; more stops are then shut.
fn find<N: Network>(
    network: &N,
    fit: Fit,
    shut: &mut StopSet,
    barred: &[u16],
    edges: &mut [u16; 255],
) -> Option<(u32, usize)>
    requires apart { fit.course.stop ≢ fit.course.destination }
    requires stop_free { member shut.old fit.course.stop ≡ false }
    requires destination_free { member shut.old fit.course.destination ≡ false }
    ensures answer { IfSome result (Answers (N.Network.meaning network.now) (Holds shut.old) (λ e. In e barred.now) fit.course.stop fit.course.instant fit.course.destination fit.course.latest edges.new) }
    ensures none { IfNone result (Reason (N.Network.meaning network.now) (Holds shut.old) (λ e. In e barred.now) fit.course.stop fit.course.instant fit.course.destination fit.course.latest NoDetour) }
    ensures rest { MatchOption result (edges.new ≡ edges.old) (λ p. drop p.1 edges.new ≡ drop p.1 edges.old) }
{
    let mut links = Links::none();
    let departures = Departures::by_stop(network, &mut links);
    let arrival = earliest(&departures, fit, 0, &Around { shut, barred })?;
    let first = Fit {
        course: Course {
            latest: arrival,
            ..fit.course
        },
    };
    let count = trace(&departures, first, shut, barred, edges);
    Some((arrival, count))
}

// Finds the first in rank among the simple journeys of a course that reach no shut stop and whose first edge is not barred.
// Writes its edges at the buffer's front, and answers its arrival and how many they are.
pub fn detour<N: Network>(
    network: &N,
    course: Course,
    shut: &mut StopSet,
    barred: &[u16],
    edges: &mut [u16; 255],
) -> Result<(u32, usize), Refusal>
    ensures answer { IfOk result (Answers (N.Network.meaning network.now) (Holds shut.old) (λ e. In e barred.now) course.stop course.instant course.destination course.latest edges.new) }
    ensures rest { MatchResult result (λ p. drop p.1 edges.new ≡ drop p.1 edges.old) (λ _. edges.new ≡ edges.old) }
    ensures refusal { Verdict OfDetour (71 ∷ 72 ∷ 73 ∷ []) (Reason (N.Network.meaning network.now) (Holds shut.old) (λ e. In e barred.now) course.stop course.instant course.destination course.latest) result }
    ensures same { shut.new ≡ shut.old }
{
    let Course {
        stop,
        instant,
        destination,
        latest,
    } = course;
    if stop == destination || shut.contains(stop) || shut.contains(destination) {
        return Err(DetourRefusal::StopsUnfit.into());
    }
    if instant > latest || latest > DAY_END {
        return Err(DetourRefusal::InstantsUnfit.into());
    }
    let guard = Restore {
        saved: *shut,
        set: shut,
    };
    let fit = Fit { course };
    let answer = find(network, fit, guard.set, barred, edges).ok_or(DetourRefusal::NoDetour)?;
    Ok(answer)
}
