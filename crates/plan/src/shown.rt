// A journey as a person reads it.
use entries::entry::Journey;
use journeys::walks::take_edge;
use networks::Network;
use std::{fmt, io};

// An instant as hours, minutes and seconds.
#[derive(Clone, Copy)]
struct Clock(u32);

impl fmt::Display for Clock {
    fn fmt<W: fmt::Write>(&self, f: &mut fmt::Formatter<W>) -> fmt::Result {
        let hours = self.0 / 3600;
        let minutes = self.0 / 60 % 60;
        let seconds = self.0 % 60;
        write!(f, "{hours:02}:{minutes:02}:{seconds:02}")
    }
}

// Prints a journey with its number: its arrival, and each edge with its stops and instants.
pub fn print_journey<N: Network>(
    rt: &HostRuntime,
    network: &N,
    start: u32,
    number: usize,
    journey: &Journey,
) -> io::Result<()> {
    let arrival = Clock(journey.arrival);
    println!(rt; "{number}: arrival {arrival}")?;
    let mut here = None;
    let mut instant = start;
    for edge in journey.edges.iter() {
        let Ok(step) = take_edge(network, here, instant, *edge) else {
            break;
        };
        let (from, to) = (step.from, step.to);
        let (asked, reached) = (Clock(instant), Clock(step.arrival));
        println!(rt; "  edge {edge}: stop {from} at {asked}, stop {to} at {reached}")?;
        here = Some(to);
        instant = step.arrival;
    }
    Ok(())
}
