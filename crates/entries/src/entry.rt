// A journey, an entry of a search, and the list of the entries.
ghost use Rattle.std.specs.Prelude.{◌≡◌, ◌+◌, ◌≤◌, ◌↔◌, ◌++◌, [], length, take, drop, IsOk, IfOk};

use crate::inline::{Blank, Inline};
use arrayvec::CapacityError;

// The arrival of a journey, and its edges, which are at most 255. They compare in this order: simple journeys by rank.
#[derive(Clone, Copy, PartialEq, Eq, PartialOrd, Ord)]
pub struct Journey {
    pub arrival: u32,
    pub edges: Inline<u16, 255>,
}

// What stands in places with no entry: no edges, at instant 0. By hand, so that the contract says it, and a wrong one is refused.
impl Default for Journey {
    ghost is_default = { λ j. (j.arrival ≡ 0) × (j.edges.items ≡ []) };

    fn default() -> Journey {
        Journey {
            arrival: 0,
            edges: Inline::new(),
        }
    }
}

impl Journey {
    // The journey of the edges, unless they are more than 255.
    pub fn new(arrival: u32, edges: &[u16]) -> Result<Journey, CapacityError>
        ensures ok { IfOk result (λ j. (j.arrival ≡ arrival) × (j.edges.items ≡ edges.now)) }
        ensures variant { IsOk result ↔ (length edges.now ≤ 255) }
    {
        let edges = Inline::try_from(edges)?;
        Ok(Journey { arrival, edges })
    }

    // The journey of a beginning and the edges that follow it, unless they are more than 255.
    pub fn joined(arrival: u32, beginning: &[u16], onward: &[u16]) -> Result<Journey, CapacityError>
        ensures ok { IfOk result (λ j. (j.arrival ≡ arrival) × (j.edges.items ≡ beginning.now ++ onward.now)) }
        ensures variant { IsOk result ↔ (length beginning.now + length onward.now ≤ 255) }
    {
        let mut journey = Journey::new(arrival, beginning)?;
        journey.edges.try_extend_from_slice(onward)?;
        Ok(journey)
    }

    // Tells the arrival and how many edges there are. They are written at the buffer's front.
    pub fn write_to(&self, buffer: &mut [u16; 255]) -> (u32, usize)
        ensures arrival { result.0 ≡ self.now.arrival }
        ensures edges { take result.1 buffer.new ≡ self.now.edges.items }
        ensures few { result.1 ≤ 255 }
        ensures rest { drop result.1 buffer.new ≡ drop result.1 buffer.old }
    {
        let edges = self.edges.as_slice();
        buffer[..edges.len()].copy_from_slice(edges);
        (self.arrival, edges.len())
    }
}

// How a journey came to be an entry.
#[derive(Clone, Copy, PartialEq, Eq, Default)]
pub enum Standing {
    Given,
    #[default]
    Struck,
}

// A journey that was given or struck. A place of the list with no entry holds the default one.
#[derive(Clone, Copy, Default)]
pub struct Entry {
    pub standing: Standing,
    pub journey: Journey,
}

impl Blank for Entry {
    ghost use Rattle.entries.specs.Blanks.{blank_entry};

    ghost blank = { blank_entry };

    fn blank() -> Entry {
        Entry::default()
    }
}

// The entries of a search, in the order in which they came; there are at most sixteen.
#[derive(Clone, Copy)]
pub struct Entries {
    pub list: Inline<Entry, 16>,
}
