// The three lists that a day file holds: to be packed, or with room for what it holds.
ghost use Rattle.std.specs.Prelude.{◌≡◌, length};
ghost use Rattle.dayfile.specs.Records.{listed, held, front, encoding};

use dayformat::Lengths;
use timetable::records::{Connection, Footpath, Line};

// Connections, footpaths and lines.
#[derive(Clone, Copy, Debug, PartialEq, Eq)]
pub struct Lists<'a> {
    pub connections: &'a [Connection],
    pub footpaths: &'a [Footpath],
    pub lines: &'a [Line],
}

// Lists with room for connections, footpaths and lines.
#[derive(Drop)]
pub struct Room<'a> {
    pub connections: &'a mut [Connection],
    pub footpaths: &'a mut [Footpath],
    pub lines: &'a mut [Line],
}

impl Lists<'_> {
    // How many bytes their file has.
    #[tactic(auto, using(crate::proofs::Puts::length_encode))]
    pub(crate) fn packed_size(&self) -> u128
        ensures { result ≡ length (encoding (listed self.now)) }
    {
        14 * self.connections.len() as u128
            + 8 * self.footpaths.len() as u128
            + 20 * self.lines.len() as u128
            + 2
    }
}

impl Room<'_> {
    // The first so many records of each list, or all where a list is shorter.
    pub fn front(&self, n: &Lengths) -> Lists<'_>
        ensures { listed result ≡ front n.now (held self.now) }
    {
        Lists {
            connections: &self.connections[..n.connections.min(self.connections.len())],
            footpaths: &self.footpaths[..n.footpaths.min(self.footpaths.len())],
            lines: &self.lines[..n.lines.min(self.lines.len())],
        }
    }
}
