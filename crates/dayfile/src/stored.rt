// The three records of a timetable as they are stored in a day file.
ghost use Rattle.std.specs.Prelude.{◌≡◌, ℕ, ◌+◌, ◌≤◌, List, length, take};
ghost use Rattle.dayformat.specs.declared.Kind.{Kind};
ghost use Rattle.dayformat.specs.declared.Kind.TheVariants.{Connection as CN, Footpath as FP, Line as HW};
ghost use Rattle.dayformat.specs.Layout.{layout, size};
ghost use Rattle.dayfile.specs.Wrote.{Wrote};
ghost use Rattle.dayformat.specs.Code.{connection_bytes, footpath_bytes, line_bytes};
ghost use Rattle.std.proofs.Common.{rules};

use crate::numbers::{Number, number_at};
use timetable::records::{Connection, Footpath, Line};

// A record that is stored in N bytes.
pub(crate) trait Stored<const N: usize>: Copy {
    // Its kind, and its bytes with the mark.
    ghost kind: { Kind };

    ghost code: { Self → List ℕ };

    fn of_bytes(part: &[u8; N]) -> Self
        requires { take 2 part.now ≡ (layout kind).mark }
        ensures { code result ≡ part.now };

    fn to_bytes(&self) -> [u8; N]
        ensures { result ≡ code self.now };

    ghost width: { size kind ≡ N };
}

// Writes bytes from a place on, and answers the place behind them.
pub(crate) fn put(bytes: &[u8], buffer: &mut [u8], at: usize) -> usize
    requires { at + length bytes.now ≤ length buffer.old }
    ensures { Wrote buffer.old at bytes.now result buffer.new }
{
    buffer[at..at + bytes.len()].copy_from_slice(bytes);
    at + bytes.len()
}

impl Stored<14> for Connection {
    ghost kind = { CN };

    ghost code = { connection_bytes };

    ghost width = { Prim.search rules };

    fn of_bytes(part: &[u8; 14]) -> Connection {
        Connection {
            from: part[2],
            to: part[3],
            departure: number_at(part, 4),
            arrival: number_at(part, 8),
            trip: number_at(part, 12),
        }
    }

    fn to_bytes(&self) -> [u8; 14] {
        let d = self.departure.to_bytes();
        let a = self.arrival.to_bytes();
        let t = self.trip.to_bytes();
        [
            b'C', b'N', self.from, self.to, d[0], d[1], d[2], d[3], a[0], a[1], a[2], a[3], t[0],
            t[1],
        ]
    }
}

impl Stored<8> for Footpath {
    ghost kind = { FP };

    ghost code = { footpath_bytes };

    ghost width = { Prim.search rules };

    fn of_bytes(part: &[u8; 8]) -> Footpath {
        Footpath {
            from: part[2],
            to: part[3],
            duration: number_at(part, 4),
        }
    }

    fn to_bytes(&self) -> [u8; 8] {
        let d = self.duration.to_bytes();
        [b'F', b'P', self.from, self.to, d[0], d[1], d[2], d[3]]
    }
}

impl Stored<20> for Line {
    ghost kind = { HW };

    ghost code = { line_bytes };

    ghost width = { Prim.search rules };

    fn of_bytes(part: &[u8; 20]) -> Line {
        Line {
            from: part[2],
            to: part[3],
            first: number_at(part, 4),
            last: number_at(part, 8),
            interval: number_at(part, 12),
            ride: number_at(part, 16),
        }
    }

    fn to_bytes(&self) -> [u8; 20] {
        let f = self.first.to_bytes();
        let e = self.last.to_bytes();
        let i = self.interval.to_bytes();
        let r = self.ride.to_bytes();
        [
            b'H', b'W', self.from, self.to, f[0], f[1], f[2], f[3], e[0], e[1], e[2], e[3], i[0],
            i[1], i[2], i[3], r[0], r[1], r[2], r[3],
        ]
    }
}
