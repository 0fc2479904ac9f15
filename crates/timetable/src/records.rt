// The records of a timetable: connections, footpaths, and lines run at intervals.

// A train or bus from one stop to the next. Instants are seconds after the midnight that begins the service day.
#[derive(Clone, Copy, Debug, Default, PartialEq, Eq)]
pub struct Connection {
    pub from: u8,
    pub to: u8,
    pub departure: u32,
    pub arrival: u32,
    pub trip: u16,
}

// A way on foot, open at all times; its duration is in seconds.
#[derive(Clone, Copy, Debug, Default, PartialEq, Eq)]
pub struct Footpath {
    pub from: u8,
    pub to: u8,
    pub duration: u32,
}

// A service that departs at its first instant and then at every interval, up to its last; a ride takes `ride` seconds.
#[derive(Clone, Copy, Debug, Default, PartialEq, Eq)]
pub struct Line {
    pub from: u8,
    pub to: u8,
    pub first: u32,
    pub last: u32,
    pub interval: u32,
    pub ride: u32,
}
