// The timetable of a day, read from its file.
use crate::failure::Failure;
use dayfile::{Room, unpack};
use std::fs;
use timetable::book::HeadwayBook;
use timetable::records::{Connection, Footpath, Line};
use timetable::table::DayTable;

// Reads a day file and fills its table; the lines are filled into a book, so that their rules are checked too.
pub fn load(rt: &HostRuntime, path: &str) -> Result<DayTable, Failure> {
    let heap = rt.alloc();
    let file = fs::read(rt, path)?;
    let mut connections = vec![in heap; Connection::default(); 3072]?;
    let mut footpaths = vec![in heap; Footpath::default(); 1024]?;
    let mut lines = vec![in heap; Line::default(); 1024]?;
    let mut room = Room {
        connections: &mut connections,
        footpaths: &mut footpaths,
        lines: &mut lines,
    };
    let n = unpack(&file, &mut room)?;
    let lists = room.front(&n);
    let mut table = DayTable::new(heap)?;
    table.fill(lists.connections, lists.footpaths)?;
    let mut book = HeadwayBook::new(heap)?;
    book.fill(lists.lines)?;
    if n.lines > 0 {
        eprintln!(rt; "note: the lines of the headway book are not searched yet")?;
    }
    Ok(table)
}
