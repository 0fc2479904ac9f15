// A table of files with the room of the three lists, and the number and the place that each is refused with, if it is.
use dayfile::{Lists, Room, pack, unpack};
use dayformat::Lengths;
use dayreader::{Reader, Record};
use dayrounds::{pack_and_reread, repack};
use refusals::Refusal;
use std::test::Fail;
use timetable::records::{Connection, Footpath, Line};

// One footpath, 1 to 2, 240 seconds.
const ONE_FOOTPATH: &[u8] = b"FP\x01\x02\x00\x00\x00\xF0EN";

const FOOTPATH: Footpath = Footpath {
    from: 1,
    to: 2,
    duration: 240,
};

const FILES: [(&[u8], usize, usize, usize, Result<(), (u8, Option<usize>)>); 39] = [
    // the file ends before its end mark
    (b"", 1, 1, 1, Err((1, Some(0)))),
    (b"E", 1, 1, 1, Err((1, Some(0)))),
    (b"EN", 0, 0, 0, Ok(())),
    (b"FPabcdef", 1, 1, 1, Err((1, Some(8)))),
    (b"FPabcdefE", 1, 1, 1, Err((1, Some(8)))),
    (b"FPabcdefEN", 1, 1, 1, Ok(())),
    // it ends inside a record
    (b"CNabcdefghijk", 1, 1, 1, Err((1, Some(0)))),
    (b"CNabcdefghijkl", 1, 1, 1, Err((1, Some(14)))),
    (b"CNabcdefghijklEN", 1, 1, 1, Ok(())),
    (b"FP", 1, 1, 1, Err((1, Some(0)))),
    (b"FPabcde", 1, 1, 1, Err((1, Some(0)))),
    (b"FPabcdeEN", 1, 1, 1, Err((1, Some(8)))),
    (b"HWabcdefghijklmnopq", 1, 1, 1, Err((1, Some(0)))),
    (b"HWabcdefghijklmnopqr", 1, 1, 1, Err((1, Some(20)))),
    (b"HWabcdefghijklmnopqrEN", 1, 1, 1, Ok(())),
    // two bytes that are no mark
    (b"EM", 1, 1, 1, Err((2, Some(0)))),
    (b"en", 1, 1, 1, Err((2, Some(0)))),
    (b"NC", 1, 1, 1, Err((2, Some(0)))),
    (b"FPabcdefXX", 1, 1, 1, Err((2, Some(8)))),
    // the kind belongs earlier
    (
        b"CNabcdefghijklFPabcdefHWabcdefghijklmnopqrEN",
        1,
        1,
        1,
        Ok(()),
    ),
    (b"FPabcdefCNabcdefghijklEN", 1, 1, 1, Err((3, Some(8)))),
    (
        b"HWabcdefghijklmnopqrCNabcdefghijklEN",
        1,
        1,
        1,
        Err((3, Some(20))),
    ),
    (
        b"HWabcdefghijklmnopqrFPabcdefEN",
        1,
        1,
        1,
        Err((3, Some(20))),
    ),
    // the list is full
    (b"CNabcdefghijklEN", 0, 1, 1, Err((4, Some(0)))),
    (
        b"CNabcdefghijklCNabcdefghijklEN",
        1,
        1,
        1,
        Err((4, Some(14))),
    ),
    (b"CNabcdefghijklCNabcdefghijklEN", 2, 1, 1, Ok(())),
    (b"FPabcdefFPabcdefEN", 1, 1, 1, Err((4, Some(8)))),
    (b"FPabcdefFPabcdefEN", 1, 2, 1, Ok(())),
    (
        b"HWabcdefghijklmnopqrHWabcdefghijklmnopqrEN",
        1,
        1,
        1,
        Err((4, Some(20))),
    ),
    (
        b"HWabcdefghijklmnopqrHWabcdefghijklmnopqrEN",
        1,
        1,
        2,
        Ok(()),
    ),
    // bytes follow the end mark
    (b"ENE", 1, 1, 1, Err((5, Some(0)))),
    (b"FPabcdefENEN", 1, 1, 1, Err((5, Some(8)))),
    // two faults at one place: the record is cut and belongs earlier, it is cut and its list is full, it belongs earlier and its list is full
    (b"FPabcdefCN", 1, 1, 1, Err((1, Some(8)))),
    (b"FPabcde", 1, 0, 1, Err((1, Some(0)))),
    (b"FPabcdefCNabcdefghijklEN", 0, 1, 1, Err((3, Some(8)))),
    // two faults at two places: the earlier one is told
    (b"FPabcdefFPabcdefXX", 1, 1, 1, Err((4, Some(8)))),
    (b"FPabcdefCNabcdefghijkl", 1, 1, 1, Err((3, Some(8)))),
    (b"ENXX", 1, 1, 1, Err((5, Some(0)))),
    (b"XXFPabcde", 1, 1, 1, Err((2, Some(0)))),
];

// What a call came to: the refusal's number and its place, if it was refused.
fn told<T: Drop>(res: Result<T, Refusal>) -> Result<(), (u8, Option<usize>)> {
    res.map(|_| ())
        .map_err(|refusal| (refusal.number(), refusal.place()))
}

#[test]
fn files(rt: HostRuntime) -> Result<(), Fail> {
    let heap = rt.alloc();
    for (file, connections, footpaths, lines, expected) in FILES.iter().copied() {
        let mut connections = vec![in heap; Connection::default(); connections]?;
        let mut footpaths = vec![in heap; Footpath::default(); footpaths]?;
        let mut lines = vec![in heap; Line::default(); lines]?;
        let mut room = Room {
            connections: &mut connections,
            footpaths: &mut footpaths,
            lines: &mut lines,
        };
        assert_eq!(rt; told(unpack(file, &mut room)), expected);
    }
    Ok(())
}

#[test]
fn one_footpath(rt: HostRuntime) -> Result<(), Fail> {
    let mut footpaths = [Footpath::default(); 2];
    let mut room = Room {
        connections: &mut [],
        footpaths: &mut footpaths,
        lines: &mut [],
    };
    let expected = Lengths {
        connections: 0,
        footpaths: 1,
        lines: 0,
    };
    assert_eq!(rt; unpack(ONE_FOOTPATH, &mut room), Ok(expected));
    assert_eq!(rt; footpaths, [FOOTPATH, Footpath::default()]);
    Ok(())
}

// The footpath before the fault is good, and is not taken over.
#[test]
fn nothing_taken_over(rt: HostRuntime) {
    let mut footpaths = [Footpath::default()];
    let mut room = Room {
        connections: &mut [],
        footpaths: &mut footpaths,
        lines: &mut [],
    };
    let result = unpack(b"FP\x01\x02\x00\x00\x00\xF0XX", &mut room);
    assert_eq!(rt; told(result), Err((2, Some(8))));
    assert_eq!(rt; footpaths, [Footpath::default()]);
}

#[test]
fn packing(rt: HostRuntime) {
    let lists = Lists {
        connections: &[],
        footpaths: &[FOOTPATH],
        lines: &[],
    };
    let mut buffer = [7u8; 11];
    assert_eq!(rt; pack(&lists, &mut buffer), Ok(10));
    assert!(rt; &buffer[..10] == ONE_FOOTPATH);
    assert_eq!(rt; buffer[10], 7);
    let mut short = [7u8; 9];
    assert_eq!(rt; told(pack(&lists, &mut short)), Err((6, None)));
    assert!(rt; short == [7; 9]);
}

// The end mark comes again and again, and a refusal leaves the reader where it was.
#[test]
fn reading(rt: HostRuntime) -> Result<(), Fail> {
    let mut reader = Reader::new(ONE_FOOTPATH);
    let Ok(Record::Footpath(part)) = reader.next_record() else {
        return Err(Fail::new("no footpath"));
    };
    assert!(rt; part == b"FP\x01\x02\x00\x00\x00\xF0".as_slice());
    for _ in 0..3 {
        let Ok(Record::End(part)) = reader.next_record() else {
            return Err(Fail::new("no end mark"));
        };
        assert!(rt; part == b"EN".as_slice());
    }
    let mut reader = Reader::new(b"FPabcdefCNabcdefghijkl");
    let _ = reader.next_record();
    for _ in 0..2 {
        assert_eq!(rt; told(reader.next_record()), Err((3, Some(8))));
    }
    Ok(())
}

#[test]
fn round_trips(rt: HostRuntime) {
    let file =
        b"CN\x01\x02\x00\x00\x70\x80\x00\x00\x72\xD8\xFF\xFEFP\x03\x04\x00\x01\x51\x80HW\x05\x06\x00\x00\x70\x80\x00\x00\x74\x04\x00\x00\x02\x58\x00\x00\x01\x2CEN";
    let mut connections = [Connection::default()];
    let mut footpaths = [Footpath::default()];
    let mut lines = [Line::default()];
    let mut room = Room {
        connections: &mut connections,
        footpaths: &mut footpaths,
        lines: &mut lines,
    };
    let mut buffer = [0u8; 44];
    assert_eq!(rt; repack(file, &mut room, &mut buffer), Ok(44));
    assert!(rt; &buffer == file);
    assert_eq!(rt; connections[0].trip, 65_534);
    assert_eq!(rt; footpaths[0].duration, 86_400);
    assert_eq!(rt; lines[0].ride, 300);
    let lists = Lists {
        connections: &connections,
        footpaths: &footpaths,
        lines: &lines,
    };
    let mut connections_again = [Connection::default()];
    let mut footpaths_again = [Footpath::default()];
    let mut lines_again = [Line::default()];
    let mut again = Room {
        connections: &mut connections_again,
        footpaths: &mut footpaths_again,
        lines: &mut lines_again,
    };
    assert_eq!(rt;
        told(pack_and_reread(&lists, &mut buffer, &mut again)),
        Ok(())
    );
    assert_eq!(rt; connections_again, connections);
    assert_eq!(rt; footpaths_again, footpaths);
    assert_eq!(rt; lines_again, lines);
    assert_eq!(rt; connections_again[0].arrival, 29_400);
    assert_eq!(rt; lines_again[0].interval, 600);
}
