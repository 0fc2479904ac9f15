// The reason of every refusal, in words.
ghost use Rattle.std.specs.Prelude.{Some};
ghost use Rattle.refusals.specs.Reasons.{shown, file_reason, table_reason, book_reason, window_reason, notice_reason, question_reason, search_reason, detour_reason};

use crate::{
    BookRefusal, DetourRefusal, FileRefusal, NoticeRefusal, QuestionRefusal, Refusal,
    SearchRefusal, TableRefusal, WindowRefusal,
};
use std::error::Error;
use std::fmt;

impl fmt::Display for FileRefusal {
    ghost output = { λ r. Some (file_reason r) };

    fn fmt<W: fmt::Write>(&self, f: &mut fmt::Formatter<W>) -> fmt::Result {
        f.write_str(match self {
            FileRefusal::EndsEarly(_) => "the file ends before its end mark or inside a record",
            FileRefusal::UnknownMark(_) => "two bytes that are no mark",
            FileRefusal::KindOutOfOrder(_) => "the kind of record belongs earlier",
            FileRefusal::ListFull(_) => "too many records of this kind",
            FileRefusal::BytesAfterEnd(_) => "bytes follow the end mark",
            FileRefusal::BufferTooShort => "the buffer is too short",
        })
    }
}

impl fmt::Display for TableRefusal {
    ghost output = { λ r. Some (table_reason r) };

    fn fmt<W: fmt::Write>(&self, f: &mut fmt::Formatter<W>) -> fmt::Result {
        f.write_str(match self {
            TableRefusal::TooManyRecords => "more than 3072 connections or 1024 footpaths",
            TableRefusal::ConnectionStops(_) => "the connection has equal stops",
            TableRefusal::ConnectionTimes(_) =>
                "the connection departs no earlier than it arrives, or arrives past the day",
            TableRefusal::ConnectionOrder(_) => "the connection departs before the one ahead of it",
            TableRefusal::ConnectionTrip(_) =>
                "the trip's connection before does not reach this departure stop in time",
            TableRefusal::FootpathStops(_) => "the footpath has equal stops",
            TableRefusal::FootpathDuration(_) => "the footpath takes more than 86400 seconds",
            TableRefusal::FootpathRepeated(_) => "an earlier footpath has the same stops",
        })
    }
}

impl fmt::Display for BookRefusal {
    ghost output = { λ r. Some (book_reason r) };

    fn fmt<W: fmt::Write>(&self, f: &mut fmt::Formatter<W>) -> fmt::Result {
        f.write_str(match self {
            BookRefusal::TooManyLines => "more than 1024 lines",
            BookRefusal::LineStops(_) => "the line has equal stops",
            BookRefusal::LineInterval(_) => "the line's interval or ride is 0",
            BookRefusal::LineHours(_) =>
                "the line's first departure is after its last, or its last ride ends past the day",
        })
    }
}

impl fmt::Display for WindowRefusal {
    ghost output = { λ r. Some (window_reason r) };

    fn fmt<W: fmt::Write>(&self, f: &mut fmt::Formatter<W>) -> fmt::Result {
        f.write_str(match self {
            WindowRefusal::TooManyWindows => "sixteen windows are held",
            WindowRefusal::WindowEdge => "there is no such edge",
            WindowRefusal::WindowSpan =>
                "the window's from is not before its until, or that is past the day",
        })
    }
}

impl fmt::Display for NoticeRefusal {
    ghost output = { λ r. Some (notice_reason r) };

    fn fmt<W: fmt::Write>(&self, f: &mut fmt::Formatter<W>) -> fmt::Result {
        f.write_str(match self {
            NoticeRefusal::TooManyNotices => "thirty-two notices are held",
            NoticeRefusal::NoticeEdge => "there is no such edge",
            NoticeRefusal::NoticeRepeated => "the edge has a notice",
            NoticeRefusal::NoticeTooLong => "the notice is above 86400 seconds",
        })
    }
}

impl fmt::Display for QuestionRefusal {
    ghost output = { λ r. Some (question_reason r) };

    fn fmt<W: fmt::Write>(&self, f: &mut fmt::Formatter<W>) -> fmt::Result {
        f.write_str(match self {
            QuestionRefusal::OriginIsDestination => "the origin is the destination",
            QuestionRefusal::LatestPastDay => "the latest arrival is past the day",
            QuestionRefusal::StartAfterLatest => "the start is after the latest arrival",
        })
    }
}

impl fmt::Display for SearchRefusal {
    ghost output = { λ r. Some (search_reason r) };

    fn fmt<W: fmt::Write>(&self, f: &mut fmt::Formatter<W>) -> fmt::Result {
        f.write_str(match self {
            SearchRefusal::TooManyEntries => "the search holds sixteen entries",
            SearchRefusal::NoMore => "no journey is left",
            SearchRefusal::NotGiven => "fewer journeys were given",
            SearchRefusal::NotSimple => "no simple journey of the question",
            SearchRefusal::AlreadyListed => "the journey is an entry already",
            SearchRefusal::SheetTooShort => "the buffer is too short",
        })
    }
}

impl fmt::Display for DetourRefusal {
    ghost output = { λ r. Some (detour_reason r) };

    fn fmt<W: fmt::Write>(&self, f: &mut fmt::Formatter<W>) -> fmt::Result {
        f.write_str(match self {
            DetourRefusal::StopsUnfit => "the stop is the destination, or one of them is shut",
            DetourRefusal::InstantsUnfit =>
                "the instant is after the latest arrival, or that is past the day",
            DetourRefusal::NoDetour => "no journey exists",
        })
    }
}

impl fmt::Display for Refusal {
    ghost output = { λ r. Some (shown r) };

    fn fmt<W: fmt::Write>(&self, f: &mut fmt::Formatter<W>) -> fmt::Result {
        write!(f, "refused {}", self.number())?;
        if let Some(place) = self.place() {
            write!(f, " {place}")?;
        }
        match self {
            Refusal::OfFile(reason) => write!(f, ": {reason}"),
            Refusal::OfTable(reason) => write!(f, ": {reason}"),
            Refusal::OfBook(reason) => write!(f, ": {reason}"),
            Refusal::OfWindow(reason) => write!(f, ": {reason}"),
            Refusal::OfNotice(reason) => write!(f, ": {reason}"),
            Refusal::OfQuestion(reason) => write!(f, ": {reason}"),
            Refusal::OfSearch(reason) => write!(f, ": {reason}"),
            Refusal::OfDetour(reason) => write!(f, ": {reason}"),
        }
    }
}

impl Error for Refusal {}
