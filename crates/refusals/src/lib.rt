// Why a call of the engine turns down its input: one type for every refusal, with its number, its layer and its place.
#![tactic(auto)]

ghost use Rattle.std.specs.Prelude.{◌≡◌};
ghost use Rattle.refusals.specs.Told.{told};
ghost use Rattle.refusals.specs.declared.Refusal.TheVariants.{OfFile, OfTable, OfBook, OfWindow, OfNotice, OfQuestion, OfSearch, OfDetour};

mod reasons;

// The part of the engine that a refusal comes from.
#[derive(Clone, Copy, Debug, PartialEq, Eq)]
pub enum Layer {
    File,
    Table,
    Notice,
    Question,
    Search,
}

// Reading and writing a day file; a place is that of a byte.
#[derive(Clone, Copy, Debug, PartialEq, Eq)]
pub enum FileRefusal {
    EndsEarly(usize),
    UnknownMark(usize),
    KindOutOfOrder(usize),
    ListFull(usize),
    BytesAfterEnd(usize),
    BufferTooShort,
}

// Filling a day table; a place is an edge number.
#[derive(Clone, Copy, Debug, PartialEq, Eq)]
pub enum TableRefusal {
    TooManyRecords,
    ConnectionStops(usize),
    ConnectionTimes(usize),
    ConnectionOrder(usize),
    ConnectionTrip(usize),
    FootpathStops(usize),
    FootpathDuration(usize),
    FootpathRepeated(usize),
}

// Filling a headway book; a place is an edge number.
#[derive(Clone, Copy, Debug, PartialEq, Eq)]
pub enum BookRefusal {
    TooManyLines,
    LineStops(usize),
    LineInterval(usize),
    LineHours(usize),
}

// Adding a window to a gate layer.
#[derive(Clone, Copy, Debug, PartialEq, Eq)]
pub enum WindowRefusal {
    TooManyWindows,
    WindowEdge,
    WindowSpan,
}

// Adding a notice to a late layer.
#[derive(Clone, Copy, Debug, PartialEq, Eq)]
pub enum NoticeRefusal {
    TooManyNotices,
    NoticeEdge,
    NoticeRepeated,
    NoticeTooLong,
}

// Making a question.
#[derive(Clone, Copy, Debug, PartialEq, Eq)]
pub enum QuestionRefusal {
    OriginIsDestination,
    LatestPastDay,
    StartAfterLatest,
}

// Asking an open search, and writing the sheet of a closed one.
#[derive(Clone, Copy, Debug, PartialEq, Eq)]
pub enum SearchRefusal {
    TooManyEntries,
    NoMore,
    NotGiven,
    NotSimple,
    AlreadyListed,
    SheetTooShort,
}

// Asking for a detour.
#[derive(Clone, Copy, Debug, PartialEq, Eq)]
pub enum DetourRefusal {
    StopsUnfit,
    InstantsUnfit,
    NoDetour,
}

#[derive(Clone, Copy, Debug, PartialEq, Eq)]
pub enum Refusal {
    OfFile(FileRefusal),
    OfTable(TableRefusal),
    OfBook(BookRefusal),
    OfWindow(WindowRefusal),
    OfNotice(NoticeRefusal),
    OfQuestion(QuestionRefusal),
    OfSearch(SearchRefusal),
    OfDetour(DetourRefusal),
}

// By hand, since a derived `From` has no contract.
impl From<FileRefusal> for Refusal {
    ghost from_gives = { λ e r. r ≡ OfFile e };

    fn from(refusal: FileRefusal) -> Refusal {
        Refusal::OfFile(refusal)
    }
}

impl From<TableRefusal> for Refusal {
    ghost from_gives = { λ e r. r ≡ OfTable e };

    fn from(refusal: TableRefusal) -> Refusal {
        Refusal::OfTable(refusal)
    }
}

impl From<BookRefusal> for Refusal {
    ghost from_gives = { λ e r. r ≡ OfBook e };

    fn from(refusal: BookRefusal) -> Refusal {
        Refusal::OfBook(refusal)
    }
}

impl From<WindowRefusal> for Refusal {
    ghost from_gives = { λ e r. r ≡ OfWindow e };

    fn from(refusal: WindowRefusal) -> Refusal {
        Refusal::OfWindow(refusal)
    }
}

impl From<NoticeRefusal> for Refusal {
    ghost from_gives = { λ e r. r ≡ OfNotice e };

    fn from(refusal: NoticeRefusal) -> Refusal {
        Refusal::OfNotice(refusal)
    }
}

impl From<QuestionRefusal> for Refusal {
    ghost from_gives = { λ e r. r ≡ OfQuestion e };

    fn from(refusal: QuestionRefusal) -> Refusal {
        Refusal::OfQuestion(refusal)
    }
}

impl From<SearchRefusal> for Refusal {
    ghost from_gives = { λ e r. r ≡ OfSearch e };

    fn from(refusal: SearchRefusal) -> Refusal {
        Refusal::OfSearch(refusal)
    }
}

impl From<DetourRefusal> for Refusal {
    ghost from_gives = { λ e r. r ≡ OfDetour e };

    fn from(refusal: DetourRefusal) -> Refusal {
        Refusal::OfDetour(refusal)
    }
}

impl Refusal {
    pub fn number(&self) -> u8
        ensures { result ≡ (told self.now).number }
    {
        match self {
            Refusal::OfFile(refusal) => refusal.number(),
            Refusal::OfTable(refusal) => refusal.number(),
            Refusal::OfBook(refusal) => refusal.number(),
            Refusal::OfWindow(refusal) => refusal.number(),
            Refusal::OfNotice(refusal) => refusal.number(),
            Refusal::OfQuestion(refusal) => refusal.number(),
            Refusal::OfSearch(refusal) => refusal.number(),
            Refusal::OfDetour(refusal) => refusal.number(),
        }
    }

    pub fn layer(&self) -> Layer
        ensures { result ≡ (told self.now).layer }
    {
        match self {
            Refusal::OfFile(_) => Layer::File,
            Refusal::OfTable(_) | Refusal::OfBook(_) => Layer::Table,
            Refusal::OfWindow(_) | Refusal::OfNotice(_) => Layer::Notice,
            Refusal::OfQuestion(_) => Layer::Question,
            Refusal::OfSearch(_) | Refusal::OfDetour(_) => Layer::Search,
        }
    }

    pub fn place(&self) -> Option<usize>
        ensures { result ≡ (told self.now).place }
    {
        match self {
            Refusal::OfFile(refusal) => refusal.place(),
            Refusal::OfTable(refusal) => refusal.place(),
            Refusal::OfBook(refusal) => refusal.place(),
            _ => None,
        }
    }
}

// Each layer has tables of its own for number and place: no two of them share a row, so none is written for all.
impl FileRefusal {
    fn number(&self) -> u8
        ensures { result ≡ (told (OfFile self.now)).number }
    {
        match self {
            FileRefusal::EndsEarly(_) => 1,
            FileRefusal::UnknownMark(_) => 2,
            FileRefusal::KindOutOfOrder(_) => 3,
            FileRefusal::ListFull(_) => 4,
            FileRefusal::BytesAfterEnd(_) => 5,
            FileRefusal::BufferTooShort => 6,
        }
    }

    fn place(&self) -> Option<usize>
        ensures { result ≡ (told (OfFile self.now)).place }
    {
        match self {
            FileRefusal::EndsEarly(place)
            | FileRefusal::UnknownMark(place)
            | FileRefusal::KindOutOfOrder(place)
            | FileRefusal::ListFull(place)
            | FileRefusal::BytesAfterEnd(place) => Some(*place),
            FileRefusal::BufferTooShort => None,
        }
    }
}

impl TableRefusal {
    fn number(&self) -> u8
        ensures { result ≡ (told (OfTable self.now)).number }
    {
        match self {
            TableRefusal::TooManyRecords => 10,
            TableRefusal::ConnectionStops(_) => 11,
            TableRefusal::ConnectionTimes(_) => 12,
            TableRefusal::ConnectionOrder(_) => 13,
            TableRefusal::ConnectionTrip(_) => 14,
            TableRefusal::FootpathStops(_) => 15,
            TableRefusal::FootpathDuration(_) => 16,
            TableRefusal::FootpathRepeated(_) => 17,
        }
    }

    fn place(&self) -> Option<usize>
        ensures { result ≡ (told (OfTable self.now)).place }
    {
        match self {
            TableRefusal::TooManyRecords => None,
            TableRefusal::ConnectionStops(place)
            | TableRefusal::ConnectionTimes(place)
            | TableRefusal::ConnectionOrder(place)
            | TableRefusal::ConnectionTrip(place)
            | TableRefusal::FootpathStops(place)
            | TableRefusal::FootpathDuration(place)
            | TableRefusal::FootpathRepeated(place) => Some(*place),
        }
    }
}

impl BookRefusal {
    fn number(&self) -> u8
        ensures { result ≡ (told (OfBook self.now)).number }
    {
        match self {
            BookRefusal::TooManyLines => 20,
            BookRefusal::LineStops(_) => 21,
            BookRefusal::LineInterval(_) => 22,
            BookRefusal::LineHours(_) => 23,
        }
    }

    fn place(&self) -> Option<usize>
        ensures { result ≡ (told (OfBook self.now)).place }
    {
        match self {
            BookRefusal::TooManyLines => None,
            BookRefusal::LineStops(place)
            | BookRefusal::LineInterval(place)
            | BookRefusal::LineHours(place) => Some(*place),
        }
    }
}

impl WindowRefusal {
    fn number(&self) -> u8
        ensures { result ≡ (told (OfWindow self.now)).number }
    {
        match self {
            WindowRefusal::TooManyWindows => 30,
            WindowRefusal::WindowEdge => 31,
            WindowRefusal::WindowSpan => 32,
        }
    }
}

impl NoticeRefusal {
    fn number(&self) -> u8
        ensures { result ≡ (told (OfNotice self.now)).number }
    {
        match self {
            NoticeRefusal::TooManyNotices => 33,
            NoticeRefusal::NoticeEdge => 34,
            NoticeRefusal::NoticeRepeated => 35,
            NoticeRefusal::NoticeTooLong => 36,
        }
    }
}

impl QuestionRefusal {
    fn number(&self) -> u8
        ensures { result ≡ (told (OfQuestion self.now)).number }
    {
        match self {
            QuestionRefusal::OriginIsDestination => 40,
            QuestionRefusal::LatestPastDay => 41,
            QuestionRefusal::StartAfterLatest => 42,
        }
    }
}

impl SearchRefusal {
    fn number(&self) -> u8
        ensures { result ≡ (told (OfSearch self.now)).number }
    {
        match self {
            SearchRefusal::TooManyEntries => 50,
            SearchRefusal::NoMore => 51,
            SearchRefusal::NotGiven => 52,
            SearchRefusal::NotSimple => 53,
            SearchRefusal::AlreadyListed => 54,
            SearchRefusal::SheetTooShort => 60,
        }
    }
}

impl DetourRefusal {
    fn number(&self) -> u8
        ensures { result ≡ (told (OfDetour self.now)).number }
    {
        match self {
            DetourRefusal::StopsUnfit => 71,
            DetourRefusal::InstantsUnfit => 72,
            DetourRefusal::NoDetour => 73,
        }
    }
}
