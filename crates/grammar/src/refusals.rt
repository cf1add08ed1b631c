// Why a call declines: one enum for all layers.
ghost use Rattle.std.specs.Prelude.{◌≡◌};
ghost use Rattle.grammar.specs.Refusals.{number_of, layer_of, layer_number, place_of};

// The part of the program that declines, with its number.
#[derive(Clone, Copy, PartialEq, Eq, Debug)]
pub enum Layer {
    Board = 0,
    Book = 1,
    File = 2,
    Console = 3,
}

impl Layer {
    pub fn number(self) -> u8
        ensures { result ≡ layer_number self }
    {
        self as u8
    }
}

// A refusal tells its number, its layer and a place; a case that holds no place stands for place 0.
#[derive(Clone, Copy, PartialEq, Eq, Debug)]
pub enum Refusal {
    // a row or a column off the board
    OffBoard,
    // a label above the limit, or one that stands already
    LabelTaken,
    // the board has as many points as its capacity
    BoardFull,
    // the board has as many rows or columns as there can be
    BoardAtLimit,
    // the book was born on a board that was not clean
    BookDead,
    // a hunt is open
    HuntOpen,
    // a strand that is not in the book; at join the place is 0 for the left part and 1 for the right
    NoStrand { place: usize },
    // the book has as many strands as there can be
    BookFull,
    // a tape above the limit
    TapeTooLong,
    // no hunt is open
    NoHunt,
    // every place was given
    Spent,
    // the place and the length exceed the tape
    PastTape,
    // the caller's buffer, totals or line list is too small
    TooSmall,
    // a pattern of no bytes, or of too many
    BadPattern,
    // the book has a pair strand or a hunt already
    NotNewborn,
    // the file ends too early, at this byte count
    FileShort { place: usize },
    // the file's header is wrong, at this offset
    BadHeader { place: usize },
    // a line that does not rise, names no strand or has another length, at this offset or index
    BadLine { place: usize },
    // a command that cannot be read, at this offset
    BadCommand { place: usize },
}

impl Refusal {
    // The number that users see, written out: a case that holds a place cannot have one in the enum.
    pub fn number(self) -> u8
        ensures { result ≡ number_of self }
    {
        match self {
            Refusal::OffBoard => 1,
            Refusal::LabelTaken => 2,
            Refusal::BoardFull => 3,
            Refusal::BoardAtLimit => 4,
            Refusal::BookDead => 5,
            Refusal::HuntOpen => 6,
            Refusal::NoStrand { .. } => 7,
            Refusal::BookFull => 8,
            Refusal::TapeTooLong => 9,
            Refusal::NoHunt => 10,
            Refusal::Spent => 11,
            Refusal::PastTape => 12,
            Refusal::TooSmall => 13,
            Refusal::BadPattern => 14,
            Refusal::NotNewborn => 15,
            Refusal::FileShort { .. } => 16,
            Refusal::BadHeader { .. } => 17,
            Refusal::BadLine { .. } => 18,
            Refusal::BadCommand { .. } => 19,
        }
    }

    pub fn layer(self) -> Layer
        ensures { result ≡ layer_of self }
    {
        match self {
            Refusal::OffBoard | Refusal::LabelTaken | Refusal::BoardFull | Refusal::BoardAtLimit =>
                Layer::Board,
            Refusal::BookDead
            | Refusal::HuntOpen
            | Refusal::NoStrand { .. }
            | Refusal::BookFull
            | Refusal::TapeTooLong
            | Refusal::NoHunt
            | Refusal::Spent
            | Refusal::PastTape
            | Refusal::TooSmall
            | Refusal::BadPattern => Layer::Book,
            Refusal::NotNewborn
            | Refusal::FileShort { .. }
            | Refusal::BadHeader { .. }
            | Refusal::BadLine { .. } => Layer::File,
            Refusal::BadCommand { .. } => Layer::Console,
        }
    }

    pub fn place(self) -> usize
        ensures { result ≡ place_of self }
    {
        match self {
            Refusal::NoStrand { place }
            | Refusal::FileShort { place }
            | Refusal::BadHeader { place }
            | Refusal::BadLine { place }
            | Refusal::BadCommand { place } => place,
            _ => 0,
        }
    }
}
