// Strands, their ranks and pairs of them. Strand, fore rank and back rank are types of their own, with no conversion
// between them: a book goes from one to another only by its order tables.
ghost use Rattle.std.specs.Prelude.{◌≡◌, ℕ};

// A strand by its number: 0 to 255 are the byte strands, and pairs go from 256 on in the order of joining.
#[derive(Clone, Copy, PartialEq, Eq, PartialOrd, Ord, Default, Debug)]
pub struct Strand(pub u16);

// How many strands stand before a strand in the fore order, which compares tapes. It names a column of the board.
#[derive(Clone, Copy, PartialEq, Eq, PartialOrd, Ord, Default, Debug)]
pub struct ForeRank(pub u16);

// How many strands stand before a strand in the back order, which compares tapes reversed. It names a row of the board.
#[derive(Clone, Copy, PartialEq, Eq, PartialOrd, Ord, Default, Debug)]
pub struct BackRank(pub u16);

// A rank in one of the two orders. What is the same for both orders is written once, over this trait, so that a fore rank
// and a back rank never meet. It is not `From`, by which one could turn into the other unseen, and the two types have an
// impl each, alike but for the type.
pub trait Rank: Copy {
    // how many strands stand before
    ghost number: { Self → ℕ };

    fn number(self) -> u16
        ensures { result ≡ number self };

    fn from_number(n: u16) -> Self
        ensures { number result ≡ n };
}

impl Rank for ForeRank {
    ghost number = { λ rank. rank.0 };

    fn number(self) -> u16 {
        let ForeRank(n) = self;
        n
    }

    fn from_number(n: u16) -> ForeRank {
        ForeRank(n)
    }
}

impl Rank for BackRank {
    ghost number = { λ rank. rank.0 };

    fn number(self) -> u16 {
        let BackRank(n) = self;
        n
    }

    fn from_number(n: u16) -> BackRank {
        BackRank(n)
    }
}

// The two older strands that a pair strand joins, end to end.
#[derive(Clone, Copy, PartialEq, Eq, Debug)]
pub struct Pair {
    pub left: Strand,
    pub right: Strand,
}
