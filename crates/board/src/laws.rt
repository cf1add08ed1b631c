// The laws of a board's meaning, each as what a function ensures, so that the check asks for its proof.
ghost use Rattle.board.specs.Laws.{CleanHasNoPoint, CleanIsProper, CallsKeepProper, CallsKeepPoints, CallsKeepCapacity, RefusalsChangeNothing, WideningKeepsCount, PutCountsOneMore, WidenThenPut, OpenedAreEmpty, FirstAfterWiden, FirstAfterPut, FirstIsUnique, FirstThenTheRest, EqualMeaningsRunAlike};

// A clean board has no point; no call takes a point away, leaves one off the board or goes past a limit.
pub fn boards_stay_proper()
    ensures empty { CleanHasNoPoint }
    ensures points { CallsKeepPoints }
    ensures clean { CleanIsProper }
    ensures calls { CallsKeepProper }
{}

// A refusal changes nothing, no call changes the capacity, and only an accepted put changes the number of points.
pub fn calls_change_what_they_say()
    ensures refusals { RefusalsChangeNothing }
    ensures capacity { CallsKeepCapacity }
    ensures widening { WideningKeepsCount }
    ensures put { PutCountsOneMore }
{}

// Opening a row and a column, and putting a point after it: what is accepted, and where every point then stands.
pub fn a_point_fits_after_widening()
    ensures put { WidenThenPut }
    ensures empty { OpenedAreEmpty }
{}

// What the smallest label inside a rectangle is, after a widening, after a point more, and one after another.
pub fn first_goes_with_the_points()
    ensures widening { FirstAfterWiden }
    ensures put { FirstAfterPut }
    ensures unique { FirstIsUnique }
    ensures rest { FirstThenTheRest }
{}

// What a board means decides every answer to every list of calls.
pub fn equal_meanings_answer_alike()
    ensures { EqualMeaningsRunAlike }
{}
