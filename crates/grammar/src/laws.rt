// The laws of the definitions, each as what a function ensures, so that the check asks for its proof.
ghost use Rattle.grammar.specs.Examples.{Rows};
ghost use Rattle.grammar.specs.Laws.{ByteTapes, PairTapes, OlderTapesStay, FirstDifferenceDecides, BeginningComesFirst, EqualsStandByNumber, OrdersAreTotal, PlacesAreAll, PlacesAreUnique};

// A byte strand stands for its byte, a pair for its left part followed by its right, and joining leaves older tapes alone.
pub fn a_pair_is_its_parts_joined()
    ensures bytes { ByteTapes }
    ensures pairs { PairTapes }
    ensures older { OlderTapesStay }
{}

// The first difference decides; where there is none, the shorter tape comes first, and equals stand by number.
pub fn the_first_difference_decides()
    ensures difference { FirstDifferenceDecides }
    ensures beginning { BeginningComesFirst }
    ensures equals { EqualsStandByNumber }
{}

// Neither order puts a strand before itself, leaves two undecided or goes in a circle.
pub fn both_orders_are_strict_and_total()
    ensures { OrdersAreTotal }
{}

// The list of places rises, holds nothing else and leaves nothing out, and no other list does.
pub fn places_rise_and_are_complete()
    ensures complete { PlacesAreAll }
    ensures unique { PlacesAreUnique }
{}

// The definitions give what was worked out by hand.
pub fn worked_examples_hold()
    ensures { Rows }
{}
