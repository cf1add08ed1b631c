// One change to every element of a table.
ghost use Rattle.std.specs.Prelude.{◌≡◌, map};
ghost use Rattle.std.specs.List.{AllZip};
ghost use Rattle.board.specs.Meaning.{held_rank};

use grammar::strands::Rank;

// Changes each element in place: the loop by itself, which tells of each element what was made of it.
fn each_changed<T: Copy, F: Fn(T) -> T>(table: &mut [T], by: F)
    requires { F.IsAlwaysCallable by }
    ensures { AllZip (λ x y. F.post by x y) table.old table.new }
{
    for x in table {
        *x = by(*x);
    }
}

// Changes each element in place. A change that makes one value of each element is a map of the table.
pub fn change_each<T: Copy, F: Fn(T) -> T>(table: &mut [T], by: F)
    requires { F.IsAlwaysCallable by }
    ensures each { AllZip (λ x y. F.post by x y) table.old table.new }
    ensures made { (f : T → T) → ((x y : T) → F.post by x y → y ≡ f x) → table.new ≡ map f table.old }
{
    each_changed(table, by);
}

// A rank after a row or a column is opened at a place: from there on ranks move up one. The largest number stays. Ranks are
// held to one another by the numbers that the clause speaks of.
pub fn moved_up<R: Rank>(rank: R, place: R) -> R
    ensures { R.number result ≡ held_rank (R.number place) (R.number rank) }
{
    if place.number() <= rank.number() {
        R::from_number(rank.number().saturating_add(1))
    } else {
        rank
    }
}
