// A law of the chained board's tables, as what a function ensures, so that the check asks for its proof.
ghost use Rattle.chained_board.specs.Laws.{CleanTables};

// What holds of the tables of every board can be met: there are tables of a clean board.
pub fn clean_tables_are_sound()
    ensures { CleanTables }
{}
