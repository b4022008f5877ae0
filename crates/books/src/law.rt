// The law of the books, as theorems over its definitions.
ghost use Rattle.books.specs.Theorems.{LawOfBooks, WhichStand, Pigeonhole};

pub fn law_of_books_holds()
    ensures { LawOfBooks × WhichStand × Pigeonhole }
{}
