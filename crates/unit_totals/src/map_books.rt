// What a history puts into a map and takes out of it.
ghost use Rattle.unit_totals.specs.MapBooks.{BooksBalance};

/// After a history of a map whose replies follow, what is there and what was taken out is what was
/// there before and what was put in.
pub fn books_balance()
    ensures { BooksBalance }
{}
