// Playing a source into a book: all of its leads, or none.
ghost use Rattle.books.specs.Playing.{Plays, PlaysMoves};
ghost use Rattle.std.specs.Prelude.{◌≡◌, take};

use crate::book::Book;
use crate::fault::PlayFault;
use sources::source::Source;

// Takes back leads until as many as this stand.
fn take_back_to<B: Book>(book: &mut B, stand: usize)
    ensures still { (B.Book.forms book.new ≡ B.Book.forms book.old) × (B.Book.limit book.new ≡ B.Book.limit book.old) }
    ensures leads { B.Book.leads book.new ≡ take stand (B.Book.leads book.old) }
    ensures law { B.Book.kept book.old → B.Book.kept book.new }
{
    for _ in stand..book.count() {
        let _ = book.take_back();
    }
}

// Rings each number of the source in turn, the source rewound before and after. At the first lead that is turned down the play's own leads go again, and the fault says which lead of the source it was.
pub fn play<B: Book, S: Source>(book: &mut B, source: &mut S) -> Result<usize, PlayFault>
    ensures still { (B.Book.forms book.new ≡ B.Book.forms book.old) × (B.Book.limit book.new ≡ B.Book.limit book.old) }
    ensures source { (S.Source.list source.new ≡ S.Source.list source.old) × (S.Source.given source.new ≡ 0) }
    ensures moves { PlaysMoves (B.Book.forms book.old) (B.Book.leads book.old) (S.Source.list source.old) result (B.Book.leads book.new) }
    ensures law { B.Book.kept book.old → B.Book.kept book.new × Plays (B.Book.forms book.old) (B.Book.limit book.old) (B.Book.leads book.old) (S.Source.list source.old) result }
{
    source.rewind();
    let stand = book.count();
    while let Some(number) = source.next() {
        if let Err(fault) = book.ring(number) {
            let lead = book.count() - stand;
            take_back_to(book, stand);
            source.rewind();
            return Err(PlayFault { lead, fault });
        }
    }
    source.rewind();
    Ok(book.count())
}
