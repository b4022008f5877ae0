// Whole histories: a list of calls on one book, and the answer to each.
ghost use Rattle.std.specs.Prelude.{◌≡◌, min, [], map, length, take, drop};
ghost use Rattle.books.specs.Law.{plain, after, Gives, Lawful, standing};
ghost use Rattle.books.specs.Theorems.{Sound, VerdictsTrue, RingsTurned, PlaysTurned};

use crate::book::Book;
use crate::call::{Answer, Call, Reply};
use crate::play::play;
use sources::source::Source;

// The answer to one call.
pub fn answer<B: Book, S: Source>(book: &mut B, call: &mut Call<S>) -> Answer
    ensures still { (B.Book.forms book.new ≡ B.Book.forms book.old) × (B.Book.limit book.new ≡ B.Book.limit book.old) }
    ensures call { plain S.Source.list call.new ≡ plain S.Source.list call.old }
    ensures law { B.Book.kept book.old → B.Book.kept book.new × (B.Book.leads book.new ≡ after (B.Book.forms book.old) (B.Book.limit book.old) (B.Book.leads book.old) (plain S.Source.list call.old)) × Gives (B.Book.forms book.old) (B.Book.limit book.old) (B.Book.leads book.old) (plain S.Source.list call.old) result }
{
    match call {
        Call::Ring(form) => Ok(Reply::Stands(book.ring(*form)?)),
        Call::Play(source) => Ok(Reply::Stands(play(book, source)?)),
        Call::TakeBack => Ok(Reply::Form(book.take_back()?)),
        Call::Verdict(claimed) => Ok(Reply::True(book.verdict(*claimed)?)),
    }
}

// Answers the calls in turn, as many as there is room for the answers.
pub fn run<B: Book, S: Source>(book: &mut B, calls: &mut [Call<S>], answers: &mut [Answer]) -> usize
    ensures number { result ≡ min (length calls.old) (length answers.old) }
    ensures still { (B.Book.forms book.new ≡ B.Book.forms book.old) × (B.Book.limit book.new ≡ B.Book.limit book.old) }
    ensures calls { map (plain S.Source.list) calls.new ≡ map (plain S.Source.list) calls.old }
    ensures rest { drop result answers.new ≡ drop result answers.old }
    ensures law { B.Book.kept book.old → B.Book.leads book.old ≡ [] → Sound (B.Book.forms book.old) → B.Book.kept book.new × (B.Book.leads book.new ≡ standing (B.Book.forms book.old) (B.Book.limit book.old) (take result (map (plain S.Source.list) calls.old))) × Lawful (B.Book.forms book.old) (B.Book.limit book.old) (take result (map (plain S.Source.list) calls.old)) (take result answers.new) }
    ensures verdicts { B.Book.kept book.old → B.Book.leads book.old ≡ [] → Sound (B.Book.forms book.old) → VerdictsTrue (B.Book.forms book.old) (B.Book.limit book.old) (take result (map (plain S.Source.list) calls.old)) (take result answers.new) }
    ensures rings { B.Book.kept book.old → B.Book.leads book.old ≡ [] → Sound (B.Book.forms book.old) → RingsTurned (B.Book.forms book.old) (B.Book.limit book.old) (take result (map (plain S.Source.list) calls.old)) (take result answers.new) }
    ensures plays { B.Book.kept book.old → B.Book.leads book.old ≡ [] → Sound (B.Book.forms book.old) → PlaysTurned (B.Book.forms book.old) (B.Book.limit book.old) (take result (map (plain S.Source.list) calls.old)) (take result answers.new) }
{
    let number = calls.len().min(answers.len());
    // behind a zip with `iter_mut` nothing is known of what was written, so the answers go by place
    for (i, call) in calls[..number].iter_mut().enumerate() {
        answers[i] = answer(book, call);
    }
    number
}
