// A touch on a row book: opened on closed forms, and every call of a list answered.
ghost use Rattle.books.specs.Forms.{shapes};
ghost use Rattle.books.specs.Law.{plain, Lawful};
ghost use Rattle.books.specs.Opening.{Openable, RefusedFor};
ghost use Rattle.books.specs.Theorems.{VerdictsTrue, RingsTurned, PlaysTurned};
ghost use Rattle.std.specs.Prelude.{◌≡◌, min, false, map, length, take, drop, IfOk, MatchResult};

use crate::call::{Answer, Call};
use crate::fault::OpeningFault;
use crate::history::run;
use crate::row_book::state::RowBook;
use causes::Returned;
use forms::list::{Forms, ListState};
use registers::register::Register;
use rows::row::Row;
use sources::source::Source;
use std::alloc::Global;

// Opens a book, answers the calls in turn, as many as there is room for answers, and says how many it answered. What the answers are follows from the forms, the limit and the calls alone.
pub fn prove_rows<F: ListState, R: Register<Row> + Drop, S: Source>(
    heap: Global,
    forms: &Forms<F>,
    limit: usize,
    register: R,
    calls: &mut [Call<S>],
    answers: &mut [Answer],
) -> Result<usize, Returned<R, OpeningFault>>
    requires { F.ListState.open ≡ false }
    ensures opening { MatchResult result (λ n. (n ≡ min (length calls.old) (length answers.old)) × Openable forms.now.stage.bells limit (R.Register.shelf register)) (λ e. (e.value ≡ register) × RefusedFor forms.now.stage.bells limit (R.Register.shelf register) e.fault) }
    ensures calls { map (plain S.Source.list) calls.new ≡ map (plain S.Source.list) calls.old }
    ensures rest { MatchResult result (λ n. drop n answers.new ≡ drop n answers.old) (λ _. answers.new ≡ answers.old) }
    ensures law { IfOk result (λ n. Lawful (shapes forms.now.list.items) limit (take n (map (plain S.Source.list) calls.old)) (take n answers.new)) }
    ensures verdicts { IfOk result (λ n. VerdictsTrue (shapes forms.now.list.items) limit (take n (map (plain S.Source.list) calls.old)) (take n answers.new)) }
    ensures rings { IfOk result (λ n. RingsTurned (shapes forms.now.list.items) limit (take n (map (plain S.Source.list) calls.old)) (take n answers.new)) }
    ensures plays { IfOk result (λ n. PlaysTurned (shapes forms.now.list.items) limit (take n (map (plain S.Source.list) calls.old)) (take n answers.new)) }
{
    let mut book = RowBook::open(heap, forms, limit, register)?;
    Ok(run(&mut book, calls, answers))
}
