//! Which function answers which question.
use crate::earlier_solver::on_generated;
use crate::row::RouteRow;
use crate::small_problems::both_solvers;
use crate::words::named;
use crate::{claims, problems, reports, sharings, texts};
use test_rows::Exchange;

/// A question, by what it is about.
#[derive(Clone, Copy)]
enum Ask {
    Claim(claims::Ask),
    Problem(problems::Ask),
    Text(texts::Ask),
    Sharing(sharings::Ask),
    BothSolvers,
    Generated,
    SpreadSmall,
    SpreadGenerated,
    SpreadLarge,
    Report,
    Print,
    Read,
    Third,
    SciLine,
    AvoidLine,
    OptionLine,
}

/// The questions, by their first words.
const QUESTIONS: [(&str, Ask); 36] = [
    ("link", Ask::Claim(claims::Ask::Link)),
    ("links", Ask::Claim(claims::Ask::Links)),
    ("wired", Ask::Claim(claims::Ask::Wired)),
    ("sci", Ask::Claim(claims::Ask::Sci)),
    ("avoid", Ask::Claim(claims::Ask::Avoid)),
    ("give", Ask::Claim(claims::Ask::Give)),
    ("busiest", Ask::Claim(claims::Ask::Busiest)),
    ("bound", Ask::Claim(claims::Ask::Bound)),
    ("check", Ask::Claim(claims::Ask::Check)),
    ("claim", Ask::Claim(claims::Ask::Claim)),
    ("count", Ask::Claim(claims::Ask::Count)),
    ("taken-apart", Ask::Claim(claims::Ask::TakenApart)),
    ("fits", Ask::Problem(problems::Ask::Fits)),
    ("solve", Ask::Problem(problems::Ask::Solve)),
    ("search", Ask::Problem(problems::Ask::Search)),
    ("try", Ask::Problem(problems::Ask::Try)),
    ("bits", Ask::Problem(problems::Ask::Bits)),
    ("text", Ask::Text(texts::Ask::Text)),
    ("bytes", Ask::Text(texts::Ask::Bytes)),
    ("repeat", Ask::Text(texts::Ask::Repeat)),
    ("crowd", Ask::Text(texts::Ask::Crowd)),
    ("line", Ask::Text(texts::Ask::Line)),
    ("spread", Ask::Sharing(sharings::Ask::Spread)),
    ("least-shared", Ask::Sharing(sharings::Ask::LeastShared)),
    ("both-solvers", Ask::BothSolvers),
    ("generated", Ask::Generated),
    ("spread-small", Ask::SpreadSmall),
    ("spread-generated", Ask::SpreadGenerated),
    ("spread-large", Ask::SpreadLarge),
    ("report", Ask::Report),
    ("print", Ask::Print),
    ("read", Ask::Read),
    ("third", Ask::Third),
    ("sci-line", Ask::SciLine),
    ("avoid-line", Ask::AvoidLine),
    ("option-line", Ask::OptionLine),
];

/// Answers a question: its first word says which it is.
pub fn answer(row: &mut RouteRow, asked: &mut Exchange) {
    match named(asked, &QUESTIONS, Ask::Problem(problems::Ask::Fits)) {
        Ask::Claim(ask) => claims::answer(asked, &mut row.claim, ask),
        Ask::Problem(ask) => problems::answer(asked, &mut row.claim, ask),
        Ask::Text(ask) => texts::answer(asked, &mut row.text, ask),
        Ask::Sharing(ask) => sharings::answer(asked, &mut row.claim, ask),
        Ask::BothSolvers => both_solvers(asked),
        Ask::Generated => on_generated(asked),
        Ask::SpreadSmall => sharings::on_small(asked),
        Ask::SpreadGenerated => sharings::on_generated(asked),
        Ask::SpreadLarge => sharings::on_large(asked),
        Ask::Report => reports::add_line(asked, &mut row.report),
        Ask::Print => texts::print_report(asked, &mut row.text, &row.report),
        Ask::Read => texts::read_text(asked, &mut row.claim, row.text.as_slice()),
        Ask::Third => texts::read_third(asked, &mut row.claim),
        Ask::SciLine => texts::read_sci_line(asked, &mut row.claim),
        Ask::AvoidLine => texts::read_avoid_line(asked, &mut row.claim),
        Ask::OptionLine => texts::read_option_line(asked, &mut row.claim),
    }
}
