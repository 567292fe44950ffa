// The calls of a sheet before its first round: fresh book, deposits, open; and the numbers of its bidders.
#![tactic(auto)]

mod deposits;
mod slots;

ghost use Rattle.std.specs.Prelude.{◌≡◌, true, map, ◌≤◌, take};
ghost use Rattle.market.specs.Books.{every};
ghost use Rattle.market.specs.Limits.{path_limit};
ghost use Rattle.sheet_calls.specs.CallSlots.{is_listed, open_with, opened_slots};

use market::answer::Outcome;
use market::book::{Book, Kind, Period};
use market::engine::Engine;
use sheet_form::rows::{BidderLine, BidderRows, PathRows};

// Open with an empty register and the quantities of as many paths as are counted.
fn open_with(book: Book, kind: Kind, period: Period, paths: PathRows) -> Outcome
    requires { paths.count ≤ path_limit }
    ensures { result ≡ open_with book kind period paths }
{
    let words = [0u32; Engine::REGISTER_WORDS];
    let lines = paths.lines;
    let all = slots::quantities(lines);
    let counted = paths.count * Engine::QUANTITY_WORDS;
    call_open::open(book, &words, kind, period, &all[..counted])
}

// The calls up to open; the first that is refused is the last (rule 14.7).
pub fn opened(kind: Kind, period: Period, bidders: BidderRows, paths: PathRows) -> Outcome
    requires { every is_listed bidders.lines ≡ true }
    ensures { result ≡ opened_slots kind period (take bidders.count bidders.lines) paths }
{
    let lines = paths.lines;
    let made = Engine::fresh(slots::routes(lines), paths.count);
    if made.answer.is_err() {
        return made;
    }
    let funded = deposits::deposits(made.book, bidders);
    if funded.answer.is_err() {
        return funded;
    }
    open_with(funded.book, kind, period, paths)
}

// The numbers of a sheet's bidders, slot by slot.
pub fn numbers(lines: [BidderLine; Engine::BIDDERS]) -> [u32; Engine::BIDDERS]
    requires { every is_listed lines ≡ true }
    ensures { result ≡ map (λ x. x.bidder) lines }
{
    let mut numbers = [0u32; Engine::BIDDERS];
    for i in 0..Engine::BIDDERS {
        let number = lines[i].bidder as u32;
        numbers[i] = number;
    }
    numbers
}
