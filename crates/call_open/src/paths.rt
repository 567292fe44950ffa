// The paths of the book as open makes them: each with its offer, and nothing sold.
ghost use Rattle.std.specs.Prelude.{◌≡◌, ◌+◌, ◌*◌, ◌≤◌, length};
ghost use Rattle.market.specs.Limits.{quantity_words};
ghost use Rattle.register.specs.Refusals.{counted_entries, LentRegister};
ghost use Rattle.call_open_offers.specs.Offers.{auction_offer};
ghost use Rattle.call_open.specs.OpenedPaths.{quantities_at, words_needed, offering, opened_paths};

use call_open_offers::Quantities;
use market::book::{Book, Kind, Path, Period};
use market::engine::Engine;
use market::units::Megawatts;

// The four quantities of a path.
fn quantities_at(quantities: &[u32], i: usize) -> Quantities
    requires { (i + 1) * quantity_words ≤ length quantities.now }
    ensures { result ≡ quantities_at quantities.now i }
{
    let at = i * Engine::QUANTITY_WORDS;
    Quantities {
        base: Megawatts(quantities[at]),
        upper: Megawatts(quantities[at + 1]),
        first: Megawatts(quantities[at + 2]),
        second: Megawatts(quantities[at + 3]),
    }
}

// A path with its offer, where `out` is outstanding on it, and nothing sold.
fn opened_path(path: Path, kind: Kind, of: Quantities, out: Megawatts) -> Path
    ensures { result ≡ offering path (auction_offer kind of out.0) }
{
    Path {
        offer: call_open_offers::offer(kind, of, out),
        sold: Megawatts(0),
        ..path
    }
}

// The slots of the book with its paths opened. The register is read once for all of them.
pub fn opened_paths(
    book: Book,
    words: &[u32],
    kind: Kind,
    period: Period,
    quantities: &[u32],
) -> [Path; Engine::PATHS]
    requires lent_register { LentRegister book words.now }
    requires book_in_bounds { words_needed book ≤ length quantities.now }
    ensures { result ≡ opened_paths kind period (counted_entries book words.now) quantities.now book.paths book.path_count }
{
    let out = register_entries::outstanding(words, book.entries, book.path_count, period);
    let mut paths = book.paths;
    for i in 0..book.path_count {
        let of = quantities_at(quantities, i);
        paths[i] = opened_path(book.paths[i], kind, of, out[i]);
    }
    paths
}
