// The parts of a fresh book, from which `Engine::fresh` makes one.
ghost use Rattle.std.specs.Prelude.{◌≡◌, ◌≤◌, take};
ghost use Rattle.market.specs.Answers.{first_of};
ghost use Rattle.market.specs.Books.{every, no_path, no_bidder};
ghost use Rattle.market.specs.Fresh.{sound_route, fresh_refusals, fresh_path, fresh_paths, book_of};
ghost use Rattle.market.specs.Limits.{path_limit};

use crate::answer::Refusal;
use crate::book;
use crate::book::{Bidder, Book, Direction, Path, Route};
use crate::engine::Engine;
use crate::units::{Balance, Cents, Megawatts};

// Whether each of the first `count` routes leads to a zone.
fn sound_routes(routes: [Route; Engine::PATHS], count: usize) -> bool
    requires { count ≤ path_limit }
    ensures { result ≡ every sound_route (take count routes) }
{
    routes[..count]
        .iter()
        .all(|route| route.zone <= Engine::ZONE_LIMIT)
}

// Whether a fresh book is refused.
pub fn check(routes: [Route; Engine::PATHS], count: usize) -> Result<(), Refusal>
    ensures { result ≡ first_of (fresh_refusals routes count) }
{
    if !book::sound_path_count(count) {
        return Err(Refusal::Quantity);
    }
    if !sound_routes(routes, count) {
        return Err(Refusal::Quantity);
    }
    Ok(())
}

// An empty path, which fills the slots past the book's paths.
pub fn no_path() -> Path
    ensures { result ≡ no_path }
{
    Path {
        direction: Direction::Export,
        zone: 0,
        offer: Megawatts(0),
        sold: Megawatts(0),
    }
}

fn fresh_path(route: Route) -> Path
    ensures { result ≡ fresh_path route }
{
    let direction = route.direction;
    Path {
        direction,
        zone: route.zone,
        offer: Megawatts(0),
        sold: Megawatts(0),
    }
}

// The slots of a fresh book with the first `count` routes.
pub fn fresh_paths(routes: [Route; Engine::PATHS], count: usize) -> [Path; Engine::PATHS]
    requires { count ≤ path_limit }
    ensures { result ≡ fresh_paths routes count }
{
    let mut paths = [no_path(); Engine::PATHS];
    for i in 0..count {
        let path = fresh_path(routes[i]);
        paths[i] = path;
    }
    paths
}

fn no_bidder() -> Bidder
    ensures { result ≡ no_bidder }
{
    Bidder {
        cash: Cents(0),
        applied: Cents(0),
        letter: Cents(0),
        hold: Cents(0),
        owed: Cents(0),
        step: 0,
    }
}

// A book with these paths, everything else 0 and the stage idle.
pub fn book_of(paths: [Path; Engine::PATHS], count: usize) -> Book
    ensures { result ≡ book_of paths count }
{
    let bidders = [no_bidder(); Engine::BIDDERS];
    Book {
        paths,
        path_count: count,
        bidders,
        account: Balance(0),
        entries: 0,
        stage: Engine::idle(),
    }
}
