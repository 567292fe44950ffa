// The routes and the quantities of a sheet's paths, slot by slot.
ghost use Rattle.std.specs.Prelude.{◌≡◌, map};
ghost use Rattle.market.specs.Books.{no_route};
ghost use Rattle.sheet_calls.specs.Calls.{route_of, quantities_of};

use market::book::{Direction, Route};
use market::engine::Engine;
use sheet_form::rows::PathLine;

// How many words the quantities of all slots take.
pub const QUANTITIES: usize = Engine::PATHS * Engine::QUANTITY_WORDS;

fn no_route() -> Route
    ensures { result ≡ no_route }
{
    Route {
        direction: Direction::Export,
        zone: 0,
    }
}

fn route_of(line: PathLine) -> Route
    ensures { result ≡ route_of line }
{
    let direction = line.direction;
    Route {
        direction,
        zone: line.zone,
    }
}

// The routes of the slots of paths.
pub fn routes(lines: [PathLine; Engine::PATHS]) -> [Route; Engine::PATHS]
    ensures { result ≡ map route_of lines }
{
    let mut routes = [no_route(); Engine::PATHS];
    for i in 0..Engine::PATHS {
        let route = route_of(lines[i]);
        routes[i] = route;
    }
    routes
}

// Base, FUL, A and B of each slot.
pub fn quantities(lines: [PathLine; Engine::PATHS]) -> [u32; QUANTITIES]
    ensures { result ≡ quantities_of lines }
{
    let mut words = [0u32; QUANTITIES];
    for i in 0..Engine::PATHS {
        let line = lines[i];
        let at = i * Engine::QUANTITY_WORDS;
        words[at] = line.base;
        words[at + 1] = line.upper;
        words[at + 2] = line.first;
        words[at + 3] = line.second;
    }
    words
}
