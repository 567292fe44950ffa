// The line of a fresh book: its routes, read into slots.
#![tactic(auto)]

ghost use Rattle.std.specs.Prelude.{◌≡◌, ◌+◌, ◌≤◌, length, drop};
ghost use Rattle.market.specs.Books.{no_route};
ghost use Rattle.journal_fresh_line.specs.FreshLines as rules;

use journal_fields::Found;
use market::book::{Direction, Route};
use market::engine::Engine;

// What a line says: whether its routes go on to its end, how many there are, and the first of them in their slots.
#[derive(Clone, Copy)]
pub struct FreshLine {
    pub present: bool,
    pub count: usize,
    pub routes: [Route; Engine::PATHS],
}

fn no_route() -> Route
    ensures { result ≡ no_route }
{
    Route {
        direction: Direction::Export,
        zone: 0,
    }
}

// The route at a place of a text.
#[tactic(auto, unfolding(crate::specs::FreshLines::route_at))]
fn route_at(text: &[u8], at: usize) -> Found<Route>
    requires { at ≤ length text.now }
    ensures route { result ≡ rules.route_at (drop at text.now) }
    ensures fits { at + result.used ≤ length text.now }
{
    let way = journal_fields::choice_at(
        text,
        at,
        b" X",
        Direction::Export,
        b" M",
        Direction::Import,
    );
    let zone = journal_fields::number_at(text, at + way.used, text_fields::WORD_TOP);
    if !((way.used != 0) & (zone.used != 0)) {
        return Found {
            value: no_route(),
            used: 0,
        };
    }
    Found {
        value: Route {
            direction: way.value,
            zone: zone.value as u32,
        },
        used: way.used + zone.used,
    }
}

// What the text after the word of a fresh book says.
pub fn fresh_said(text: &[u8]) -> FreshLine
    ensures { result ≡ rules.fresh_said text.now }
{
    let mut routes = [no_route(); Engine::PATHS];
    let mut count: usize = 0;
    let mut place: usize = 0;
    let mut next = route_at(text, 0);
    while next.used != 0 {
        if count < Engine::PATHS {
            routes[count] = next.value;
        }
        count += 1;
        place += next.used;
        next = route_at(text, place);
    }
    FreshLine {
        present: place == text.len(),
        count,
        routes,
    }
}
