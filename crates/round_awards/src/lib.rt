// What the laminations of a round take in their order, and what that comes to for each bid and path.
#![tactic(auto)]

ghost use Rattle.std.specs.Prelude.{◌≡◌, true, cond, ◌≤◌, min, ltb, length};
ghost use Rattle.market.specs.Books.{every, in_cents, in_megawatts};
ghost use Rattle.market.specs.Limits.{bid_limit, scratch_words};
ghost use Rattle.market.specs.Sound.{sound_quantity};
ghost use Rattle.round_award_rules.specs.Awards.{in_order, lower, walk, awards_of};
ghost use Rattle.round_bids.specs.BidRefusals.{BidList};
ghost use Rattle.round_bids.specs.Bids.{bids_of};
ghost use Rattle.round_order.specs.Tree.{claims_left, Tree};
ghost use Rattle.round_awards.specs.Tables.{won_table, sold_table, price_table};

use market::engine::Engine;
use market::units::{Cents, Megawatts};

// The MW that each bid won, the MW sold of each path, and its clearing price, 0 where there is none.
#[derive(Clone, Copy)]
pub struct Awarded {
    pub won: [Megawatts; Engine::BIDS],
    pub sold: [Megawatts; Engine::PATHS],
    pub prices: [Cents; Engine::PATHS],
}

// What a lamination takes of what is left of its path.
fn taken_of(quantity: Megawatts, left: Megawatts) -> Megawatts
    ensures { result.0 ≡ min quantity.0 left.0 }
{
    quantity.min(left)
}

// The lower of two prices, where 0 stands for none.
fn lower_of(price: Cents, other: Cents) -> Cents
    ensures { result.0 ≡ lower price.0 other.0 }
{
    match (price.0, other.0) {
        (0, _) => other,
        (_, 0) => price,
        _ => price.min(other),
    }
}

// The price at which a lamination took MW, 0 where it took none.
fn price_at(taken: Megawatts, price: Cents) -> Cents
    ensures { result.0 ≡ cond (ltb 0 taken.0) price.0 0 }
{
    if 0 < taken.0 {
        return price;
    }
    Cents(0)
}

// The awards of the laminations in a tree, in order; `first` has the one that comes first. `offered` has what the round offers of
// each path, and `left` what is left of it.
fn award(
    words: &[u32],
    count: usize,
    first: u32,
    offered: [Megawatts; Engine::PATHS],
    tree: &mut [u32],
) -> Awarded
    requires tree { Tree words.now count tree.old first }
    requires tree_len_bound { length (in_order (claims_left words.now count tree.old)) ≤ scratch_words }
    requires offered_value { every sound_quantity (in_megawatts offered) ≡ true }
    ensures won { in_megawatts result.won
        ≡ won_table (walk (in_megawatts offered) (in_order (claims_left words.now count tree.old))) }
    ensures sold { in_megawatts result.sold
        ≡ sold_table (walk (in_megawatts offered) (in_order (claims_left words.now count tree.old))) }
    ensures prices { in_cents result.prices
        ≡ price_table (walk (in_megawatts offered) (in_order (claims_left words.now count tree.old))) }
{
    let mut left = offered;
    let mut won = [Megawatts(0); Engine::BIDS];
    let mut sold = [Megawatts(0); Engine::PATHS];
    let mut prices = [Cents(0); Engine::PATHS];
    let mut word = first;
    while word != 0 {
        let claim = round_claims::claim_in(words, word);
        let path = claim.path;
        let taken = taken_of(claim.quantity, left[path]);
        left[path].0 -= taken.0;
        won[claim.bid].0 += taken.0;
        sold[path].0 += taken.0;
        prices[path] = lower_of(prices[path], price_at(taken, claim.price));
        word = round_order::next(words, count, word, tree);
    }
    Awarded { won, sold, prices }
}

// The awards of a list of bids with these marks, ordered in the scratch that is lent.
pub fn award_bids(
    words: &[u32],
    marks: &[u32],
    count: usize,
    offered: [Megawatts; Engine::PATHS],
    scratch: &mut [u32],
) -> Awarded
    requires bid_list { BidList words.now }
    requires count_value { count ≡ length (bids_of words.now) }
    requires bid_limit_in_bounds { bid_limit ≤ length marks.now }
    requires offered_value { every sound_quantity (in_megawatts offered) ≡ true }
    requires scratch_words_in_bounds { scratch_words ≤ length scratch.old }
    ensures won { in_megawatts result.won ≡ won_table (awards_of (in_megawatts offered) (bids_of words.now) marks.now) }
    ensures sold { in_megawatts result.sold ≡ sold_table (awards_of (in_megawatts offered) (bids_of words.now) marks.now) }
    ensures prices { in_cents result.prices ≡ price_table (awards_of (in_megawatts offered) (bids_of words.now) marks.now) }
    ensures scratch { length scratch.new ≡ length scratch.old }
{
    let first = round_order::start(words, marks, count, scratch);
    award(words, count, first, offered, scratch)
}
