// The boundary cases of disburse and recover. A line has the case, the account, the total, the refusal's number (0 where the
// call is answered), the account then, and the list of shares, whose words are all 9 before the call.
ghost use Rattle.std.specs.Prelude.{◌<◌, ◌≤◌};

use case_tools::report;
use market::answer::Outcome;
use market::book::{Book, Direction, Kind, Period, Route, Stage};
use market::engine::Engine;
use market::units::{Balance, Cents, Day};
use std::io;

// Two words more than there are participants.
const WORDS: usize = 34;

const LIMIT: u64 = Engine::POOL_LIMIT;

const RESERVE: i64 = 2_000_000_000;

const COLUMN: u32 = 100_000_000;

const LARGEST: u32 = 4_294_967_295;

// The charges of a pool, and the energy that it is shared by.
#[derive(Clone, Copy)]
struct Pool {
    charges: [u32; WORDS],
    energy: [u32; WORDS],
}

impl Pool {
    // The pool with a charge and energy of one participant.
    fn with(self, who: usize, charge: u32, energy: u32) -> Pool
        requires { who < 34 }
    {
        let mut next = self;
        next.charges[who] = charge;
        next.energy[who] = energy;
        next
    }
}

// The lists of both pools: provincial charges with energy at meters, and export charges with energy at interties.
#[derive(Clone, Copy)]
struct Lists {
    provincial: Pool,
    export: Pool,
}

// The same charges and the same energy for everybody.
fn filled(charge: u32, energy: u32) -> Lists {
    let pool = Pool {
        charges: [charge; WORDS],
        energy: [energy; WORDS],
    };
    Lists {
        provincial: pool,
        export: pool,
    }
}

// The lists with a provincial charge and energy at meters of one participant.
fn at_meters(given: Lists, who: usize, charge: u32, energy: u32) -> Lists
    requires { who < 34 }
{
    Lists {
        provincial: given.provincial.with(who, charge, energy),
        ..given
    }
}

// The lists with an export charge and energy at interties of one participant.
fn at_interties(given: Lists, who: usize, charge: u32, energy: u32) -> Lists
    requires { who < 34 }
{
    Lists {
        export: given.export.with(who, charge, energy),
        ..given
    }
}

// The four columns that a call is lent.
#[derive(Clone, Copy)]
struct Lent<'a> {
    provincial: &'a [u32],
    export: &'a [u32],
    meters: &'a [u32],
    interties: &'a [u32],
}

// The columns, cut to lengths.
fn cut(given: &Lists, provincial: usize, export: usize, meters: usize, interties: usize) -> Lent<'_>
    requires provincial_in_bounds { provincial ≤ 34 }
    requires export_in_bounds { export ≤ 34 }
    requires meters_in_bounds { meters ≤ 34 }
    requires interties_in_bounds { interties ≤ 34 }
{
    Lent {
        provincial: &given.provincial.charges[..provincial],
        export: &given.export.charges[..export],
        meters: &given.provincial.energy[..meters],
        interties: &given.export.energy[..interties],
    }
}

// The whole columns, and as many words as there are participants.
fn whole(given: &Lists) -> Lent<'_> {
    cut(given, WORDS, WORDS, WORDS, WORDS)
}

fn enough(given: &Lists) -> Lent<'_> {
    cut(given, 32, 32, 32, 32)
}

fn book_with(account: i64) -> Book {
    let routes = [Route {
        direction: Direction::Export,
        zone: 15,
    }; Engine::PATHS];
    Book {
        account: Balance(account),
        ..Engine::fresh(routes, 2).book
    }
}

// Either call, over these columns and shares: its line.
fn share<F: FnOnce(Book, Cents, &[u32], &[u32], &[u32], &[u32], &mut [u64]) -> Outcome>(
    rt: &impl Print,
    name: &str,
    book: Book,
    total: u64,
    lent: Lent<'_>,
    shares: &mut [u64],
    call: F,
) -> io::Result<()>
    requires { F.IsAlwaysCallable call }
{
    print!(rt; "{name}")?;
    report::signed(rt, book.account)?;
    print!(rt; " {total}:")?;
    let outcome = call(
        book,
        Cents(total),
        lent.provincial,
        lent.export,
        lent.meters,
        lent.interties,
        shares,
    );
    report::answer(rt, outcome)?;
    report::signed(rt, outcome.book.account)?;
    print!(rt; " |")?;
    report::numbers(rt, shares)?;
    report::line(rt)
}

fn disburse(rt: &impl Print, account: i64, total: u64, lent: Lists) -> io::Result<()> {
    let mut shares = [9; WORDS];
    share(
        rt,
        "disburse",
        book_with(account),
        total,
        whole(&lent),
        &mut shares,
        call_disburse::disburse,
    )
}

fn recover(rt: &impl Print, account: i64, total: u64, lent: Lists) -> io::Result<()> {
    let mut shares = [9; WORDS];
    share(
        rt,
        "recover",
        book_with(account),
        total,
        whole(&lent),
        &mut shares,
        call_disburse::recover,
    )
}

fn heading(rt: &impl Print, name: &[u8]) -> io::Result<()> {
    report::text(rt, name)?;
    report::line(rt)
}

// The starred case of `promise_cases`: participants 0 and 1 pay a provincial charge of 1 each, for 1 and 3 MWh, and participant 2 an export charge of 1, for 5.
fn three() -> Lists {
    let one = at_meters(filled(0, 0), 0, 1, 1);
    let two = at_meters(one, 1, 1, 3);
    at_interties(two, 2, 1, 5)
}

fn starred_case(rt: &impl Print) -> io::Result<()> {
    heading(
        rt,
        b"- the starred case; the reserve exactly, and a cent less",
    )?;
    let lent = three();
    disburse(rt, RESERVE + 1000, 1000, lent)?;
    disburse(rt, RESERVE + 999, 1000, lent)?;
    disburse(rt, RESERVE, 1, lent)?;
    disburse(rt, 0, 1000, lent)?;
    disburse(rt, -1000, 1000, lent)
}

// Three participants with equal energy, and one with half as much.
fn equal_remainders() -> Lists {
    let one = at_meters(filled(0, 0), 3, 7, 2);
    let two = at_meters(one, 4, 8, 2);
    let third = at_meters(two, 30, 9, 1);
    at_meters(third, 31, 9, 2)
}

fn tie_cases(rt: &impl Print) -> io::Result<()> {
    heading(rt, b"- ties of remainders")?;
    let lent = equal_remainders();
    disburse(rt, 5_000_000_000, 1, lent)?;
    disburse(rt, 5_000_000_000, 2, lent)?;
    disburse(rt, 5_000_000_000, 3, lent)?;
    disburse(rt, 5_000_000_000, 4, lent)?;
    disburse(rt, 5_000_000_000, 100, lent)
}

fn one_cases(rt: &impl Print) -> io::Result<()> {
    heading(rt, b"- one participant")?;
    let one = at_meters(filled(0, 0), 31, 1, 1);
    disburse(rt, 5_000_000_000, 12_345, one)?;
    disburse(rt, 5_000_000_000, 12_345, at_interties(one, 31, 1, 1))?;
    disburse(rt, 5_000_000_000, 1, at_interties(filled(0, 0), 0, 1, 1))
}

fn all_cases(rt: &impl Print) -> io::Result<()> {
    heading(rt, b"- thirty-two equal ones, in both pools")?;
    let all = filled(1, 1);
    disburse(rt, 5_000_000_000, 1, all)?;
    disburse(rt, 5_000_000_000, 2, all)?;
    disburse(rt, 5_000_000_000, 100, all)?;
    disburse(rt, 5_000_000_000, 640, all)
}

fn disburse_totals(rt: &impl Print) -> io::Result<()> {
    heading(rt, b"- totals: 0, 1, the limit, more")?;
    let lent = three();
    disburse(rt, Engine::ACCOUNT_LIMIT, 0, lent)?;
    disburse(rt, Engine::ACCOUNT_LIMIT, 1, lent)?;
    disburse(rt, Engine::ACCOUNT_LIMIT, LIMIT, lent)?;
    disburse(rt, Engine::ACCOUNT_LIMIT, LIMIT + 1, lent)?;
    disburse(rt, Engine::ACCOUNT_LIMIT, 18_446_744_073_709_551_615, lent)
}

fn recover_totals(rt: &impl Print) -> io::Result<()> {
    let lent = three();
    recover(rt, Engine::ACCOUNT_FLOOR, 0, lent)?;
    recover(rt, Engine::ACCOUNT_FLOOR, 1, lent)?;
    recover(rt, Engine::ACCOUNT_FLOOR, LIMIT, lent)?;
    recover(rt, Engine::ACCOUNT_FLOOR, LIMIT + 1, lent)?;
    recover(rt, Engine::ACCOUNT_FLOOR, 18_446_744_073_709_551_615, lent)
}

fn recover_cases(rt: &impl Print) -> io::Result<()> {
    heading(rt, b"- the shortfall exactly, and a cent more")?;
    let lent = three();
    recover(rt, -1000, 1000, lent)?;
    recover(rt, -1000, 1001, lent)?;
    recover(rt, -1000, 1, lent)?;
    recover(rt, -1, 1, lent)?;
    recover(rt, 0, 1, lent)?;
    recover(rt, 1, 1, lent)?;
    recover(rt, Engine::ACCOUNT_LIMIT, 1, lent)
}

// Charges that add up to 10^8, and one more.
fn charge_limits(rt: &impl Print) -> io::Result<()> {
    heading(rt, b"- column totals of 10^8, and one more")?;
    let rich = Engine::ACCOUNT_LIMIT;
    let charged = at_interties(at_meters(filled(0, 0), 0, COLUMN, 1), 1, COLUMN, 1);
    disburse(rt, rich, LIMIT, charged)?;
    disburse(rt, rich, LIMIT, at_meters(charged, 2, 1, 1))?;
    disburse(rt, rich, LIMIT, at_interties(charged, 2, 1, 1))
}

// Energy that adds up to 10^8, and one more.
fn energy_limits(rt: &impl Print) -> io::Result<()> {
    let rich = Engine::ACCOUNT_LIMIT;
    let weighed = at_meters(at_meters(filled(0, 0), 0, 1, COLUMN - 1), 1, 1, 1);
    disburse(rt, rich, LIMIT, weighed)?;
    disburse(rt, rich, LIMIT, at_meters(weighed, 2, 1, 1))?;
    let traded = at_interties(at_interties(filled(0, 0), 0, 1, COLUMN - 1), 1, 1, 1);
    disburse(rt, rich, LIMIT, traded)?;
    disburse(rt, rich, LIMIT, at_interties(traded, 2, 1, 1))
}

fn idle_energy(rt: &impl Print) -> io::Result<()> {
    heading(
        rt,
        b"- energy with no charge counts towards its total alone",
    )?;
    let rich = Engine::ACCOUNT_LIMIT;
    let idle = at_meters(at_meters(filled(0, 0), 0, 1, 1), 1, 0, COLUMN - 1);
    disburse(rt, rich, 100, idle)?;
    disburse(rt, rich, 100, at_meters(idle, 2, 0, 1))?;
    disburse(rt, rich, 100, at_interties(idle, 2, 0, COLUMN))?;
    disburse(rt, rich, 100, at_interties(idle, 2, 0, COLUMN + 1))
}

fn word_cases(rt: &impl Print) -> io::Result<()> {
    heading(
        rt,
        b"- words of 2^32-1; past the participants they are no part of a column",
    )?;
    let rich = Engine::ACCOUNT_LIMIT;
    disburse(rt, rich, 100, filled(LARGEST, LARGEST))?;
    disburse(rt, rich, 100, filled(LARGEST, 1))?;
    disburse(rt, rich, 100, filled(1, LARGEST))?;
    let past = at_meters(three(), 32, LARGEST, LARGEST);
    disburse(rt, rich, 1000, at_interties(past, 33, LARGEST, LARGEST))
}

fn energy_cases(rt: &impl Print) -> io::Result<()> {
    heading(
        rt,
        b"- no charge at all; a pool with no eligible energy; an empty provincial pool needs none",
    )?;
    let rich = Engine::ACCOUNT_LIMIT;
    disburse(rt, rich, 100, filled(0, 1))?;
    disburse(rt, rich, 100, filled(1, 0))?;
    let traded = at_interties(filled(0, 0), 1, 1, 4);
    disburse(rt, rich, 1, at_meters(traded, 0, 1, 0))?;
    disburse(rt, rich, 2, at_meters(traded, 0, 1, 0))?;
    let metered = at_meters(filled(0, 0), 0, 1, 4);
    disburse(rt, rich, 1, at_interties(metered, 1, 1, 0))?;
    disburse(rt, rich, 100, at_interties(metered, 1, 0, 4))?;
    recover(rt, Engine::ACCOUNT_FLOOR, 1, at_interties(metered, 1, 1, 0))
}

// Disburses by lists of any length into a list of 32 words.
fn disburse_by(rt: &impl Print, account: i64, total: u64, lent: Lent<'_>) -> io::Result<()> {
    let mut shares = [9; 32];
    share(
        rt,
        "disburse",
        book_with(account),
        total,
        lent,
        &mut shares,
        call_disburse::disburse,
    )
}

// Each list in turn with 31 words among lists of 32, and then none.
fn short_cases(rt: &impl Print, account: i64, total: u64) -> io::Result<()> {
    let ones = filled(1, 1);
    disburse_by(rt, account, total, cut(&ones, 31, 32, 32, 32))?;
    disburse_by(rt, account, total, cut(&ones, 32, 31, 32, 32))?;
    disburse_by(rt, account, total, cut(&ones, 32, 32, 31, 32))?;
    disburse_by(rt, account, total, cut(&ones, 32, 32, 32, 31))?;
    disburse_by(rt, account, total, enough(&ones))
}

// A list of 31 words for the shares.
fn short_shares(rt: &impl Print, account: i64, total: u64) -> io::Result<()> {
    let ones = filled(1, 1);
    let all = enough(&ones);
    let book = book_with(account);
    let mut shares = [9; 31];
    share(
        rt,
        "disburse",
        book,
        total,
        all,
        &mut shares,
        call_disburse::disburse,
    )?;
    share(
        rt,
        "recover",
        book,
        total,
        all,
        &mut shares,
        call_disburse::recover,
    )
}

fn order_cases(rt: &impl Print) -> io::Result<()> {
    heading(rt, b"- lists of 31 words; the order of refusals")?;
    short_cases(rt, 5_000_000_000, 64)?;
    short_cases(rt, Engine::ACCOUNT_LIMIT + 1, 0)?;
    short_shares(rt, 5_000_000_000, 64)?;
    short_shares(rt, Engine::ACCOUNT_FLOOR - 1, 0)?;
    let none = filled(0, 0);
    disburse(rt, Engine::ACCOUNT_LIMIT + 1, 0, none)?;
    disburse(rt, Engine::ACCOUNT_LIMIT, 0, none)?;
    disburse(rt, Engine::ACCOUNT_LIMIT, 1, none)?;
    recover(rt, Engine::ACCOUNT_FLOOR - 1, 0, none)?;
    recover(rt, 0, 0, none)?;
    recover(rt, -1, 1, none)
}

// Inside an auction the calls are taken too.
fn stage_case(rt: &impl Print) -> io::Result<()> {
    heading(rt, b"- inside an auction")?;
    let period = Period {
        first: Day(1),
        last: Day(2),
    };
    let stage = Stage::Open {
        kind: Kind::Long,
        round: 1,
        period,
    };
    let book = Book {
        stage,
        ..book_with(RESERVE + 64)
    };
    let ones = filled(1, 1);
    let mut shares = [9; 32];
    share(
        rt,
        "disburse",
        book,
        64,
        enough(&ones),
        &mut shares,
        call_disburse::disburse,
    )
}

pub fn cases(rt: &impl Print) -> io::Result<()> {
    starred_case(rt)?;
    tie_cases(rt)?;
    one_cases(rt)?;
    all_cases(rt)?;
    disburse_totals(rt)?;
    recover_totals(rt)?;
    recover_cases(rt)?;
    charge_limits(rt)?;
    energy_limits(rt)?;
    idle_energy(rt)?;
    word_cases(rt)?;
    energy_cases(rt)?;
    order_cases(rt)?;
    stage_case(rt)
}
