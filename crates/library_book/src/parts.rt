// The parts of which a book has many, slots of paths and bidders, each with its own words.
ghost use Rattle.std.specs.Prelude.{◌≡◌, Bool, true, List, ℕ, ◌+◌, ◌*◌, ◌≤◌, eqb, length, take, drop};
ghost use Rattle.market.specs.Books.{every};
ghost use Rattle.text_numbers.specs.Put.{put_at};
ghost use Rattle.library_book.specs.BookWords as rules;
ghost use Rattle.library_book.specs.Parts.{path_sized, bidder_sized};

use market::book::{Bidder, Direction, Path};
use market::units::{Cents, Megawatts};

pub trait Part: Copy {
    ghost WORDS: { ℕ };

    ghost words_of: { Self → List ℕ };

    ghost read_at: { List ℕ → ℕ → Self };

    ghost fits: { Self → Bool };

    // How many words a part has.
    const WORDS: usize;

    // The part whose words begin at a place.
    fn read(words: &[u64], at: usize) -> Self
        requires { at + WORDS ≤ length words.now }
        ensures { result ≡ read_at words.now at };

    // Its words, written from a place on.
    fn write(self, words: &mut [u64], at: usize)
        requires { at + WORDS ≤ length words.old }
        ensures words { words.new ≡ put_at words.old at (words_of self) }
        ensures fits { fits self ≡ true };

    // Whether the words from a place on are those of the part that they are read as.
    fn valid(words: &[u64], at: usize) -> bool
        requires { at + WORDS ≤ length words.now }
        ensures { result ≡ rules.same_words (take WORDS (drop at words.now)) (words_of (read_at words.now at)) };

    ghost sized: { (x : Self) → length (words_of x) ≡ WORDS };
}

// The low 32 bits of a word, for a field of 32 bits.
pub fn narrow(word: u64) -> u32
    ensures { result ≡ rules.narrow word }
{
    (word % 4_294_967_296) as u32
}

// Whether a word fits a field of 32 bits.
pub fn is_narrow(word: u64) -> bool
    ensures { result ≡ eqb word (rules.narrow word) }
{
    word < 4_294_967_296
}

fn direction_number(direction: Direction) -> u64
    ensures { result ≡ rules.direction_number direction }
{
    match direction {
        Direction::Export => 0,
        Direction::Import => 1,
    }
}

fn direction_in(word: u64) -> Direction
    ensures { result ≡ rules.direction_in word }
{
    match word {
        0 => Direction::Export,
        _ => Direction::Import,
    }
}

impl Part for Path {
    ghost WORDS = { rules.path_size };

    ghost words_of = { rules.path_words };

    ghost read_at = { rules.path_at };

    ghost fits = { rules.fits_path };

    ghost sized = { path_sized };

    const WORDS: usize = 4;

    fn read(words: &[u64], at: usize) -> Path {
        Path {
            direction: direction_in(words[at]),
            zone: narrow(words[at + 1]),
            offer: Megawatts(narrow(words[at + 2])),
            sold: Megawatts(narrow(words[at + 3])),
        }
    }

    fn write(self, words: &mut [u64], at: usize) {
        words[at] = direction_number(self.direction);
        words[at + 1] = u64::from(self.zone);
        words[at + 2] = u64::from(self.offer.0);
        words[at + 3] = u64::from(self.sold.0);
    }

    fn valid(words: &[u64], at: usize) -> bool {
        let direction = words[at] <= 1;
        let zone = is_narrow(words[at + 1]);
        let offer = is_narrow(words[at + 2]);
        let sold = is_narrow(words[at + 3]);
        direction & (zone & (offer & sold))
    }
}

impl Part for Bidder {
    ghost WORDS = { rules.bidder_size };

    ghost words_of = { rules.bidder_words };

    ghost read_at = { rules.bidder_at };

    ghost fits = { rules.fits_bidder };

    ghost sized = { bidder_sized };

    const WORDS: usize = 6;

    fn read(words: &[u64], at: usize) -> Bidder {
        Bidder {
            cash: Cents(words[at]),
            applied: Cents(words[at + 1]),
            letter: Cents(words[at + 2]),
            hold: Cents(words[at + 3]),
            owed: Cents(words[at + 4]),
            step: narrow(words[at + 5]),
        }
    }

    fn write(self, words: &mut [u64], at: usize) {
        words[at] = self.cash.0;
        words[at + 1] = self.applied.0;
        words[at + 2] = self.letter.0;
        words[at + 3] = self.hold.0;
        words[at + 4] = self.owed.0;
        words[at + 5] = u64::from(self.step);
    }

    // Of a bidder's words only the step has 32 bits.
    fn valid(words: &[u64], at: usize) -> bool {
        is_narrow(words[at + 5])
    }
}

// `N` parts, from a place on.
pub fn read_all<P: Part, const N: usize>(words: &[u64], from: usize) -> [P; N]
    requires { from + N * P.WORDS ≤ length words.now }
    ensures { result ≡ rules.gathered (λ i. P.read_at words.now (from + i * P.WORDS)) N }
{
    std::array::from_fn(
        |i|
            requires { from + (i + 1) * P.WORDS ≤ length words.now }
        { P::read(words, from + i * P::WORDS) },
    )
}

// The words of parts, written one after another from a place on.
pub fn write_all<P: Part>(words: &mut [u64], from: usize, parts: &[P])
    requires { from + length parts.now * P.WORDS ≤ length words.old }
    ensures words { words.new ≡ put_at words.old from (rules.each P.words_of parts.now) }
    ensures fits { every P.fits parts.now ≡ true }
{
    let mut at = from;
    for part in parts {
        part.write(words, at);
        at += P::WORDS;
    }
}

// Whether the words of `count` parts from a place on are those of the parts that they are read as.
pub fn all_valid<P: Part>(words: &[u64], from: usize, count: usize) -> bool
    requires { from + count * P.WORDS ≤ length words.now }
    ensures { result
        ≡ rules.same_words (take (count * P.WORDS) (drop from words.now))
        (rules.each P.words_of (rules.gathered (λ i. P.read_at words.now (from + i * P.WORDS)) count)) }
{
    let mut valid = true;
    for i in 0..count {
        let here = P::valid(words, from + i * P::WORDS);
        valid = valid & here;
    }
    valid
}
