// The five kinds of number (rule 1.1), so that code which takes one for another is no program.

// An amount of money in cents, without fractions and never below 0.
#[derive(Clone, Copy, Debug, PartialEq, Eq, PartialOrd, Ord)]
pub struct Cents(pub u64);

// The balance of the clearing account in cents, which has a sign.
#[derive(Clone, Copy, Debug, PartialEq, Eq, PartialOrd, Ord)]
pub struct Balance(pub i64);

// The price of a zone in an hour, in cents per MW; it may be below 0.
#[derive(Clone, Copy, Debug, PartialEq, Eq, PartialOrd, Ord)]
pub struct ZonePrice(pub i64);

// A quantity of MW, without fractions.
#[derive(Clone, Copy, Debug, PartialEq, Eq, PartialOrd, Ord)]
pub struct Megawatts(pub u32);

// A day number; 0 stands for 2000-01-01.
#[derive(Clone, Copy, Debug, PartialEq, Eq, PartialOrd, Ord)]
pub struct Day(pub u32);
