// The direction of a total.

// Out of the clearing account (disbursed), or into it (recovered).
#[derive(Clone, Copy)]
pub enum Flow {
    Out,
    In,
}
