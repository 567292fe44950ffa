// Check sums that show whether a list has changed.

// A list's check sum, in which each place has its own weight, an odd one.
pub fn sum<T: Copy + Into<u64>>(start: u64, words: &[T]) -> u64 {
    words.iter().fold(
        start,
        |found, word| found.wrapping_mul(3).wrapping_add((*word).into()),
    )
}
