//! What was given, in two numbers.

/// How many there are, and their sum.
pub fn count_and_sum(items: &[u64]) -> (usize, u64) {
    let mut sum = 0u64;
    for item in items {
        sum = sum.wrapping_add(*item);
    }
    (items.len(), sum)
}
