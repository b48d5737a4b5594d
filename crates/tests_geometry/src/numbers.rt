// Numbers in texts of cases.

// The number of a word of digits; std's `parse` is much dearer to prove.
pub fn number_of(word: Option<&str>) -> i64 {
    let mut negated: i64 = 0;
    let mut is_negative = false;
    for byte in word.unwrap_or("0").as_bytes() {
        let digit = byte.wrapping_sub(48);
        if digit < 10 {
            negated = negated.wrapping_mul(10).wrapping_sub(i64::from(digit));
        } else {
            is_negative = true;
        }
    }
    if is_negative {
        negated
    } else {
        negated.wrapping_neg()
    }
}
