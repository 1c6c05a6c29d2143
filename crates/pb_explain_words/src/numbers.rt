//! Numbers as words.

/// The number of 1 to 20 decimal digits, where it fits.
pub fn number_in(text: &[u8]) -> Option<u64> {
    if text.is_empty() || text.len() > 20 {
        return None;
    }
    let mut n = 0u64;
    for byte in text {
        if !byte.is_ascii_digit() {
            return None;
        }
        let digit = u64::from(byte.saturating_sub(b'0'));
        n = n.checked_mul(10)?.checked_add(digit)?;
    }
    Some(n)
}
