// Numbers as files, targets and words spell them.
ghost use Rattle.std.specs.Prelude.{◌≡◌, ◌≢◌, ◌≤◌, ◌↔◌, ℕ, IsTrue, MatchOption, length, slice_index};
ghost use Rattle.std.specs.Fmt.{decimal};

use std::str;

/// The number that these bytes spell in decimal, without a sign and without a zero in front of another digit, where it
/// is at most `greatest`; `None` exactly where they spell no such number.
pub fn read_number(bytes: &[u8], greatest: u64) -> Option<u64>
    ensures { MatchOption result ((n : ℕ) → n ≤ greatest → bytes.now ≢ decimal n)
        (λ n. (n ≤ greatest) × (bytes.now ≡ decimal n)) }
{
    if !has_plain_front(bytes) {
        return None;
    }
    let Ok(text) = str::from_utf8(bytes) else {
        return None;
    };
    let Ok(value) = text.parse::<u64>() else {
        return None;
    };
    if value > greatest {
        return None;
    }
    Some(value)
}

// There is no plus in front, and no zero but alone.
fn has_plain_front(bytes: &[u8]) -> bool
    ensures { IsTrue result
        ↔ ((slice_index bytes.now 0 ≢ 43) × (slice_index bytes.now 0 ≡ 48 → length bytes.now ≡ 1)) }
{
    match bytes {
        [b'+', ..] => false,
        [b'0'] => true,
        [b'0', ..] => false,
        _ => true,
    }
}
