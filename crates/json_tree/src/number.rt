// The numbers of JSON: an integer of 64 bits, or the nearest float.
ghost use Rattle.std.specs.Prelude.{◌≡◌, ◌==◌, ◌<◌, IfSome, IsTrue, Some, is_some, length, option_and_then, option_map, slice_index, true, false};
ghost use Rattle.serde_json.specs.Data.{unsigned};
ghost use Rattle.serde_json.specs.Find.{as_u64};
ghost use Rattle.serde_json.specs.Read.{float_of, number_from, number_of};
ghost use Rattle.json_tree.specs.Trees.{number_view};

use fast_float::Numeral;

// A number, as its text is read.
#[derive(Clone, Copy, Drop)]
pub(crate) enum Number {
    // Written without a sign, a point or an exponent.
    Whole(u64),
    // Below 0, and written without a point or an exponent.
    Negative(i64),
    // Any other, as the nearest float.
    Float(f64),
}

// Whether the number that a token writes is not too large for a float.
#[inline(always)]
pub(crate) fn fits(text: &str) -> bool
    ensures { result ≡ is_some (number_of text.now) }
{
    let bytes = text.as_bytes();
    match few_digits(bytes) {
        Some(_) => true,
        None => is_scanned(bytes),
    }
}

#[inline(never)]
fn is_scanned(bytes: &[u8]) -> bool
    ensures { result ≡ is_some (number_of bytes.now) }
{
    scanned(bytes).is_some()
}

// The whole number from 0 that a token writes without a point or an exponent, if it does.
#[inline(always)]
pub(crate) fn whole_of(text: &str) -> Option<u64>
    ensures { result ≡ option_and_then as_u64 (number_of text.now) }
{
    let bytes = text.as_bytes();
    match few_digits(bytes) {
        Some(n) => Some(n),
        None => whole_scanned(bytes),
    }
}

#[inline(never)]
fn whole_scanned(bytes: &[u8]) -> Option<u64>
    ensures { result ≡ option_and_then as_u64 (number_of bytes.now) }
{
    match scanned(bytes) {
        Some(Number::Whole(n)) => Some(n),
        Some(Number::Negative(_) | Number::Float(_)) | None => None,
    }
}

// The value of at most 18 digits, where there is nothing else.
#[inline(always)]
fn few_digits(bytes: &[u8]) -> Option<u64>
    ensures { IfSome result (λ n. number_of bytes.now ≡ Some (unsigned n)) }
{
    if bytes.is_empty() || bytes.len() > 18 {
        return None;
    }
    let mut value: u64 = 0;
    for byte in bytes {
        let digit = byte.wrapping_sub(b'0');
        if digit > 9 {
            return None;
        }
        value = value * 10 + u64::from(digit);
    }
    Some(value)
}

// The number that a token writes, unless it is too large for a float.
fn scanned(bytes: &[u8]) -> Option<Number>
    ensures { option_map number_view result ≡ number_of bytes.now }
{
    if has_minus(bytes) {
        negative(&Numeral::scan(&bytes[1..]))
    } else {
        unsigned(&Numeral::scan(bytes))
    }
}

#[inline(always)]
fn has_minus(bytes: &[u8]) -> bool
    ensures value { result ≡ (slice_index bytes.now 0 == 45) }
    ensures some { IsTrue result → 0 < length bytes.now }
{
    !bytes.is_empty() && bytes[0] == b'-'
}

#[inline(always)]
fn unsigned(numeral: &Numeral<'_>) -> Option<Number>
    ensures { option_map number_view result ≡ number_from false numeral.now }
{
    match numeral.to_u64() {
        Some(n) => Some(Number::Whole(n)),
        None => nearest(false, numeral),
    }
}

fn negative(numeral: &Numeral<'_>) -> Option<Number>
    ensures { option_map number_view result ≡ number_from true numeral.now }
{
    if let Some(n) = numeral.to_i64(true) {
        if n < 0 {
            return Some(Number::Negative(n));
        }
    }
    nearest(true, numeral)
}

fn nearest(negative: bool, numeral: &Numeral<'_>) -> Option<Number>
    ensures { option_map number_view result ≡ float_of negative numeral.now }
{
    let float = numeral.to_float::<f64>(negative);
    if float.is_finite() {
        Some(Number::Float(float))
    } else {
        None
    }
}
