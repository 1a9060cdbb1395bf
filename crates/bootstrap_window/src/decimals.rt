// Quotients as text.
ghost use Rattle.std.specs.Prelude.{◌≡◌, ◌<◌, ◌*◌, ◌++◌, ◌^◌, IfOk, codes, int_lt, pos};
ghost use Rattle.std.specs.Fmt.{decimal};
ghost use Rattle.std.specs.String.{string_bytes};
ghost use Rattle.season_book.specs.Decimals.{decimal_text, quotient_text, signed_tenths_text};

use std::alloc::{AllocError, Global};

/// A quotient with one digit behind the point, rounded half away from zero; `0.0` where it is of nothing.
pub fn decimal_text(alloc: Global, above: i32, below: u32) -> Result<String, AllocError>
    ensures { IfOk result (λ text. string_bytes text ≡ decimal_text above below) }
{
    quotient_text(alloc, above < 0, u64::from(above.unsigned_abs()), below)
}

/// How many of a hundred so many of so many are, in the same form.
pub fn share_text(alloc: Global, part: u32, whole: u32) -> Result<String, AllocError>
    ensures { IfOk result (λ text. string_bytes text ≡ decimal_text (pos (100 * part)) whole) }
{
    quotient_text(alloc, false, 100 * u64::from(part), whole)
}

// A quotient on this side of zero.
fn quotient_text(
    alloc: Global,
    is_below: bool,
    above: u64,
    below: u32,
) -> Result<String, AllocError>
    requires { above < 2 ^ 40 }
    ensures { IfOk result (λ text. string_bytes text ≡ quotient_text is_below above below) }
{
    if below == 0 {
        return String::from_str(alloc, "0.0");
    }
    let whole = u64::from(below);
    tenths_text(alloc, is_below, (20 * above + whole) / (2 * whole))
}

// So many tenths, on this side of zero.
fn tenths_text(alloc: Global, is_below: bool, tenths: u64) -> Result<String, AllocError>
    ensures { IfOk result (λ text. string_bytes text ≡ signed_tenths_text is_below tenths) }
{
    let whole = tenths / 10;
    let rest = tenths % 10;
    if is_below && tenths > 0 {
        below_text(alloc, whole, rest)
    } else {
        above_text(alloc, whole, rest)
    }
}

fn above_text(alloc: Global, whole: u64, rest: u64) -> Result<String, AllocError>
    ensures { IfOk result
        (λ text. string_bytes text ≡ decimal whole ++ (codes "." ++ decimal rest)) }
{
    format!(in alloc; "{}.{}", whole, rest)
}

fn below_text(alloc: Global, whole: u64, rest: u64) -> Result<String, AllocError>
    ensures { IfOk result
        (λ text. string_bytes text ≡ codes "-" ++ (decimal whole ++ (codes "." ++ decimal rest))) }
{
    format!(in alloc; "-{}.{}", whole, rest)
}
