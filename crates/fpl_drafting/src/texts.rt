// What is written of a league but for its table.
ghost use Rattle.std.specs.Prelude.{◌≡◌, IfOk, string_bytes};
ghost use Rattle.fpl_drafting.specs.Texts.{end_word, outcome_text, outcomes_text, picks_text, settled_text};

use draft_league::{End, Outcome};
use fpl_base::Memory;
use std::alloc::{AllocError, Global};

/// A line for each outcome: gameweek, member, who was to come, who was to go, and `granted`, `owned` or `gone`.
pub fn outcomes_text(alloc: Global, outcomes: &[Outcome]) -> Result<String, Memory>
    ensures { IfOk result (λ text. string_bytes text ≡ outcomes_text outcomes.now) }
{
    let mut text = String::new(alloc);
    for outcome in outcomes {
        let line = outcome_line(alloc, outcome)?;
        text.push_str(line.as_str())?;
    }
    Ok(text)
}

fn outcome_line(alloc: Global, outcome: &Outcome) -> Result<String, AllocError>
    ensures { IfOk result (λ text. string_bytes text ≡ outcome_text outcome.now) }
{
    settled_line(
        alloc,
        outcome.gw.get(),
        outcome.member,
        outcome.into.get(),
        outcome.out.get(),
        end_word(outcome.end),
    )
}

fn settled_line(
    alloc: Global,
    gw: u8,
    member: u8,
    into: u32,
    out: u32,
    end: &str,
) -> Result<String, AllocError>
    ensures { IfOk result
        (λ text. string_bytes text ≡ settled_text gw member into out end.now) }
{
    format!(in alloc; "{gw},{member},{into},{out},{end}\n")
}

fn end_word(end: End) -> &'static str
    ensures { result.now ≡ end_word end }
{
    match end {
        End::Granted => "granted",
        End::Owned => "owned",
        End::Gone => "gone",
    }
}

/// The line that says how many picks were made where the draft is open.
pub fn picks_text(alloc: Global, picks: u32) -> Result<String, Memory>
    ensures { IfOk result (λ text. string_bytes text ≡ picks_text picks) }
{
    Ok(format!(in alloc; "open {picks}\n")?)
}
