// What a command writes, and the exit status.
ghost use Rattle.std.specs.Prelude.{◌≡◌, ◌⊎◌, IfOk, string_bytes};
ghost use Rattle.fpl_base.specs.Causes.{Rose};
ghost use Rattle.season_book.specs.declared.answer.Answer.TheVariants as answer_of;
ghost use Rattle.local_requests.specs.Printing.{EndsBy, Prints, rule_text};

use crate::status::{DECLINED, KEEPER, MEMORY, WRITE_FAULT};
use fpl_base::Sink;
use season_book::Answer;
use std::alloc::{AllocError, Global};

const UNKNOWN: &str = "unknown\n";

/// Writes what is due, and answers the status that is due behind it, or that the write failed.
pub fn print<W: Sink>(output: &mut W, text: &[u8], status: u8) -> u8
    ensures printed { Prints text.now status result (W.taken output.old) (W.taken output.new) }
    ensures statuses { (result ≡ status) ⊎ (result ≡ 3) }
    ensures write { result ≡ status ⊎ Rose (W.faults output.old) (W.faults output.new) }
{
    match output.write(text) {
        Ok(()) => status,
        Err(_) => WRITE_FAULT,
    }
}

/// Ends a command by an answer: names a refusal, and answers the exit status.
pub fn halted<W: Sink>(alloc: Global, told: &Answer, output: &mut W) -> u8
    ensures ends { EndsBy told.now result (W.taken output.old) (W.taken output.new) }
    ensures statuses { (result ≡ 3) ⊎ (result ≡ 4) ⊎ (result ≡ 6) ⊎ (result ≡ 13) }
    ensures keeper { result ≡ 4 → told.now ≡ answer_of.Keeper }
    ensures write { result ≡ 3 → Rose (W.faults output.old) (W.faults output.new) }
{
    match told {
        Answer::Rule(rule) => match rule_line(alloc, rule.number()) {
            Ok(text) => print(output, text.as_bytes(), DECLINED),
            Err(AllocError) => MEMORY,
        },
        Answer::Unknown => print(output, UNKNOWN.as_bytes(), DECLINED),
        Answer::Keeper => KEEPER,
        _ => MEMORY,
    }
}

fn rule_line(alloc: Global, number: u8) -> Result<String, AllocError>
    ensures { IfOk result (λ text. string_bytes text ≡ rule_text number) }
{
    format!(in alloc; "rule {}\n", number)
}
