// The command that scores one match.
ghost use Rattle.std.specs.Prelude.{◌≡◌, ◌≤◌, ◌<◌, ◌⊎◌, IfOk, IfSome, length, string_bytes};
ghost use Rattle.std.specs.Io.KnownBytes.{IsAtEnd};
ghost use Rattle.fpl_base.specs.Causes.{Rose};
ghost use Rattle.fpl_run.specs.Input.{TakesAtMost};
ghost use Rattle.fpl_run.specs.Run.{IsScoreDue};

use crate::input::{InputFault, read_all};
use fpl_base::{Memory, Profile, Source};
use local_requests::row_line;
use local_requests::status::{DONE, TOO_LONG, WRONG_ROW};
use score_sheet::{SheetFault, score_sheet};
use std::alloc::Global;

/// What is due to the output, and the status behind it.
#[derive(Drop)]
pub struct Due {
    pub status: u8,
    pub text: String,
}

/// Why nothing is due.
#[derive(Clone, Copy, Debug, PartialEq, Eq)]
pub enum Halt {
    Read,
    Memory,
}

impl From<Memory> for Halt {
    ghost use Rattle.std.specs.Prelude.{◌≡◌};
    ghost use Rattle.fpl_run.specs.declared.score.Halt.TheVariants as halt;

    ghost from_gives = { λ _ e. e ≡ halt.Memory };

    fn from(_: Memory) -> Self {
        Halt::Memory
    }
}

/// What is due for the match whose rows are the input, by the rules of a profile.
pub fn score_due<S: Source>(alloc: Global, profile: Profile, input: &mut S) -> Result<Due, Halt>
    ensures due { IfOk result
        (λ due. IfSome (S.left input.old)
        (λ bytes. IsScoreDue profile bytes due.status (string_bytes due.text))) }
    ensures end { IfOk result (λ due. due.status ≡ 0 → IsAtEnd (S.left input.new)) }
    ensures statuses { IfOk result
        (λ due. (due.status ≡ 0) ⊎ (due.status ≡ 11) ⊎ (due.status ≡ 10)) }
    ensures taken { TakesAtMost 65537 (S.left input.old) (S.left input.new) }
    ensures read { result ≡ Err Halt.Read → Rose (S.faults input.old) (S.faults input.new) }
    ensures later { S.faults input.old ≤ S.faults input.new }
{
    match read_all(alloc, input) {
        Ok(bytes) => Ok(sheet_due(alloc, profile, bytes.as_slice())?),
        Err(InputFault::Read) => Err(Halt::Read),
        Err(InputFault::Long) => Ok(Due {
            status: TOO_LONG,
            text: String::new(alloc),
        }),
        Err(InputFault::Memory) => Err(Halt::Memory),
    }
}

// What is due for these bytes, which are not too many.
fn sheet_due(alloc: Global, profile: Profile, bytes: &[u8]) -> Result<Due, Memory>
    requires { length bytes.now ≤ 65536 }
    ensures due { IfOk result
        (λ due. IsScoreDue profile bytes.now due.status (string_bytes due.text)) }
    ensures statuses { IfOk result (λ due. (due.status ≡ 0) ⊎ (due.status ≡ 11)) }
{
    match score_sheet(alloc, profile, bytes) {
        Ok(text) => Ok(Due { status: DONE, text }),
        Err(SheetFault::Row(place)) => Ok(Due {
            status: WRONG_ROW,
            text: row_line(alloc, place)?,
        }),
        Err(SheetFault::Memory) => Err(Memory),
    }
}
