// The top call.
ghost use Rattle.std.specs.Prelude.{◌≡◌, ◌≤◌, ◌⊎◌, IfSome, MatchOption, None, length};
ghost use Rattle.std.specs.Io.KnownBytes.{IsAtEnd, Keeps};
ghost use Rattle.fpl_base.specs.Causes.{Rose};
ghost use Rattle.command_line.specs.Orders.{ordered};
ghost use Rattle.fpl_run.specs.Serve.{doors_as};
ghost use Rattle.fpl_run.specs.Input.{TakesAtMost};
ghost use Rattle.fpl_run.specs.Run.{Ends, IsScoreDue, RunsAs, connections_in};

use crate::drafts::draft;
use crate::events::events;
use crate::loads::load;
use crate::pipe::pipe;
use crate::requests::{dream, generate, report};
use crate::score::{Halt, score_due};
use crate::serve::serve;
use command_line::{WordFault, Words, words_of};
use fpl_base::{Clock, Doors, Keeper, Profile, ReadCount, Sink, Source, Text};
use fpl_loading::Note;
use local_requests::print;
use local_requests::status::{MEMORY, READ_FAULT, WORDS};
use season_folder::AskedShelf;
use std::alloc::Global;
use std::sync::ledger::Ledger;

const NOT_READ: &str = "words not read\n";

/// The program: its words, and what it is handed. It answers the exit status; what whoever loads should know beside is noted.
pub fn run<S: Source, W: Sink, C: Clock, K: Keeper, D: Doors, F: AskedShelf, L: Ledger>(
    alloc: Global,
    words: &[Text],
    input: &mut S,
    output: &mut W,
    clock: &mut C,
    keeper: &mut K,
    doors: &mut D,
    shelf: &mut F,
    note: &mut Option<Note>,
    steps: &mut ReadCount<L>,
) -> u8
    // Doors that tell their connections have as many as the words ask for, and doors that tell none never will.
    requires { MatchOption (D.coming doors.old) ((d : D) → D.coming d ≡ None)
        (λ all. connections_in (ordered words.now) ≤ length all) }

    // What the words order was done.
    ensures runs { RunsAs K.tells K.serves K.holds K.passes K.faults F.one_read (ordered words.now)
        (record {
          left = S.left input.old;
          moments = C.left clock.old;
          taken = W.taken output.old;
          keeper = keeper.old;
          doors = doors_as (D.coming doors.old) (D.given_back doors.old) (D.faults doors.old);
          files = record { shelf = shelf.old; texts = F.files shelf.old; noted = note.old };
          reads = steps.old;
        })
        (record {
          left = S.left input.new;
          moments = C.left clock.new;
          taken = W.taken output.new;
          keeper = keeper.new;
          doors = doors_as (D.coming doors.new) (D.given_back doors.new) (D.faults doors.new);
          files = record { shelf = shelf.new; texts = F.files shelf.new; noted = note.new };
          reads = steps.new;
        }) result }

    // A fault is answered only where its count rose.
    ensures read { result ≡ 1 → Rose (S.faults input.old) (S.faults input.new) }
    ensures write { result ≡ 3 → Rose (W.faults output.old) (W.faults output.new) }
    ensures keeper { result ≡ 4 → Rose (K.faults keeper.old) (K.faults keeper.new) }
    ensures doors { result ≡ 8 → Rose (D.faults doors.old) (D.faults doors.new) }
    ensures shelf { result ≡ 9 → Rose (F.faults shelf.old) (F.faults shelf.new) }
{
    match words_of(alloc, words) {
        Ok(Words::Score { profile }) => score(alloc, profile, input, output),
        Ok(Words::Pipe { key, .. }) => pipe(alloc, &key, input, output, clock, keeper, steps),
        Ok(
            Words::Serve {
                key,
                connections,
                ..
            },
        ) => serve(
            alloc,
            &key,
            connections,
            output,
            clock,
            keeper,
            doors,
            steps,
        ),
        Ok(
            Words::Load {
                key,
                dir,
                split,
                profile,
                more,
                ..
            },
        ) => load(
            alloc, &key, &dir, split, profile, more, output, clock, keeper, shelf, note, steps,
        ),
        Ok(Words::Report { key, what, .. }) => {
            report(alloc, &key, what, output, clock, keeper, steps)
        }
        Ok(Words::Generate { seed, .. }) => generate(alloc, seed, output, keeper, steps),
        Ok(Words::Dream { key, gameweek, .. }) => {
            dream(alloc, &key, gameweek, output, clock, keeper, steps)
        }
        Ok(
            Words::Events {
                key,
                fixture,
                length: minutes,
                ..
            },
        ) => events(
            alloc, &key, fixture, minutes, input, output, clock, keeper, steps,
        ),
        Ok(Words::Draft { key, members, .. }) => draft(
            alloc, &key, members, input, output, clock, keeper, steps,
        ),
        Err(WordFault::Unread) => print(output, NOT_READ.as_bytes(), WORDS),
        Err(WordFault::Memory) => MEMORY,
    }
}

// Scores the match whose rows are the input.
fn score<S: Source, W: Sink>(alloc: Global, profile: Profile, input: &mut S, output: &mut W) -> u8
    ensures score { IfSome (S.left input.old)
        (λ bytes. Ends (IsScoreDue profile bytes) result (W.taken output.old)
        (W.taken output.new)) }
    ensures end { result ≡ 0 → IsAtEnd (S.left input.new) }
    ensures taken { TakesAtMost 65537 (S.left input.old) (S.left input.new) }
    ensures statuses { (result ≡ 0) ⊎ (result ≡ 1) ⊎ (result ≡ 3) ⊎ (result ≡ 6) ⊎ (result ≡ 10)
        ⊎ (result ≡ 11) }
    ensures read { result ≡ 1 → Rose (S.faults input.old) (S.faults input.new) }
    ensures write { result ≡ 3 → Rose (W.faults output.old) (W.faults output.new) }
    ensures memory { result ≡ 6 → Keeps (W.taken output.old) (W.taken output.new) }
{
    match score_due(alloc, profile, input) {
        Ok(due) => print(output, due.text.as_bytes(), due.status),
        Err(Halt::Read) => READ_FAULT,
        Err(Halt::Memory) => MEMORY,
    }
}
