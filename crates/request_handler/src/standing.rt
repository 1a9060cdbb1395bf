// What the host and its keeper stand for, of which the promises of a session speak: three views of it.
ghost use Rattle.std.specs.Prelude.{Option, ⊤};
ghost use Rattle.request_handler.specs.Kept.{IsStoodByRows, IsStoodByStops, StandsByRecords};
ghost use Rattle.request_handler.specs.Looks.{Counted, CountsLooks};
ghost use Rattle.request_handler.specs.Replying.{IsReplyUntil, Served};
ghost use Rattle.request_handler.specs.Whole.{IsKeptReply};
ghost use Rattle.fpl_http.specs.Lifts.{LiftsWhile};
ghost use Rattle.fpl_http.specs.Splits.{Both};

use fpl_base::Keeper;
use fpl_http::{Answering, Standing};

/// Over any keeper, by the host's rows, up to the first message for which the keeper is read again.
#[derive(Drop)]
pub struct ByRows<K: Keeper> {
    keeper: K,
}

impl<K: Keeper> Standing for ByRows<K> {
    ghost Kept = { Counted K };

    ghost State = { Option Served };

    ghost follows = { λ _. ⊤ };

    ghost stands = { λ now. IsStoodByRows now.kept };

    ghost answers = { IsReplyUntil };
}

/// The same over a keeper that tells, with what a stop leaves.
#[derive(Drop)]
pub struct ByStops<K: Keeper> {
    keeper: K,
}

impl<K: Keeper> Standing for ByStops<K> {
    ghost Kept = { Counted K };

    ghost State = { Option Served };

    ghost follows = { λ now. K.tells now.kept.keeper };

    ghost stands = { λ now. IsStoodByStops K.holds K.passes now.kept };

    ghost answers = { IsReplyUntil };
}

/// Over a keeper that tells and serves, by its records, as long as it does.
#[derive(Drop)]
pub struct ByRecords<K: Keeper> {
    keeper: K,
}

impl<K: Keeper> Standing for ByRecords<K> {
    ghost Kept = { Counted K };

    ghost State = { Served };

    ghost follows = { λ now. K.tells now.kept.keeper × K.serves now.kept.keeper };

    ghost stands = { λ now. StandsByRecords K.holds K.passes now.kept };

    ghost answers = { IsKeptReply };
}

/// What a handler answers, as its promises speak of it: how many reads are counted, and what the host and its keeper stand for.
#[derive(Drop)]
pub struct ReadsFirst<K: Keeper> {
    keeper: K,
}

impl<K: Keeper> Answering for ReadsFirst<K> {
    ghost State = { Counted K };

    ghost one = { CountsLooks };

    ghost other = { Both (LiftsWhile (λ _. ⊤) (λ now. IsStoodByRows now.kept) IsReplyUntil)
        (Both (LiftsWhile (λ now. K.tells now.kept.keeper)
        (λ now. IsStoodByStops K.holds K.passes now.kept) IsReplyUntil)
        (LiftsWhile (λ now. K.tells now.kept.keeper × K.serves now.kept.keeper)
        (λ now. StandsByRecords K.holds K.passes now.kept) IsKeptReply)) };
}

/// What they stand for: by the rows, and by the other two.
#[derive(Drop)]
pub struct RowsFirst<K: Keeper> {
    keeper: K,
}

impl<K: Keeper> Answering for RowsFirst<K> {
    ghost State = { Counted K };

    ghost one = { LiftsWhile (λ _. ⊤) (λ now. IsStoodByRows now.kept) IsReplyUntil };

    ghost other = { Both
        (LiftsWhile (λ now. K.tells now.kept.keeper)
        (λ now. IsStoodByStops K.holds K.passes now.kept) IsReplyUntil)
        (LiftsWhile (λ now. K.tells now.kept.keeper × K.serves now.kept.keeper)
        (λ now. StandsByRecords K.holds K.passes now.kept) IsKeptReply) };
}

/// The other two: with what a stop leaves, and by the keeper's records.
#[derive(Drop)]
pub struct StopsFirst<K: Keeper> {
    keeper: K,
}

impl<K: Keeper> Answering for StopsFirst<K> {
    ghost State = { Counted K };

    ghost one = { LiftsWhile (λ now. K.tells now.kept.keeper)
        (λ now. IsStoodByStops K.holds K.passes now.kept) IsReplyUntil };

    ghost other = { LiftsWhile (λ now. K.tells now.kept.keeper × K.serves now.kept.keeper)
        (λ now. StandsByRecords K.holds K.passes now.kept) IsKeptReply };
}
