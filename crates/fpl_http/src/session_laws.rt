// Laws on the definitions.
ghost use Rattle.std.specs.Prelude.{ℕ, List};
ghost use Rattle.fpl_http.specs.Stream.{Request};
ghost use Rattle.fpl_http.specs.Lifts.{RunsLift, SessionsLift};
ghost use Rattle.fpl_http.specs.Splits.{SessionsSplit, SessionsSplitOver};
ghost use Rattle.fpl_http.specs.Stays.{RunsStay, SessionsStay};

/// What is kept, and what it stands for: a service may keep something else than what the promises of a session speak of.
pub trait Standing {
    /// What is kept.
    ghost Kept: { Type 0 };

    /// What it stands for.
    ghost State: { Type 0 };

    /// While this holds, what is kept is followed. Once it ceases, it does not come back.
    ghost follows: { Kept → Type 0 };

    /// When what is kept stands for a state. It may stand for several, and for none.
    ghost stands: { Kept → State → Type 0 };

    /// In this state a message may get that answer, a status and a body, and that state is left behind.
    ghost answers: { State → Request → ℕ × List ℕ → State → Type 0 };
}

/// A law on the definitions: where what is kept answers each message, while it is followed, as each state does that it
/// stands for, runs of messages and whole sessions of it, behind which it is still followed, are runs and sessions of those
/// states.
pub fn sessions_lift<T: Standing>()
    ensures runs { RunsLift T.follows T.stands T.answers }
    ensures sessions { SessionsLift T.follows T.stands T.answers }
{}

/// Two things that may be said of each answer, from the same state to the same state.
pub trait Answering {
    /// The state in which a message is answered.
    ghost State: { Type 0 };

    /// By the one, in this state a message may get that answer, a status and a body, and that state is left behind.
    ghost one: { State → Request → ℕ × List ℕ → State → Type 0 };

    /// The same by the other.
    ghost other: { State → Request → ℕ × List ℕ → State → Type 0 };
}

/// A law on the definitions: a session whose answers both allow is a session of the one and a session of the other, from
/// the same state to the same state, with the same bytes and the same ending.
pub fn sessions_split<T: Answering>()
    ensures sessions { SessionsSplit T.one T.other }
    ensures over { SessionsSplitOver T.one T.other }
{}

/// Something that may be true of a state, and two kinds of answers.
pub trait Staying {
    /// The state in which a message is answered.
    ghost State: { Type 0 };

    /// What may be true of it.
    ghost holds: { State → Type 0 };

    /// In this state a message may get that answer, a status and a body, and that state is left behind.
    ghost one: { State → Request → ℕ × List ℕ → State → Type 0 };

    /// An answer of the other kind.
    ghost other: { State → Request → ℕ × List ℕ → State → Type 0 };
}

/// A law on the definitions: where something that is true of a state makes each answer of the one kind one of the other
/// kind, and is true behind it, runs of messages and whole sessions of the one kind that begin where it is true are runs and
/// sessions of the other, and it is true behind them.
pub fn sessions_stay<T: Staying>()
    ensures runs { RunsStay T.holds T.one T.other }
    ensures sessions { SessionsStay T.holds T.one T.other }
{}
