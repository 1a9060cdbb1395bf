// What is noted of a load, in words, for a person who reads standard error.
use fpl_base::Rule;
use fpl_loading::{Note, Place};

/// Tells what is noted: the row that was refused, by its file, and the rule in words; or why nothing was loaded.
pub fn tell_note(rt: &HostRuntime, note: Note) {
    match note {
        Note::Refused { place, rule } => tell_rule(rt, place, rule),
        Note::Unknown { place } => match place.file {
            2 => tell_row(rt, place, "its club is not there"),
            _ => tell_row(rt, place, "a club of it is not there"),
        },
        Note::Passed { last } => {
            let _ = eprintln!(rt;
                "kowhirupe: no row was loaded: the files give fewer commands than the operator's last number, {last}"
            );
        }
    }
}

fn tell_row(rt: &HostRuntime, place: Place, why: &str) {
    let row = place.row;
    let _ = match place.file {
        1 => eprintln!(rt; "kowhirupe: clubs.csv and fixtures.csv: {why}"),
        2 => eprintln!(rt; "kowhirupe: players.csv row {row}: {why}"),
        _ => eprintln!(rt; "kowhirupe: fixtures.csv row {row}: {why}"),
    };
}

// The rules that a row can break, each in a sentence with its number. The others refuse no command of the files.
fn tell_rule(rt: &HostRuntime, place: Place, rule: Rule) {
    let why = match rule {
        Rule::NumberUsed { .. } => "the operator's command of this number was another one (rule 2)",
        Rule::NoSeason => "there is no season (rule 4)",
        Rule::SeasonThere => "there is a season already (rule 5)",
        Rule::DeadlineOrder { .. } => {
            "the first match of a gameweek is not after that of the one before (rule 7)"
        }
        Rule::KickoffEarly { .. } => {
            "the kick-off is less than 90 minutes after the deadline of its gameweek (rule 9)"
        }
        Rule::PlayerThere { .. } => "the player is there already (rule 12)",
        Rule::PriceRange => "the price is below 3.0 or above 20.0 million (rule 13)",
        Rule::GameweekFull { .. } => "20 fixtures stand in its gameweek already (rule 45)",
        Rule::PlayersFull => "1,200 players are there already (rule 46)",
        Rule::FixtureThere { .. } => "the fixture is there already (rule 47)",
        Rule::FixturesFull => "380 fixtures are there already (rule 48)",
        _ => "a rule refuses it",
    };
    tell_row(rt, place, why);
}
