// A law on the definitions.
ghost use Rattle.season_keeping.specs.Restarting.{StopsRestart};

use fpl_base::Keeper;

/// A law on the definitions: a host that is opened over what a stop left behind a request stands for a book that the request
/// may leave, which holds every command that was answered as done.
pub fn stops_restart<K: Keeper, R: Keeper>()
    ensures { StopsRestart K.tells K.holds K.passes R.tells R.holds R.passes }
{}
