use fpl_base::{Chip, Gw};
use player_market::Sales;
use rule_book::Team;

/// What judging a manager's deed worked out, where no rule refuses it: `ManagerBook::keep` writes it, and judges nothing
/// again.
#[derive(Debug, Drop)]
pub enum JudgedDeed {
    /// A first squad: the team.
    Squad {
        gameweek: Gw,
        team: Team,
    },
    /// A batch of transfers: the team after it, and its sales.
    Transfers {
        gameweek: Gw,
        team: Team,
        sales: Sales,
    },
    /// Another order of the fifteen: the team in it.
    Lineup {
        gameweek: Gw,
        team: Team,
    },
    /// A chip that is played.
    Chip {
        gameweek: Gw,
        chip: Chip,
    },
    /// The gameweek's chip is taken back.
    Cancel {
        gameweek: Gw,
    },
}
