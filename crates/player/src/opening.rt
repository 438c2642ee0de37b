// The room before the first event, by a kit's settings: who leads, who switches, and the replicas' records.
ghost use Rattle.std.specs.Prelude.{◌≡◌};
ghost use Rattle.player.specs.Opening.{switch_leader_of, roles_in, fresh_replicas};

use kit::Settings;
use replica::{Replica, Replicas};
use terms::{Roles, Table};

// The active replica of lowest number apart from the leader. Of the roles only these two are known yet.
#[tactic(auto, unfolding(crate::specs::Opening::switch_leader_of))]
pub fn switch_leader(table: &Table, leader: usize) -> usize
    ensures { result ≡ switch_leader_of table.now leader }
{
    for (x, &n) in table.iter().enumerate() {
        if x != leader && terms::marks_active(n) {
            return x;
        }
    }
    0
}

// The replicas of a table, before the first event.
#[tactic(auto, unfolding(crate::specs::Opening::fresh_replicas, terms::specs::Tabulate::tab))]
pub fn fresh_replicas(table: &Table) -> Replicas
    ensures { result ≡ fresh_replicas table.now }
{
    table.map(|n| Replica::fresh(terms::marks_faulty(n)))
}

// What the settings say of the replicas, and the patience.
#[tactic(auto, unfolding(crate::specs::Opening::roles_in))]
pub fn roles_of(settings: &Settings) -> Roles
    ensures { result ≡ roles_in settings.now }
{
    Roles {
        f: settings.f,
        size: settings.size,
        leader: settings.leader,
        switcher: switch_leader(&settings.table, settings.leader),
        patience: settings.patience,
        table: settings.table,
    }
}
