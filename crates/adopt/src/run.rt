//! What flights hold.
ghost use Rattle.std.specs.Prelude.{◌≡◌, ◌≤◌, true, length};
ghost use Rattle.adopt.specs.Versions.{has_outcomes};

use fault::Text;
use flight::flight::Version;
use flight::life::Life;
use moments::Recorded;
use schema::Schema;

/// What the flights of a group of 3 to 7 nodes hold, node by node.
#[derive(Drop)]
pub struct Run {
    pub(crate) version: Version,
    pub(crate) schema_text: Text,
    pub(crate) schema: Schema,
    pub(crate) lives: Vec<Vec<Life>>,
    pub(crate) answers: Vec<Recorded>,
    ghost least: { 3 ≤ length lives.items },
    ghost most: { length lives.items ≤ 7 },
    ghost told: { has_outcomes version ≡ true },
}
