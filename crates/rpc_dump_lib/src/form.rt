//! How lines are written.
use look_names::Schema;

/// How lines are written.
#[derive(Clone, Copy, Drop)]
pub struct Form<'s> {
    /// With each payload its tree.
    pub trees: bool,
    /// With each Call its names by this schema.
    pub schema: Option<&'s Schema>,
}
