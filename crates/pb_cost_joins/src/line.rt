use pb_cost_pieces::Ray;

/// A line that begins at the first number of a span, and the weight of the count that is made of it.
#[derive(Clone, Copy)]
pub struct Line {
    pub weight: i64,
    pub ray: Ray,
}
