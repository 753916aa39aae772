/// What tasks may make of a worker's desk.
pub trait Becomes<D> {
    ghost becomes: { D → D → Type 0 };

    /// A desk may stay as it is.
    ghost stays: { (desk : D) → becomes desk desk };

    /// What two tasks make of a desk, one after the other, tasks may make of it.
    ghost goes_on: { (before between after : D) → becomes before between → becomes between after → becomes before after };
}
