/// A task that waits: its id, its priority, and what is to be done.
#[derive(Drop)]
pub struct Task<K> {
    pub id: u32,
    pub priority: i32,
    pub work: K,
}
