/// What is logged of a step. The messages are in the note alone: the frames that the step made are told by it and by
/// `first` and `heard`.
#[derive(Drop)]
pub struct Entry<N> {
    pub note: N,
    /// The number of the frame that it received. 0 if it received none.
    pub seq: u64,
    /// What that frame acknowledged. 0 if it received none.
    pub ack: u64,
    /// The number of the first frame that it made, and of the next to be made if it made none.
    pub first: u64,
    /// How many frames were received by then, its own among them: what the frames that it made acknowledge.
    pub heard: u64,
}
