/// What comes of a turn of an end, or of a frame that is handed to a seat.
#[derive(Drop)]
pub enum Turn<E> {
    /// There was no frame.
    Idle,
    /// A frame was taken. The side is up, and this is what came of it.
    Handled(E),
    /// The side is down, with that number: by this frame, or it was before.
    Down(u16),
}
