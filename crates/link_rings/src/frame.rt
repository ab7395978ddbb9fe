/// A message on its way to the other side. `seq` is how many frames its maker made before it, and `ack` how many frames of
/// the other side its maker had received when it made this one.
#[derive(Drop)]
pub struct Frame<M> {
    pub seq: u64,
    pub ack: u64,
    pub message: M,
}
