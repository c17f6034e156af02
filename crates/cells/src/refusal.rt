// Why a strip is not copied.
use thiserror::Error;

#[derive(Clone, Copy, PartialEq, Eq, Debug, Error)]
pub enum CopyRefusal {
    // fewer cells are free than the strip has
    #[error("refusal 9: {0} cells are needed, and fewer are free")]
    NoRoomFor(usize),
    // no cell stands at this place
    #[error("refusal 10 at place {0}: no cell stands there")]
    SpoiltAt(usize),
}
