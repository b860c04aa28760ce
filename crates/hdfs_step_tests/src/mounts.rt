//! Steps of a client with mounts, over three namenodes that give what they are told to give.

mod asking;
mod building;
mod case;
mod changing;
mod iterating;

pub(crate) use case::Case;
