//! From the bytes of one stream to the items and the lines of its path (Arm IHI 0064).
//!
//! Packets become elements, elements become P0 elements that are held until they are committed, and those are walked over an image. A
//! machine that knows no sink does all that ([`machine`]), and gives the items by which the path of `path_elements` grew to a [`Follower`],
//! whatever that makes of them. All memory is taken when a stream is made.
//!
//! There are two layers over it. A [`FollowedStream`] has the follower of the caller. A [`StreamDecoder`] has one that writes lines: the layer
//! above uses the contract of [`StreamDecoder::take_run`], by which it comes from the bytes at which it stands to those and more, and writes
//! the lines of what they add.
#![tactic(auto)]

mod decoder;
mod ending;
mod followed;
mod follower;
mod found;
mod line_follower;
mod machine;
mod todo;
mod waiting;

pub use decoder::StreamDecoder;
pub use followed::FollowedStream;
pub use follower::Follower;
