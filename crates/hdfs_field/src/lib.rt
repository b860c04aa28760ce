//! Rings and fields, the field of 256 elements, and matrices over them.
#![tactic(auto)]

mod gf256;
mod invert;
mod kernel;
mod matrix;
mod ring;
mod slices;
mod wrap32;

pub use gf256::{GF256, products_are_unique};
pub use kernel::mul_add;
pub use matrix::Matrix;
pub use ring::{Field, Ring};
pub use slices::are_even;
pub use wrap32::Wrap32;
