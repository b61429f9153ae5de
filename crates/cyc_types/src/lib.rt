//! Types of the whole language, with the structs and unions of a program.
//!
//! A type is a base under layers of pointers. What is said of it, whether two types are the same, what converts, what is
//! copied, what has a beginning, how many bytes it has and where its cells lie, are the definitions of `source_typing` and
//! `source_meaning`, on which it stands.
#![tactic(auto)]

mod base;
mod cell;
mod conversion;
mod copies;
mod ctype;
mod extent;
mod fault;
mod kinds;
mod layer;
mod layers;
mod laying;
mod likeness;
mod making;
mod measuring;
mod member_names;
mod pointer_list;
mod reach;
mod region;
mod run;
mod scalar;
mod tables;
mod tag;

pub use base::{BaseType, RegionArguments};
pub use cell::{Cell, Layout};
pub use conversion::Broken;
pub use copies::is_copyable;
pub use ctype::CType;
pub use extent::{Alignment, Extent, MOST_BYTES};
pub use fault::{SizeFault, TableFault};
pub use layer::Layer;
pub use layers::Layers;
pub use laying::layout;
pub use likeness::Likeness;
pub use pointer_list::PointerList;
pub use reach::Reach;
pub use region::RegionId;
pub use scalar::Scalar;
pub use tables::Tables;
pub use tag::{Member, Tag};
