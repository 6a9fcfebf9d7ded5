//! The algebra of priorities: the level of a composed rule and how many levels a composition has.
//! A level lies below its expression's size. Numbers beyond a u64 saturate at its greatest value.
#![tactic(auto)]

mod laws;
mod levels;
mod width;

pub use laws::{
    concat_keeps_order, saturation_is_late, shift_keeps_order, sizes_group, sum_keeps_order,
    widest_meets, worked_examples,
};
pub use levels::{concat, shift, size_concat, size_shift, size_sum, sum};
pub use width::{TooWide, WIDEST, fits};
