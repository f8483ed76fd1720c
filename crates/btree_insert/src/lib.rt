//! A B-tree in the pages of a store: look-up, walk and insertion.
#![tactic(auto)]

mod beside;
mod bounds;
mod finding;
mod insert_below;
mod insert_in_one;
mod inserting;
pub mod laws;
mod reading;
mod split_leaf;
mod step;
mod telling;
mod tree;
mod walking;

pub use beside::nearest;
pub use bounds::{Bounds, UNBOUNDED, are_within, bounds_of_son};
pub use finding::{find, look_up};
pub use insert_below::{was_visited, write_node};
pub use inserting::{insert, insert_in_place};
pub use reading::{kind_of_level, lies_at, read_into};
pub use step::{Spot, Step, is_page_within, root_spot, step_in_page};
pub use telling::tell_beside;
pub use tree::{GREATEST_HEIGHT, GREATEST_PAGE_COUNT, Tree, TreeFault};
pub use walking::{tell, walk};
