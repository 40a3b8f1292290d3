//! What is read and written, from numbers to whole modules.

mod decoded_modules;
mod encoded_modules;
mod great_counts;
mod leb_numbers;
mod round_trips;
mod syntax_trees;
