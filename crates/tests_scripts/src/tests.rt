//! Tables of scripts by subject, and the code that reads them.

mod actions;
mod answers;
mod hooked_script;
mod load_files;
mod numbers;
mod responses;
mod supplies;
mod texts;
