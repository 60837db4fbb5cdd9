//! What is wrong with a script, told so that it can be mended.
//!
//! [`explain_script`] tells more of a script that was refused: where its fault shows, what is
//! wanted there, and which name is near. Nothing is refused here: that there is a fault, its line
//! and its kind are what the parser of `sc_script` says, and an explanation only looks for a place
//! in that line which shows such a fault. Where it finds none it tells what the kind means.
//!
//! A line is read as `sc_pieces` cuts it. The types of expressions are asked of the parser itself,
//! by small scripts of one expression over a row of the type.
#![tactic(auto)]

mod gives;
mod limits;
mod names;
mod rows;
mod scripts;
mod shapes;
mod signs;
mod tables;
mod tokens;
mod trees;
mod typed_lines;
mod typing;

pub use scripts::explain_script;
