// The lines of a whole build in the text form, read into tables. They are read word by word; how words fall into lines is not looked at.
#![tactic(auto)]

pub mod counts;
pub mod given;
pub mod groups;
pub mod modules;
pub mod reader;
pub mod tables;
