// The options of a build and of its groups.
#![tactic(auto)]

pub mod force;
pub mod nan;
pub mod tables;

use filter::StaticFilter;

// The options that are global and a group's. Recursion is whether a matched module takes its dependencies along.
#[derive(Clone, Copy)]
pub struct Options {
    pub min_size: Option<f64>,
    pub max_size: Option<f64>,
    pub min_module_size: Option<f64>,
    pub max_module_size: Option<f64>,
    pub min_share_count: Option<u32>,
    pub recursion: Option<bool>,
}

// A group: its own options, the tags that it asks for, and what only groups have. An absent priority or threshold is 0.
#[derive(Clone, Copy)]
pub struct Group {
    pub options: Options,
    pub tags: u64,
    pub priority: u32,
    pub entries_aware: bool,
    pub threshold: f64,
}

// The settings of a group: its options in force, the global ones where it has none of its own, and the defaults.
#[derive(Clone, Copy)]
pub struct Settings {
    pub filter: StaticFilter,
    pub recursive: bool,
    pub priority: u32,
    pub entries_aware: bool,
    pub threshold: f64,
    pub min_size: f64,
    pub max_size: Option<f64>,
}
