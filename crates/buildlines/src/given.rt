// The options of a build or of a group, each if it is given.
use crate::reader::{Reader, Unread};
use options::Options;

#[derive(Clone, Copy)]
pub struct GivenOptions {
    pub min_size: Option<f64>,
    pub max_size: Option<f64>,
    pub min_module_size: Option<f64>,
    pub max_module_size: Option<f64>,
    pub min_share_count: Option<u32>,
    pub recursion: Option<bool>,
}

impl GivenOptions {
    pub const NONE: GivenOptions = GivenOptions {
        min_size: None,
        max_size: None,
        min_module_size: None,
        max_module_size: None,
        min_share_count: None,
        recursion: None,
    };

    pub fn read(reader: &mut Reader) -> Result<GivenOptions, Unread> {
        let min_size = reader.limit()?;
        let max_size = reader.limit()?;
        let min_module_size = reader.limit()?;
        let max_module_size = reader.limit()?;
        let min_share_count = reader.share_count()?;
        let recursion = reader.choice()?;
        Ok(GivenOptions {
            min_size,
            max_size,
            min_module_size,
            max_module_size,
            min_share_count,
            recursion,
        })
    }

    // As the call takes them.
    pub fn to_options(self) -> Options {
        Options {
            min_size: self.min_size,
            max_size: self.max_size,
            min_module_size: self.min_module_size,
            max_module_size: self.max_module_size,
            min_share_count: self.min_share_count,
            recursion: self.recursion,
        }
    }
}
