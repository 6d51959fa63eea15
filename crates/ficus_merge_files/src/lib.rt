//! What the files of two replicas make together. And whether they can be merged.
#![tactic(auto)]

mod alone;
mod fits;
mod laws;
mod merge;
mod news;
mod sides;
mod versions;

pub use fits::news_fit;
pub use laws::{one_merge, one_news};
pub use merge::merge_news;
pub use news::{NewFile, News};
pub use sides::{merge_files, merge_fits};
