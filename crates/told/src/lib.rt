// The post: client, tables, generator and moment, as records set them and answers tell them.

#![tactic(auto)]

pub mod answer;
mod made;
pub mod post;
mod told;

pub use post::Post;
