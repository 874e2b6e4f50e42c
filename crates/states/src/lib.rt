// A collator in lent bytes: made for a roster or for one that grows, and fed frame by frame. A refusal writes nothing and moves no state.
// What the bytes stand for is in `places`. Read specs/Feed.antt (what a call leaves and answers) and specs/Enlist.antt (a roster that grows);
// proofs/Feeds.antt, Makes.antt and Enlists.antt tie the bytes to the collators of `epochs` and `enlisting`.
#![tactic(auto)]

mod feeding;
mod growing;
mod making;
mod sizes;

pub use feeding::feed;
pub use growing::{enlist, grow};
pub use making::make;
