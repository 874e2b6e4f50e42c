// The text that `sbplist` prints, made in a lent buffer from a capture's bytes, which are read once.
// Read specs/Listing.antt (the lines) first; specs/Words.antt says them again in document 01's words. Whose epochs it shows is said in
// enlisting's specs, which also say why one walk over the capture does.
#![tactic(auto)]

mod listing;

pub use listing::list;
