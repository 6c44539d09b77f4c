// Steps that know no record: what the heap's calls do to words and numbers alone. Every function takes any words, as those of
// `words` do; some ask for a bound against overflow, an index below 2^32 or room in a lent log.
//
//     free      the tags of a free chunk, and a chunk's free neighbours: set_free_chunk_hdr_ftr, left_free, right_free
//     merge     what releasing a chunk makes of it and its free neighbours
//     sums      what a request gets of a chunk, and what the counters become: portion_of, risen
//     empty     setting a payload to 0, which heap.rs does not
//     search    search_first_fit
//     live      which chunks are used, by a walk of the tiling
//     undo      Log: noting words before they are overwritten, and putting them back
//
// A crate of its own below `heap`, so that a change of one of them is proved in seconds.
#![tactic(auto)]

mod empty;
mod free;
mod live;
mod merge;
mod search;
mod sums;
mod undo;

pub use empty::clear_payload;
pub use free::{left_free, right_free, set_free_chunk_hdr_ftr};
pub use live::used_length;
pub use merge::{Merged, merging};
pub use search::{Found, Lost, search_first_fit};
pub use sums::{FREE_CHUNK_MIN_SIZE, portion_of, risen};
pub use undo::Log;
