// The heap: Hopter's heap.rs over a lent slice of words and a record by value.
//
// The files follow document 01's port order; the functions have heap.rs's names.
//
//     kind      how many cache places a heap has
//     record    what the heap knows besides its words: sentinels, counters, the cached chunks
//     lists     link_chunk, unlink_chunk
//     merge     merge_neighbor_if_possible, and the rest of releasing a chunk
//     split     return_excess_to_free_list, and the rest of taking one
//     undo      releasing, and emptying the cache, so that it can be undone
//     calls     mcu_heap_init, mcu_malloc and mcu_free: make, hand_out, take_back
//     answer    an answer in document 01's three numbers
//
// What needs no record (the search, the tags of a free chunk, emptying, the walk of the tiling) is in crate `steps`.
//
// Any record, any memory and any number may be passed to a public function. Its contract is one equation with a rule of crate `rules`, on
// the record and words as `seen` (specs/Seen.antt) reads them.
#![tactic(auto)]

mod answer;
mod calls;
mod kind;
mod lists;
mod merge;
mod record;
mod split;
mod undo;

pub use answer::{Done, NotMade, Refusal, Told};
pub use kind::Kind;
pub use record::{Marked, Record};
