// The words of the heap: three kinds of name for a header, what a header and a link word say, and the arithmetic of sizes.
//
// Ports the helpers of heap.rs up to `chunk_size_to_list_index` (document 01, port order 1 to 3), under its names. Every function is
// total: any number may be passed, a word past the end reads 0 and a store there does nothing.
//
//     names    Link, WordIndex, ByteOffset, and the conversions between them
//     tags     header, flags and footer (the layout of a chunk is drawn there)
//     links    prev and next, of a sentinel or of a chunk
//     sizes    rounded size, class, threshold
#![tactic(auto)]

mod links;
mod names;
mod sizes;
mod tags;

pub use links::{Next, Prev, Side, hdr_to_linked_hdr, node_link, set_chunk_link, set_field};
pub use names::{ByteOffset, Link, WordIndex, hdr_to_payload, payload_to_hdr};
pub use sizes::{chunk_size_to_list_index, rounded_size, start_index, threshold};
pub use tags::{
    get_hdr_chunk_size, hdr_to_ftr, hdr_to_left_ftr, hdr_to_left_hdr, hdr_to_right_hdr,
    is_left_free, is_right_free, is_this_free, put, set_ftr_chunk_size, set_hdr,
    set_hdr_chunk_size, set_left_allocated, set_left_free, set_self_allocated, set_this_free, word,
};
