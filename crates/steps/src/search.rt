// First fit: the lists from the start class upwards, each from its sentinel's next.
//
// A heap of n words lists at most n / 4 chunks. A search that compares more is in lists that do not end; it says so and stops.
ghost use Rattle.std.specs.Prelude.{◌≡◌, ◌-◌, ◌/◌, ◌<◌, ◌≤◌, length};
ghost use Rattle.words.specs.Numbers.{numbers};
ghost use Rattle.rules.specs.Rules.Search.{search_all};
ghost use Rattle.words.specs.Sizes.{start_of};
ghost use Rattle.steps.specs.Found.{told, walk_in};

use words::{Link, Next, WordIndex};

// What a search finds: a chunk, if one is long enough, and how many were compared.
#[derive(Clone, Copy)]
pub struct Found {
    pub at: Option<Link>,
    pub compared: usize,
}

// The lists do not end.
#[derive(Clone, Copy)]
pub struct Lost;

// The first chunk of at least `size` bytes in the list of a class; `compared` were compared before, of `limit` in all.
fn walk_list(
    next: [Link; 6],
    heap: &[u32],
    class: u16,
    size: u32,
    limit: usize,
    compared: usize,
) -> Result<Found, Lost>
    requires { (class < 6) × (compared ≤ limit) }
    ensures { told result ≡ walk_in (numbers next) heap.now size limit class compared }
{
    let sentinel = Link(class);
    let mut k = compared;
    let mut l = words::node_link::<Next>(next, heap, sentinel);
    while l != sentinel {
        if limit <= k {
            return Err(Lost);
        }
        k += 1;
        if size <= words::get_hdr_chunk_size(heap, WordIndex::from(l)) {
            return Ok(Found {
                at: Some(l),
                compared: k,
            });
        }
        l = words::node_link::<Next>(next, heap, l);
    }
    Ok(Found {
        at: None,
        compared: k,
    })
}

// The first chunk of at least `size` bytes in the lists from the start class upwards.
pub fn search_first_fit(next: [Link; 6], heap: &[u32], size: u32) -> Result<Found, Lost>
    ensures { told result ≡ search_all (walk_in (numbers next) heap.now size (length heap.now / 4)) (6 - start_of size) (start_of size) 0 }
{
    let limit = heap.len() / 4;
    let mut k: usize = 0;
    for class in words::start_index(size)..6 {
        let found = walk_list(next, heap, class, size, limit, k)?;
        if found.at.is_some() {
            return Ok(found);
        }
        k = found.compared;
    }
    Ok(Found {
        at: None,
        compared: k,
    })
}
