//! All memory that the process can have, of which a test leaves as much as it needs.
use std::alloc::Global;
use std::process::Abort;

/// The largest blocks that are asked for: no process can have one.
const LARGEST: usize = 0x4000_0000_0000;

/// How often their size is halved for the largest blocks that are requested for each call.
const LARGE: u32 = 23;

/// How often it is halved for those that an allocator may keep for the next block of their size.
const SMALL: u32 = 36;

/// How many sizes of those there are, each 16 bytes greater than the one before.
const SMALL_SIZES: usize = 66;

/// How many blocks are held at most.
const MOST_BLOCKS: usize = 131_072;

/// How much is left to the test for its own values.
const OWN: usize = 0x80_0000;

/// What is taken of the block that is given back for a call. So the rest of it can be had in
/// pieces, and isn't kept for one block of its size.
const FRONT: usize = 2_048;

/// Memory that is held, so that nothing else can have it: some for good, some for one call.
#[derive(Drop)]
pub struct ScarceMemory {
    alloc: Global,
    _for_good: Vec<Vec<u8>>,
    for_a_call: Vec<Vec<u8>>,
}

/// Takes blocks of a size until one is refused.
fn take_each(alloc: Global, blocks: &mut Vec<Vec<u8>>, size: usize) {
    for _block in 0..MOST_BLOCKS {
        let Ok(block) = Vec::with_capacity(alloc, size) else {
            return;
        };
        if blocks.push(block).is_err() {
            return;
        }
    }
}

/// Takes all memory that can be had, in blocks whose size is halved as often, and in lesser ones.
fn take_all(alloc: Global, blocks: &mut Vec<Vec<u8>>, first: u32) {
    for halves in first..SMALL {
        take_each(alloc, blocks, LARGEST >> halves);
    }
    for place in 0..SMALL_SIZES {
        take_each(alloc, blocks, (SMALL_SIZES - place) * 16);
    }
}

impl ScarceMemory {
    /// Takes all memory except what is left to the test.
    pub fn new<R: AllocGlobal + Abort>(rt: &R) -> ScarceMemory {
        let alloc = rt.alloc();
        let for_good = Vec::<Vec<u8>>::with_capacity(alloc, MOST_BLOCKS);
        let mut for_good = for_good.expect(rt, "there is memory");
        let for_a_call = Vec::<Vec<u8>>::with_capacity(alloc, MOST_BLOCKS);
        let for_a_call = for_a_call.expect(rt, "there is memory");
        let own = Vec::<u8>::with_capacity(alloc, OWN).expect(rt, "there is memory");
        take_all(alloc, &mut for_good, 0);
        drop(own);
        ScarceMemory {
            alloc,
            _for_good: for_good,
            for_a_call,
        }
    }

    /// Takes all memory except about that many bytes.
    pub fn leave(&mut self, room: usize) {
        let left = Vec::<u8>::with_capacity(self.alloc, room.saturating_add(FRONT));
        take_all(self.alloc, &mut self.for_a_call, LARGE);
        drop(left);
        if let Ok(front) = Vec::with_capacity(self.alloc, FRONT) {
            let _held = self.for_a_call.push(front);
        }
    }

    /// Gives back what was held for a call.
    pub fn give_back(&mut self) {
        self.for_a_call.clear();
    }
}
