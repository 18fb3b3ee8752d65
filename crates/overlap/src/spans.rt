// The words of the entries passed so far. (FORMAT 10)
ghost use Rattle.std.specs.Prelude.{◌≡◌, ◌&&◌, ◌+◌, ◌^◌, ◌<◌, ◌≤◌, leb, set, replicate};
ghost use Rattle.lemmas.specs.Steps.{is_some};
ghost use Rattle.layout.specs.Regions.{as_entry};
ghost use Rattle.overlap.specs.Spans.{last_word, overlaps_from};

use layout::{MAX_REGIONS, Region};

// The first and the last word of each entry, so that each is voted once. In one array of pairs, which the compiler must take
// apart again, the worst order of regions takes ten times as long as parse, over the bar of eight (docs/SPEED.md).
#[derive(Drop)]
pub(crate) struct SpanTable {
    pub(crate) first: [u32; MAX_REGIONS],
    pub(crate) last: [u32; MAX_REGIONS],
}

impl SpanTable {
    pub(crate) fn empty() -> SpanTable
        ensures { (result.first ≡ replicate 1024 0) × (result.last ≡ replicate 1024 0) }
    {
        SpanTable {
            first: [0u32; MAX_REGIONS],
            last: [0u32; MAX_REGIONS],
        }
    }

    // Entry i has the words from first to last.
    pub(crate) fn note(&mut self, i: u16, first: u32, last: u32)
        requires { i < 1024 }
        ensures { (self.new.first ≡ set self.old.first i first) × (self.new.last ≡ set self.old.last i last) }
    {
        let i = i as usize;
        self.first[i] = first;
        self.last[i] = last;
    }

    // Whether the words from first to last meet one of the first n entries. It does not stop at the first hit: a loop that
    // always runs to its end is compiled to wide compares.
    pub(crate) fn meet(&self, n: u16, first: u32, last: u32) -> bool
        requires { n ≤ 1024 }
        ensures { result ≡ is_some (overlaps_from first last self.now.first self.now.last 0 n) }
    {
        let mut hits: u32 = 0;
        for j in 0..n as usize {
            hits += ranges_overlap(first, last, self.first[j], self.last[j]) as u32;
        }
        hits != 0
    }

    // The lowest of the first n entries that the words from first to last meet.
    pub(crate) fn lowest_met(&self, n: u16, first: u32, last: u32) -> Option<u16>
        requires { n ≤ 1024 }
        ensures { result ≡ overlaps_from first last self.now.first self.now.last 0 n }
    {
        for j in 0..n {
            let k = j as usize;
            if ranges_overlap(first, last, self.first[k], self.last[k]) {
                return Some(j);
            }
        }
        None
    }
}

// Whether the words from first to last and those from start to end meet.
fn ranges_overlap(first: u32, last: u32, start: u32, end: u32) -> bool
    ensures { result ≡ (leb first end && leb start last) }
{
    first <= end && start <= last
}

// The last word of a region, 0 for an empty one. A last word of more than 32 bits becomes the largest of 32, which no
// entry starts behind either.
pub(crate) fn last_word(region: Region) -> u32
    ensures { result ≡ last_word (as_entry region) }
{
    if region.word_length == 0 {
        return 0;
    }
    usize::min(end_word(region) - 1, u32::MAX as usize) as u32
}

// The word past a region.
pub(crate) fn end_word(region: Region) -> usize
    ensures { (result ≡ region.word_offset + region.word_length) × (region.word_offset < 2 ^ 32) }
{
    (region.word_offset as usize) + (region.word_length as usize)
}
