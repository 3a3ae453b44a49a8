// The blocks of a list that was walked, one after another.
ghost use Rattle.std.specs.Prelude.{◌≡◌, ◌+◌, ◌*◌, ◌<◌, ◌^◌};
ghost use Rattle.shelf.specs.Blocks.{reading_of, Rests, Steps};

use crate::walk::Place;
use block::summary::Summary;

// Where the next block's summary and its body's tag stand, and how many blocks are left.
#[derive(Clone, Copy)]
pub struct Reading {
    pub sum: usize,
    pub body: usize,
    pub left: u8,
}

// A block on the shelf: its summary, and where its body's value starts and ends.
#[derive(Clone, Copy)]
pub struct BlockAt {
    pub summary: Summary,
    pub start: usize,
    pub end: usize,
}

impl Reading {
    // Before the first block of a list.
    pub fn new(list: Place) -> Reading
        requires { list.at + 8 + 12 * list.count < 2 ^ 64 }
        ensures { result ≡ reading_of list }
    {
        let sum = list.at + 8;
        let left = list.count;
        Reading {
            sum,
            body: sum + 12 * (left as usize),
            left,
        }
    }

    // The next block, if one is left.
    pub fn next(&mut self, s: &[u8]) -> Option<BlockAt>
        requires { Rests s.now self.old }
        ensures { Steps s.now self.old result self.new }
    {
        let left = self.left;
        if left == 0 {
            return None;
        }
        let a = self.sum;
        let b = self.body;
        let start = b + 3;
        let end = start + wire::number::be2(s, b + 1) as usize;
        let summary = block::summary::summary_in(s, a, block::body::is_strip(s, b));
        *self = Reading {
            sum: a + 12,
            body: end,
            left: left - 1,
        };
        Some(BlockAt {
            summary,
            start,
            end,
        })
    }
}
