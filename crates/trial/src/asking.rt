// A query, as bytes and as the terms' weights.
ghost use Rattle.std.specs.Prelude.{◌<◌, ◌≤◌};

use crate::bytes::Bytes;
use crate::chance::Chance;
use crate::table::{ASKED, term_number};

#[derive(Drop)]
pub(crate) struct Question {
    pub(crate) k: u8,
    pub(crate) weights: [u8; ASKED],
    bytes: Bytes<76>,
}

// A field of the length 5: a number of four bytes and one byte more.
pub(crate) fn field_of_5(tag: u8, number: u32, last: u8) -> [u8; 8] {
    let [a, b, c, d] = number.to_be_bytes();
    [tag, 0, 5, a, b, c, d, last]
}

impl Question {
    // "A query is a field tag 20, length 1 (k)"
    fn new(k: u8) -> Question {
        let mut bytes = Bytes::new();
        bytes.push(&[0x20, 0, 1, k]);
        Question {
            k,
            weights: [0; ASKED],
            bytes,
        }
    }

    // "then one field tag 21, length 5, per term: term (4), weight (1)"
    fn put(&mut self, term: u32, weight: u8) {
        self.bytes.push(&field_of_5(0x21, term, weight));
    }

    // A query for k hits of one term, by its number, with the weight 255.
    pub(crate) fn of_one(k: u8, term: u32) -> Question {
        let mut question = Question::new(k);
        question.put(term, 255);
        question
    }

    // A query for k hits of n terms of 17: every 5th from a first, so that they differ.
    pub(crate) fn of_terms(chance: &mut Chance, k: u8, n: usize) -> Question
        requires { n ≤ 9 }
    {
        let mut question = Question::new(k);
        let first = chance.draw(ASKED);
        for j in 0..n {
            let term = (first + 5 * j) % ASKED;
            let weight = weight(chance);
            question.put(term_number(term), weight);
            question.weights[term] = weight;
        }
        question
    }

    // A query for 1 to 100 hits of 1 to 8 terms.
    pub(crate) fn by_chance(chance: &mut Chance) -> Question {
        let k = hits(chance);
        let n = 1 + chance.draw(8);
        Question::of_terms(chance, k, n)
    }

    pub(crate) fn as_slice(&self) -> &[u8] {
        self.bytes.as_slice()
    }
}

// A weight, small more often than not, so that sums tie.
fn weight(chance: &mut Chance) -> u8 {
    if chance.draw(4) == 0 {
        return 1 + chance.draw(255) as u8;
    }
    1 + chance.draw(3) as u8
}

// How many hits: few more often than not, so that a search has something to skip.
fn hits(chance: &mut Chance) -> u8 {
    if chance.draw(4) == 0 {
        return 1 + chance.draw(100) as u8;
    }
    1 + chance.draw(8) as u8
}
