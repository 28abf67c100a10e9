//! Priority queues of numbers, as bit sets with two levels.

use crate::fault::{EliminationFault, number};
use std::alloc::{AllocError, Global};

/// The number of bits of a word.
const BITS: u32 = 64;

/// The number of bits of an index of a bit in a word.
const WORD_BITS: u8 = 6;

/// A set of numbers from which the least one is taken first. Numbers are below a limit that grows
/// with [`Queue::make_room`].
#[derive(Drop)]
pub(crate) struct Queue {
    // a bit for each number below the limit
    words: Vec<u64>,
    // a bit for each word: whether it is not 0
    heads: Vec<u64>,
    // all heads before this index are 0
    start: usize,
}

impl Queue {
    /// Creates an empty queue with the limit 0.
    pub(crate) fn new(alloc: Global) -> Queue {
        Queue {
            words: Vec::new(alloc),
            heads: Vec::new(alloc),
            start: 0,
        }
    }

    /// Raises the limit above `number`, which is the next number that had no room.
    pub(crate) fn make_room(&mut self, number: u32) -> Result<(), AllocError> {
        let word = number / BITS;
        if self.words.len() <= word as usize {
            self.words.push(0)?;
        }
        if self.heads.len() <= (word / BITS) as usize {
            self.heads.push(0)?;
        }
        Ok(())
    }

    /// Adds `number`, which is below the limit.
    pub(crate) fn put(&mut self, number: u32) -> Result<(), EliminationFault> {
        let word = number / BITS;
        let head = (word / BITS) as usize;
        match self.words.get_mut(word as usize) {
            Some(bits) => *bits |= 1 << (number % BITS),
            None => return Err(EliminationFault::Internal),
        }
        match self.heads.get_mut(head) {
            Some(bits) => *bits |= 1 << (word % BITS),
            None => return Err(EliminationFault::Internal),
        }
        self.start = self.start.min(head);
        Ok(())
    }

    /// Removes and returns the least number, or returns `None` if the queue is empty.
    pub(crate) fn take(&mut self) -> Result<Option<u32>, EliminationFault> {
        let end = self.heads.len();
        for head in self.start..end {
            let bits = self.heads[head];
            if bits != 0 {
                self.start = head;
                return self.take_below(head, bits);
            }
        }
        self.start = end;
        Ok(None)
    }

    /// Removes and returns the least number that belongs to the head at index `head`, whose bits
    /// `head_bits` are not 0.
    fn take_below(&mut self, head: usize, head_bits: u64) -> Result<Option<u32>, EliminationFault> {
        let place = (head << WORD_BITS) | head_bits.trailing_zeros() as usize;
        let Some(word) = self.words.get_mut(place) else {
            return Err(EliminationFault::Internal);
        };
        let bits = *word;
        let rest = bits & bits.wrapping_sub(1);
        *word = rest;
        if rest == 0 {
            match self.heads.get_mut(head) {
                Some(head) => *head &= head_bits.wrapping_sub(1),
                None => return Err(EliminationFault::Internal),
            }
        }
        let taken = (place << WORD_BITS) | bits.trailing_zeros() as usize;
        Ok(Some(number(taken)?))
    }

    /// Removes `number` from the queue, and perhaps others near it. It is for queues of which every
    /// number is removed anyway.
    pub(crate) fn clear_word(&mut self, number: u32) -> Result<(), EliminationFault> {
        let word = number / BITS;
        match self.words.get_mut(word as usize) {
            Some(bits) => *bits = 0,
            None => return Err(EliminationFault::Internal),
        }
        match self.heads.get_mut((word / BITS) as usize) {
            Some(bits) => *bits = 0,
            None => return Err(EliminationFault::Internal),
        }
        Ok(())
    }
}
