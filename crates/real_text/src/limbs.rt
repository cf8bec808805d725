// Large numbers: 40 limbs of 32 bits each, room for every binary64 times the powers of ten that its text takes.
const LIMBS: usize = 40;

const BASE: u64 = 0x1_0000_0000;

// The highest limb first, so that numbers compare as their limbs do.
#[derive(Clone, Copy, PartialEq, Eq, PartialOrd, Ord)]
pub struct Large {
    limbs: [u32; LIMBS],
}

impl Large {
    // The word, below 2^54, times 2^shift.
    pub fn shifted(word: u64, shift: u64) -> Large {
        let low = (word % BASE) << (shift % 32);
        let high = (word / BASE) << (shift % 32);
        let parts = [low, low / BASE | high, high / BASE];
        let mut limbs = [0; LIMBS];
        let places = limbs.iter_mut().rev().skip((shift / 32) as usize);
        for (limb, part) in places.zip(parts.iter()) {
            *limb = (*part % BASE) as u32;
        }
        Large { limbs }
    }

    pub fn times_ten(&mut self) {
        let mut carry = 0;
        for limb in self.limbs.iter_mut().rev() {
            let (product, next) = limb.carrying_mul(10, carry);
            *limb = product;
            carry = next;
        }
    }

    pub fn plus(&self, other: &Large) -> Large {
        let mut limbs = self.limbs;
        let mut carry = false;
        for (limb, added) in limbs.iter_mut().rev().zip(other.limbs.iter().rev()) {
            let (sum, next) = limb.carrying_add(*added, carry);
            *limb = sum;
            carry = next;
        }
        Large { limbs }
    }

    // The other, which is not above it, taken away.
    pub fn subtract(&mut self, other: &Large) {
        let mut borrow = false;
        for (limb, taken) in self.limbs.iter_mut().rev().zip(other.limbs.iter().rev()) {
            let (difference, next) = limb.borrowing_sub(*taken, borrow);
            *limb = difference;
            borrow = next;
        }
    }
}
