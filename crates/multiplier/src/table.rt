// The multiplier that takes half a byte of the other factor at a time, from a table.
ghost use Rattle.std.specs.Prelude.{◌≡◌, ◌<◌, bit_xor};
ghost use Rattle.block.specs.Field.{product};
ghost use Rattle.block.specs.Num.{num};
ghost use Rattle.multiplier.specs.Products.{Products, held};

use crate::Multiplier;
use block::Block;

/// Holds the sixteen products of its element with the blocks of 0 to 15.
#[derive(Clone, Copy, Debug)]
pub struct Table {
    products: [Block; 16],
    ghost filled: { Products (held products 1) 16 products },
}

/// Sixteen times a block.
fn sixteenfold(block: Block) -> Block
    ensures { num result ≡ product (num block) 16 }
{
    block.double().double().double().double()
}

impl Table {
    /// One step of Horner's rule: sixteen times the sum, and the element times half a byte.
    fn step(&self, sum: Block, half: u8) -> Block
        requires { half < 16 }
        ensures { num result ≡ bit_xor (product (num sum) 16) (product (held self.now.products 1) half) }
    {
        sixteenfold(sum) ^ self.products[half as usize]
    }
}

impl Multiplier for Table {
    ghost element = { λ t. held t.products 1 };

    fn new() -> Table {
        Table {
            products: [Block::ZERO; 16],
        }
    }

    fn load(&mut self, block: Block) {
        let mut products = [Block::ZERO; 16];
        products[1] = block;
        // a loop by index: entry k gives the entries 2k and 2k + 1 of the same table
        for k in 1..8usize {
            let even = products[k].double();
            products[2 * k] = even;
            products[2 * k + 1] = even ^ block;
        }
        self.products = products;
    }

    fn times(&self, block: Block) -> Block {
        let mut sum = Block::ZERO;
        for byte in block.to_bytes() {
            sum = self.step(self.step(sum, byte >> 4), byte & 15);
        }
        sum
    }
}
