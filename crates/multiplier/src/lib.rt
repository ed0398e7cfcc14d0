// Multiplication in the field by one element that is held.
#![tactic(auto)]

pub mod table;

ghost use Rattle.std.specs.Prelude.{◌≡◌, ℕ};
ghost use Rattle.block.specs.Field.{product};
ghost use Rattle.block.specs.Num.{num};

use block::Block;
pub use table::Table;

/// Holds one element of the field, and multiplies blocks by it.
pub trait Multiplier: Sized {
    // the element held
    ghost element: { Self → ℕ };

    /// One that holds zero.
    fn new() -> Self
        ensures { element result ≡ 0 };

    /// Sets the element.
    fn load(&mut self, block: Block)
        ensures { element self.new ≡ num block };

    /// The element's product with a block.
    fn times(&self, block: Block) -> Block
        ensures { num result ≡ product (element self.now) (num block) };
}

/// Doubles as it goes, and keeps nothing but the element.
#[derive(Clone, Copy, Debug)]
pub struct Doubling {
    held: Block,
}

impl Multiplier for Doubling {
    ghost element = { λ m. num m.held };

    fn new() -> Doubling {
        Doubling { held: Block::ZERO }
    }

    fn load(&mut self, block: Block) {
        self.held = block;
    }

    fn times(&self, block: Block) -> Block {
        self.held.product(block)
    }
}

#[cfg(test)]
mod tests {
    use crate::{Doubling, Multiplier, Table};
    use block::Block;

    fn block(number: u128) -> Block {
        Block::from_bytes(number.to_be_bytes())
    }

    #[test]
    fn both_multiply(rt: HostRuntime) {
        let element = block(0x66e94bd4ef8a2c3b884cfa59ca342b2e);
        let factor = block(0x0388dace60b6a392f328c2b971b2fe78);
        let product = block(0x519fa38ac731568e9c1eb21731167f1c);
        let mut doubling = Doubling::new();
        doubling.load(element);
        assert_eq!(rt; doubling.times(factor), product);
        let mut table = Table::new();
        table.load(element);
        assert_eq!(rt; table.times(factor), product);
    }
}
