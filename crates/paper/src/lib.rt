// Document 01 in definitions (specs/) and what is true of them (proofs/). The code here is what the crates above share: what is
// found or refused, a pending item, and the sizes.
#![tactic(auto)]

ghost use Rattle.std.specs.Prelude.{◌≡◌};
ghost use Rattle.paper.specs.declared.Item.TheVariants.{Statement as statement};

mod refused; // refused.rt: what is refused, and where
pub mod sizes; // sizes.rt: limits and sizes

pub use refused::{Fault, Refusal};

// What is read, and the next position.
#[derive(Clone, Copy)]
pub struct Found<T> {
    pub value: T,
    pub next: usize,
}

// "A pending item is a statement (1), an ask (2) or a news (3), each carrying cabinet, left and right, one byte each."
// An enum of three cases that each carry the same: document 01 names this form.
#[derive(Clone, Copy)]
pub enum Item {
    Statement { cabinet: u8, left: u8, right: u8 },
    Ask { cabinet: u8, left: u8, right: u8 },
    News { cabinet: u8, left: u8, right: u8 },
}

// A statement left = right at a cabinet, as a file lists it and as an item of the first kind carries it.
#[derive(Clone, Copy)]
pub struct Statement {
    pub cabinet: u8,
    pub left: u8,
    pub right: u8,
}

impl From<Statement> for Item {
    ghost from_gives = { λ s item. item ≡ statement s.cabinet s.left s.right };

    fn from(s: Statement) -> Item {
        Item::Statement {
            cabinet: s.cabinet,
            left: s.left,
            right: s.right,
        }
    }
}
