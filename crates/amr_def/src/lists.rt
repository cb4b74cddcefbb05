//! The lists of a problem. Contracts see each as the list of its entries.

use crate::problem::Block;
use std::marker::Model;

/// The name of a problem, as its bytes.
#[derive(Debug, Drop)]
pub struct Name {
    bytes: Vec<u8>,
}

impl Model for Name {
    ghost use Rattle.std.specs.Prelude.{List, ℕ};

    ghost Value = { List ℕ };

    ghost view = { λ n. n.bytes.items };
}

impl Name {
    ghost use Rattle.std.specs.Prelude.{◌≡◌};

    pub fn make(bytes: Vec<u8>) -> Name
        ensures { result ≡ bytes.items }
    {
        Name { bytes }
    }

    pub fn bytes(&self) -> &[u8]
        ensures { result.now ≡ self.now }
    {
        self.bytes.as_slice()
    }
}

/// For each level below the finest the least difference between the values of neighbours that tags a
/// cell.
#[derive(Debug, Drop)]
pub struct Thresholds {
    entries: Vec<u64>,
}

impl Model for Thresholds {
    ghost use Rattle.std.specs.Prelude.{List, ℕ};

    ghost Value = { List ℕ };

    ghost view = { λ t. t.entries.items };
}

impl Thresholds {
    ghost use Rattle.std.specs.Prelude.{◌≡◌};

    pub fn make(entries: Vec<u64>) -> Thresholds
        ensures { result ≡ entries.items }
    {
        Thresholds { entries }
    }

    pub fn entries(&self) -> &[u64]
        ensures { result.now ≡ self.now }
    {
        self.entries.as_slice()
    }
}

/// The Courant numbers of an axis for each row or column of level 0, over the common `d`; none where
/// the axis's own number holds everywhere.
#[derive(Debug, Drop)]
pub struct Shear {
    entries: Vec<i32>,
}

impl Model for Shear {
    ghost use Rattle.std.specs.Prelude.{List, ℤ};

    ghost Value = { List ℤ };

    ghost view = { λ s. s.entries.items };
}

impl Shear {
    ghost use Rattle.std.specs.Prelude.{◌≡◌};

    pub fn make(entries: Vec<i32>) -> Shear
        ensures { result ≡ entries.items }
    {
        Shear { entries }
    }

    pub fn entries(&self) -> &[i32]
        ensures { result.now ≡ self.now }
    {
        self.entries.as_slice()
    }
}

/// The rectangles of level 0 that start with mass, in the problem's order.
#[derive(Debug, Drop)]
pub struct Blocks {
    entries: Vec<Block>,
}

impl Model for Blocks {
    ghost use Rattle.std.specs.Prelude.{List};
    ghost use Rattle.amr_def.specs.declared.problem.Block.{Block};

    ghost Value = { List Block };

    ghost view = { λ b. b.entries.items };
}

impl Blocks {
    ghost use Rattle.std.specs.Prelude.{◌≡◌};

    pub fn make(entries: Vec<Block>) -> Blocks
        ensures { result ≡ entries.items }
    {
        Blocks { entries }
    }

    pub fn entries(&self) -> &[Block]
        ensures { result.now ≡ self.now }
    {
        self.entries.as_slice()
    }
}
